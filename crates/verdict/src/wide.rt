// The quick scrub of guards of thirty-two bits, each the CRC-32C of 4,096 bytes. That of zeros is not zero, so what the guards have to combine
// to goes by their number.
ghost use Rattle.std.specs.Prelude.{◌≡◌};
ghost use Rattle.verdict.specs.QuickWide.{wide_due, quick_wide_numbers, compared_wide_numbers};

use crate::{Compared, check_guards, combined_wide, compare};
use refusal::Refusal;

// The guard of a block of zeros.
const BLANK: u32 = 0x98F94189;

// What so many guards have to combine to.
// Stays: beside `blank_if_odd` of format: by `format::settled` it would need a method's number, which guards alone have not, and be no plainer.
fn wide_due(guards: usize) -> u32
    ensures { result ≡ wide_due guards }
{
    if guards % 2 == 0 { 0 } else { BLANK }
}

// The stored guards of a stripe compared: they fit where they combine to what is due.
pub fn quick_scrub_wide(guards: &[u32]) -> Result<Compared<u32>, Refusal>
    ensures { compared_wide_numbers result ≡ quick_wide_numbers guards.now }
{
    check_guards(guards.len())?;
    let due = wide_due(guards.len());
    Ok(compare(combined_wide(guards), due))
}
