// The recovery of a stripe that an update left open.
ghost use Rattle.std.specs.Prelude.{◌≡◌, cond, [], ◌∷◌, suc, ◌<◌, length};
ghost use Rattle.layout.specs.Places.{parity_member};
ghost use Rattle.stripe.specs.Jobs.{rebuilt};
ghost use Rattle.stripe.specs.InPart.{first_amiss};
ghost use Rattle.stripe.specs.Verdicts.{scrub_refusal};
ghost use Rattle.intent.specs.Records.{entries, many, struck};
ghost use Rattle.intent.specs.Calls.{data_good, recover_numbers, recovery_numbers, recover_bytes, recover_log};

use crate::{LENGTH, Recovery, entries_fit, entries_of, many, rewrite};
use layout::Array;
use refusal::{Refusal, demand};

// Makes the parity of an entered stripe from its data members and strikes it out, or tells which of these stands in the way.
// Stays: array, stripe, bytes and log are four parameters: a struct of two buffers lent as `&mut` would be made for one call and taken apart in it.
fn remake(array: Array, stripe: u64, bytes: &mut [u8], log: &mut [u8; LENGTH]) -> Recovery
    requires bytes_value { scrub_refusal array stripe (length bytes.old) ≡ 0 }
    requires stripe_bound { stripe < 18446744073709551615 }
    requires nonzero { 0 < many (suc stripe) (entries log.old) }
    ensures result_value { recovery_numbers (Ok result) ≡ 1 ∷ 0 ∷ cond (data_good array stripe bytes.old) (1 ∷ 0 ∷ []) (2 ∷ first_amiss array stripe bytes.old ∷ []) }
    ensures bytes_after { bytes.new ≡ cond (data_good array stripe bytes.old) (rebuilt array stripe (parity_member array stripe) bytes.old) bytes.old }
    ensures log_after { log.new ≡ cond (data_good array stripe bytes.old) (struck stripe log.old) log.old }
{
    let parity = layout::parity_member(array, stripe);
    match stripe::rebuild(array, stripe, parity, bytes) {
        Ok(()) => {
            rewrite(log, stripe + 1, 0);
            Recovery::Recovered
        }
        Err(_) => Recovery::Left(stripe::first_amiss(array, stripe, bytes)),
    }
}

// The recovery of a stripe that nothing but its record can refuse.
fn recover_in(
    array: Array,
    stripe: u64,
    bytes: &mut [u8],
    log: &mut [u8; LENGTH],
) -> Result<Recovery, Refusal>
    requires { scrub_refusal array stripe (length bytes.old) ≡ 0 }
    ensures result_value { recovery_numbers result ≡ recover_numbers array stripe bytes.old log.old }
    ensures bytes_after { bytes.new ≡ recover_bytes array stripe bytes.old log.old }
    ensures log_after { log.new ≡ recover_log array stripe bytes.old log.old }
{
    let entries = entries_of(log);
    demand(entries_fit(&entries, array.stripes), Refusal::Record)?;
    if many(&entries, stripe + 1) == 0 {
        return Ok(Recovery::NotEntered);
    }
    Ok(remake(array, stripe, bytes, log))
}

// Recovers a stripe: where it is entered, and no data member is bad or unchecked, its parity is made anew and its entry struck out.
pub fn recover(
    array: Array,
    stripe: u64,
    bytes: &mut [u8],
    log: &mut [u8],
) -> Result<Recovery, Refusal>
    ensures result_value { recovery_numbers result ≡ recover_numbers array stripe bytes.old log.old }
    ensures bytes_after { bytes.new ≡ recover_bytes array stripe bytes.old log.old }
    ensures log_after { log.new ≡ recover_log array stripe bytes.old log.old }
{
    stripe::check_scrub(array, stripe, bytes.len())?;
    match log.as_mut_array::<LENGTH>() {
        Some(record) => recover_in(array, stripe, bytes, record),
        None => Err(Refusal::Length),
    }
}
