// The checksum of a run that is asked for by itself.
ghost use Rattle.std.specs.Prelude.{◌≡◌};
ghost use Rattle.checksum.specs.Asked.{summed_numbers, sum_numbers};

use crate::machine::checksum;
use refusal::Refusal;

// The checksum of a run of whole words; a run of odd length is refused.
pub fn sum(bytes: &[u8]) -> Result<u16, Refusal>
    ensures { summed_numbers result ≡ sum_numbers bytes.now }
{
    if bytes.len() % 2 != 0 {
        return Err(Refusal::Length);
    }
    Ok(checksum(bytes))
}
