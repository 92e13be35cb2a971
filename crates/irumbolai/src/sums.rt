// The checksum and the CRC-32C of a run of bytes, for C.
ghost use Rattle.std.specs.Prelude.{◌≡◌};
ghost use Rattle.castagnoli.specs.Castagnoli.{crc32c};
ghost use Rattle.checksum.specs.Asked.{summed_numbers, sum_numbers};
ghost use Rattle.irumbolai.specs.Answers.{unflagged, sum_fields};

use crate::{SumAnswer, refusal_number};
use refusal::Refusal;

// An answer of `sum` for C.
impl From<Result<u16, Refusal>> for SumAnswer {
    ghost from_gives = { λ summed answer. sum_fields answer ≡ unflagged (summed_numbers summed) };

    fn from(summed: Result<u16, Refusal>) -> SumAnswer {
        match summed {
            Ok(guard) => SumAnswer {
                refusal: 0,
                guard: u32::from(guard),
            },
            Err(refusal) => SumAnswer {
                refusal: refusal_number(refusal),
                guard: 0,
            },
        }
    }
}

// The checksum of a run of bytes of even length.
#[unsafe(no_mangle)]
pub extern "C" fn irumbolai_checksum(bytes: &[u8]) -> SumAnswer
    ensures { sum_fields result ≡ unflagged (sum_numbers bytes.now) }
{
    SumAnswer::from(checksum::sum(bytes))
}

// The CRC-32C of a run of bytes of any length.
#[unsafe(no_mangle)]
pub extern "C" fn irumbolai_crc32c(bytes: &[u8]) -> u32
    ensures { result ≡ crc32c bytes.now }
{
    castagnoli_fold::crc32c(bytes)
}
