// The scrubs of a stripe in memory, for C.
ghost use Rattle.std.specs.Prelude.{◌≡◌};
ghost use Rattle.layout.specs.Arrays.{array_of};
ghost use Rattle.verdict.specs.Verdicts.{compared_numbers, quick_numbers};
ghost use Rattle.verdict.specs.QuickWide.{quick_wide_numbers};
ghost use Rattle.stripe.specs.Verdicts.{scrub_numbers};
ghost use Rattle.irumbolai.specs.Answers.{unflagged, verdict_fields, spread, quick_fields};

use crate::{QuickAnswer, VerdictAnswer, refusal_number, verdict_answer};
use refusal::Refusal;
use verdict::Compared;

// The full scrub of a stripe.
#[unsafe(no_mangle)]
pub extern "C" fn irumbolai_scrub(
    members: usize,
    stripes: u64,
    volume: u8,
    method: u8,
    row: u8,
    stripe: u64,
    bytes: &[u8],
) -> VerdictAnswer
    ensures { verdict_fields result ≡ spread (unflagged (scrub_numbers (array_of members stripes volume method row) stripe bytes.now)) }
{
    let array = layout::array_of(members, stripes, volume, method, row);
    verdict_answer(stripe::scrub(array, stripe, bytes))
}

// An answer of a quick scrub for C.
impl From<Result<Compared<u32>, Refusal>> for QuickAnswer {
    ghost from_gives = { λ compared answer. quick_fields answer ≡ unflagged (compared_numbers compared) };

    fn from(compared: Result<Compared<u32>, Refusal>) -> QuickAnswer {
        match compared {
            Ok(Compared::Fits) => QuickAnswer {
                refusal: 0,
                differs: 0,
                combination: 0,
            },
            Ok(Compared::Differs { combination }) => QuickAnswer {
                refusal: 0,
                differs: 1,
                combination,
            },
            Err(refusal) => QuickAnswer {
                refusal: refusal_number(refusal),
                differs: 0,
                combination: 0,
            },
        }
    }
}

// What guards of sixteen bits combine to, wider.
fn widened(compared: Compared<u16>) -> Compared<u32>
    ensures { result ≡ compared }
{
    match compared {
        Compared::Fits => Compared::Fits,
        Compared::Differs { combination } => Compared::Differs {
            combination: u32::from(combination),
        },
    }
}

// The stored guards of a stripe compared.
#[unsafe(no_mangle)]
pub extern "C" fn irumbolai_quick_scrub(guards: &[u16]) -> QuickAnswer
    ensures { quick_fields result ≡ unflagged (quick_numbers guards.now) }
{
    QuickAnswer::from(verdict::quick_scrub(guards).map(widened))
}

// The stored guards of a stripe compared, of thirty-two bits.
#[unsafe(no_mangle)]
pub extern "C" fn irumbolai_quick_scrub_wide(guards: &[u32]) -> QuickAnswer
    ensures { quick_fields result ≡ unflagged (quick_wide_numbers guards.now) }
{
    QuickAnswer::from(verdict::quick_scrub_wide(guards))
}
