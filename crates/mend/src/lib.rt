// A stripe of an image that is to be mended: rebuilt where that can be done, left as it is where it cannot, and listed where somebody has to
// look at it.
#![tactic(auto)]

ghost use Rattle.std.specs.Prelude.{◌≡◌, length};
ghost use Rattle.verdict.specs.Verdicts.{verdict_numbers};
ghost use Rattle.stripe.specs.Jobs.{rebuild_bytes};
ghost use Rattle.lines.specs.Text.{Written};
ghost use Rattle.lines.specs.Lines.{fitting};
ghost use Rattle.mend.specs.Mending.{mended_by, lost_unless_rebuilt, listed_by, mended, listed};

use layout::Array;
use verdict::Verdict;

// Rebuilds a bad member, or lists the stripe as lost where that is refused.
// Stays: here and below two buffers are lent side by side, as `mend` is lent them; a struct of two `&mut` would be made for one call.
fn rebuild_or_lose(
    array: Array,
    stripe: u64,
    member: usize,
    bytes: &mut [u8],
    list: &mut [u8],
) -> usize
    ensures bytes_after { bytes.new ≡ rebuild_bytes array stripe member bytes.old }
    ensures written { Written list.old 0 (fitting (length list.old) (lost_unless_rebuilt array stripe member bytes.old)) list.new result }
{
    match stripe::rebuild(array, stripe, member, bytes) {
        Ok(()) => 0,
        Err(_) => lines::lost_line(list, stripe),
    }
}

// What a verdict asks for.
fn mend_by(array: Array, stripe: u64, verdict: Verdict, bytes: &mut [u8], list: &mut [u8]) -> usize
    ensures bytes_after { bytes.new ≡ mended_by array stripe (verdict_numbers verdict) bytes.old }
    ensures written { Written list.old 0 (fitting (length list.old) (listed_by array stripe (verdict_numbers verdict) bytes.old)) list.new result }
{
    match verdict {
        Verdict::Clean => 0,
        Verdict::Bad { member, .. } => rebuild_or_lose(array, stripe, member, bytes, list),
        Verdict::Unchecked { .. } | Verdict::Torn { .. } => {
            lines::stripe_line(list, stripe, verdict)
        }
    }
}

// Scrubs a stripe, mends it, and writes its line, if it has one, at the start of `list`, where there is room for any line; answers the line's
// length. A stripe that is no stripe of the array stays as it is.
pub fn mend(array: Array, stripe: u64, bytes: &mut [u8], list: &mut [u8]) -> usize
    ensures bytes_after { bytes.new ≡ mended array stripe bytes.old }
    ensures written { Written list.old 0 (fitting (length list.old) (listed array stripe bytes.old)) list.new result }
{
    match stripe::scrub(array, stripe, bytes) {
        Err(_) => 0,
        Ok(verdict) => mend_by(array, stripe, verdict, bytes, list),
    }
}
