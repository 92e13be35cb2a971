// The stripes of an image that is fed: which states are fit to go on with.
ghost use Rattle.std.specs.Prelude.{◌≡◌, ◌&&◌, ◌-◌, ◌%◌, leb};
ghost use Rattle.tag.specs.Blocks.{format_at};
ghost use Rattle.report.specs.Feeding.{stripe_fit};

use crate::{Report, stripe_length};
use layout::Array;
use lines::Tally;

// No count is above the number of the stripes before.
fn few(stripe: u64, tally: Tally) -> bool
    ensures { result ≡ leb tally.clean stripe && leb tally.bad stripe && leb tally.unchecked stripe && leb tally.torn stripe }
{
    tally.clean <= stripe
        && tally.bad <= stripe
        && tally.unchecked <= stripe
        && tally.torn <= stripe
}

// Whether a state within the stripes is fit: its numbers are in range, its stripe is not whole yet, and its counts are small.
pub fn stripe_fit(report: Report) -> bool
    ensures { result ≡ stripe_fit report }
{
    let array = report.scan.array;
    let stripe = report.scan.stripe;
    if layout::check_stripe(array, stripe).is_err() {
        return false;
    }
    report.have < stripe_length(array) && few(stripe, report.tally)
}

// How many bytes a block of the array lacks, when so many bytes of the stripe have come.
pub fn block_lacks(array: Array, have: usize) -> usize
    ensures { result ≡ (format_at array).block_length - have % (format_at array).block_length }
{
    let block = format::block_length(array.method);
    block - have % block
}
