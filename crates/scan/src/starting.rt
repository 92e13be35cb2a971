// A scan begins.
ghost use Rattle.std.specs.Prelude.{◌≡◌, length};
ghost use Rattle.refusal.specs.Refusals.{told};
ghost use Rattle.scan.specs.Scans.{start_refusal, empty_scan, start_state, start_work};

use crate::{Scan, Taken};
use format::MOST_TAGS;
use layout::Array;
use refusal::{Refusal, demand};

// Whether a scan can begin: the stripe is the array's, and the work buffer as long as a block's data.
fn check_start(array: Array, stripe: u64, length: usize) -> Result<(), Refusal>
    ensures { told result ≡ start_refusal array stripe length }
{
    layout::check_stripe(array, stripe)?;
    demand(length == format::data_length(array.method), Refusal::Length)
}

// A state with nothing taken.
fn empty(array: Array, stripe: u64) -> Scan
    ensures { result ≡ empty_scan array stripe }
{
    Scan {
        array,
        stripe,
        at: [0; 16],
        register: [format::start(array.method); 16],
        waiting: [0; 16],
        tag: [0; MOST_TAGS],
    }
}

// Begins a scan: clears the work buffer, and gives a state with nothing taken; zeros throughout where it is refused.
pub fn start(array: Array, stripe: u64, work: &mut [u8]) -> Taken
    ensures refusal_value { told result.answer ≡ start_refusal array stripe (length work.old) }
    ensures state_value { result.state ≡ start_state array stripe (length work.old) }
    ensures work_after { work.new ≡ start_work array stripe work.old }
{
    let answer = check_start(array, stripe, work.len());
    if answer.is_err() {
        let state = empty(layout::no_array(), 0);
        return Taken { answer, state };
    }
    work.fill(0);
    let state = empty(array, stripe);
    Taken { answer, state }
}
