// An update of a block that is entered in the record while it is open.
ghost use Rattle.std.specs.Prelude.{◌≡◌, ◌<◌, length};
ghost use Rattle.refusal.specs.Refusals.{told};
ghost use Rattle.layout.specs.Arrays.{stripe_refusal, block_refusal};
ghost use Rattle.layout.specs.Places.{stripe_of};
ghost use Rattle.intent.specs.Records.{entries, many, entry_refusal, log_refusal};
ghost use Rattle.intent.specs.Calls.{open_refusal, recorded_refusal, log_after, recorded_log, recorded_bytes};
ghost use Rattle.layout.specs.Answers.{after};

use crate::{LENGTH, entries_fit, entries_of, many, rewrite};
use layout::Array;
use refusal::{Refusal, demand};

// Whether a record refuses the update of a stripe: it does not fit the array, no entry is free, the stripe is entered already.
fn check_entry(array: Array, stripe: u64, log: &[u8; LENGTH]) -> Result<(), Refusal>
    requires { stripe < array.stripes }
    ensures { told result ≡ after (log_refusal array log.now) (entry_refusal stripe log.now) }
{
    let entries = entries_of(log);
    demand(entries_fit(&entries, array.stripes), Refusal::Record)?;
    demand(many(&entries, 0) != 0, Refusal::Full)?;
    demand(many(&entries, stripe + 1) == 0, Refusal::Entered)
}

// Whether an update is refused, as far as lengths and record decide it.
fn check_open(
    array: Array,
    stripe: u64,
    content: usize,
    length: usize,
    log: &[u8; LENGTH],
) -> Result<(), Refusal>
    requires { stripe_refusal array stripe ≡ 0 }
    ensures { told result ≡ open_refusal array stripe content length log.now }
{
    stripe::check_scrub(array, stripe, length)?;
    demand(
        content == format::data_length(array.method),
        Refusal::Length,
    )?;
    check_entry(array, stripe, log)
}

// The stores of an update that go to the record: a stripe is entered, and struck out again.
fn write_record(stripe: u64, log: &mut [u8; LENGTH], stores: usize)
    requires stripe_bound { stripe < 18446744073709551615 }
    requires log_value { entry_refusal stripe log.old ≡ 0 }
    ensures { log.new ≡ log_after stripe log.old stores }
{
    if stores == 0 {
        return;
    }
    rewrite(log, 0, stripe + 1);
    if stores < 4 {
        return;
    }
    rewrite(log, stripe + 1, 0);
}

// An update of a block whose stripe is known: the block and the parity first, since that decides the last refusal, then the record.
// Stays: a struct of bytes and log, both lent as `&mut`, would be made for this one call; check_open and write_record take log without bytes.
fn update_in(
    array: Array,
    block: u64,
    stripe: u64,
    content: &[u8],
    bytes: &mut [u8],
    log: &mut [u8; LENGTH],
    stores: usize,
) -> Result<(), Refusal>
    requires block_value { block_refusal array block ≡ 0 }
    requires stripe_value { stripe ≡ stripe_of array block }
    ensures value { told result ≡ recorded_refusal array block (length content.now) bytes.old log.old }
    ensures bytes_after { bytes.new ≡ recorded_bytes array block content.now bytes.old log.old stores }
    ensures log_after { log.new ≡ recorded_log array block content.now bytes.old log.old stores }
{
    check_open(array, stripe, content.len(), bytes.len(), log)?;
    stripe::update_in_part(array, block, content, bytes, stores.saturating_sub(1))?;
    write_record(stripe, log, stores);
    Ok(())
}

// Updates a block of the array, with its stripe entered in the record meanwhile, as far as so many of four stores go: enter, data block, parity
// block, strike out.
pub fn update(
    array: Array,
    block: u64,
    content: &[u8],
    bytes: &mut [u8],
    log: &mut [u8],
    stores: usize,
) -> Result<(), Refusal>
    ensures value { told result ≡ recorded_refusal array block (length content.now) bytes.old log.old }
    ensures bytes_after { bytes.new ≡ recorded_bytes array block content.now bytes.old log.old stores }
    ensures log_after { log.new ≡ recorded_log array block content.now bytes.old log.old stores }
{
    let place = layout::place(array, block)?;
    match log.as_mut_array::<LENGTH>() {
        Some(record) => update_in(array, block, place.stripe, content, bytes, record, stores),
        None => Err(Refusal::Length),
    }
}
