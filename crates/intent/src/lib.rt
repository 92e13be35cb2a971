// Updates that enter their stripe in a record while they are open, and the recovery of a stripe that was left so; over the entries of a
// record, read, counted, found and written.
#![tactic(auto)]

mod recovering;
mod updating;

ghost use Rattle.std.specs.Prelude.{◌≡◌, ◌+◌, ◌≤◌, ◌<◌, length, take, drop};
ghost use Rattle.tag.specs.Numbers.{number_of};
ghost use Rattle.verdict.specs.Verdicts.{lowest};
ghost use Rattle.intent.specs.Records.{entries, those, many, written, entry_fits, entries_fit};

pub use recovering::recover;
pub use updating::update;

// What a recovery says: the stripe is not entered; its parity was made from its data members and its entry struck out; or it was left as it
// is, and this is the lowest data member that is bad or unchecked.
#[derive(Clone, Copy, Debug, PartialEq, Eq)]
pub enum Recovery {
    NotEntered,
    Recovered,
    Left(usize),
}

// The bytes of an entry, and of a record of 64 entries.
const BYTES: usize = 8;

const LENGTH: usize = 512;

// The number in the eight bytes from a place on, the highest first.
fn entry_at(log: &[u8], at: usize) -> u64
    requires { at + 8 ≤ length log.now }
    ensures { result ≡ number_of (take 8 (drop at log.now)) }
{
    u64::from_be_bytes([
        log[at],
        log[at + 1],
        log[at + 2],
        log[at + 3],
        log[at + 4],
        log[at + 5],
        log[at + 6],
        log[at + 7],
    ])
}

// All entries of a record.
fn entries_of(log: &[u8; LENGTH]) -> [u64; 64]
    ensures { result ≡ entries log.now }
{
    std::array::from_fn(|i| entry_at(log, BYTES * i))
}

// How many entries are this number.
fn many(entries: &[u64], number: u64) -> usize
    ensures { result ≡ many number entries.now }
{
    let mut count = 0;
    for i in 0..entries.len() {
        if entries[i] == number {
            count += 1;
        }
    }
    count
}

// The place of the first entry that is this number, or the number of entries.
fn first(entries: &[u64], number: u64) -> usize
    ensures { result ≡ lowest (those number entries.now) }
{
    entries
        .iter()
        .position(|entry| *entry == number)
        .unwrap_or(entries.len())
}

// Whether an entry is free, or names one of so many stripes that no other entry names.
fn entry_fits(entries: &[u64], stripes: u64, entry: u64) -> bool
    ensures { result ≡ entry_fits stripes entries.now entry }
{
    if entry == 0 {
        return true;
    }
    if stripes < entry {
        return false;
    }
    many(entries, entry) == 1
}

// Whether every entry does.
fn entries_fit(entries: &[u64], stripes: u64) -> bool
    ensures { result ≡ entries_fit stripes entries.now }
{
    entries
        .iter()
        .all(|entry| entry_fits(entries, stripes, *entry))
}

// Makes one number of the first entry that is another.
fn rewrite(log: &mut [u8; LENGTH], old: u64, new: u64)
    requires { 0 < many old (entries log.old) }
    ensures { log.new ≡ written old new log.old }
{
    let place = first(&entries_of(log), old);
    copy::put(log, BYTES * place, &new.to_be_bytes());
}
