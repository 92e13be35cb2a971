// The tag of a block: what is due at a place, and a block checked against it.
#![tactic(auto)]

ghost use Rattle.std.specs.Prelude.{Ok, ◌≡◌, ◌∷◌, ◌++◌, ◌+◌, ◌*◌, ◌/◌, ◌%◌, ◌^◌, ◌≤◌, cond, eqb, length, take, drop};
ghost use Rattle.std.proofs.lemmas.List.Edits.{sets};
ghost use Rattle.format.specs.Methods.{format_of};
ghost use Rattle.tag.specs.Numbers.{bytes_of, number_of};
ghost use Rattle.refusal.specs.Refusals.{told as told_refusal};
ghost use Rattle.tag.specs.Tags.{bytes_by, due_to, faults, exempt, standing, is_bad, told, check_refusal, check_numbers, checked_numbers};

use copy::put;
use layout::{Array, Owned};
use refusal::{Refusal, demand};

// What marks a parity block in its application tag, above the volume.
const PARITY: u16 = 0x8000;

// What the two bytes of an application tag are in a block that is not to be checked.
const EXEMPT: u64 = 0xFFFF;

// How a block stands at its place: good, unchecked, and any other number bad, by the fields that are not those due.
// Stays: `is_bad` and `verdict::judge` promise something of every number that a member may stand as; a type of its own would be narrower.
pub const GOOD: u8 = 0;

pub const UNCHECKED: u8 = 8;

const GUARD: u8 = 4;

const APPLICATION: u8 = 2;

const REFERENCE: u8 = 1;

// The three fields of a tag.
#[derive(Clone, Copy, Debug, PartialEq, Eq)]
pub struct Fields {
    pub guard: u64,
    pub application: u64,
    pub reference: u64,
}

// What a check of a block says: its fields as found and as expected; or that it is not to be checked.
#[derive(Clone, Copy, Debug, PartialEq, Eq)]
pub enum Checked {
    Unchecked,
    Told { found: Fields, expected: Fields },
}

// Two bytes as a number: the highest first.
pub fn pair(high: u8, low: u8) -> u16
    ensures { result ≡ high * 256 + low }
{
    u16::from_be_bytes([high, low])
}

// The number that some bytes are, the highest first; of more than eight bytes, what is left of it within sixty-four bits.
pub fn number_of(bytes: &[u8]) -> u64
    ensures { result ≡ number_of bytes.now % 2 ^ 64 }
{
    bytes.iter().fold(0, |number: u64, byte| {
        number.wrapping_mul(256).wrapping_add(u64::from(*byte))
    })
}

// The number in `count` bytes from a place on.
fn number_at(bytes: &[u8], at: usize, count: usize) -> u64
    requires count_in_bounds { at + count ≤ length bytes.now }
    requires count_bound { count ≤ 8 }
    ensures { result ≡ number_of (take count (drop at bytes.now)) }
{
    number_of(&bytes[at..at + count])
}

// Writes the low `count` bytes of a number from a place on, the highest first.
fn put_number(bytes: &mut [u8], at: usize, count: usize, number: u64)
    requires count_bound { count ≤ 8 }
    ensures { bytes.new ≡ sets bytes.old at (bytes_of count number) }
{
    let eight = number.to_be_bytes();
    put(bytes, at, &eight[8 - count..]);
}

// The eight bytes of a tag whose quarter is two bytes, as most are: made whole, so that they are stored at once.
fn eight_bytes(fields: Fields) -> [u8; 8]
    ensures { result ≡ bytes_of 2 fields.guard ++ bytes_of 2 fields.application ++ bytes_of 4 fields.reference }
{
    let guard = fields.guard.to_be_bytes();
    let application = fields.application.to_be_bytes();
    let reference = fields.reference.to_be_bytes();
    [
        guard[6],
        guard[7],
        application[6],
        application[7],
        reference[4],
        reference[5],
        reference[6],
        reference[7],
    ]
}

// The fields of a tag that lies at a place, by a quarter of its length.
fn fields_by(bytes: &[u8], at: usize, quarter: usize) -> Fields
    requires quarter_in_bounds { at + 4 * quarter ≤ length bytes.now }
    requires quarter_bound { quarter ≤ 4 }
    ensures guard_value { result.guard ≡ number_of (take quarter (drop at bytes.now)) }
    ensures application_value { result.application ≡ number_of (take quarter (drop (at + quarter) bytes.now)) }
    ensures reference_value { result.reference ≡ number_of (take (2 * quarter) (drop (at + 2 * quarter) bytes.now)) }
{
    let second = at + quarter;
    let half = 2 * quarter;
    let third = at + half;
    Fields {
        guard: number_at(bytes, at, quarter),
        application: number_at(bytes, second, quarter),
        reference: number_at(bytes, third, half),
    }
}

// The same. Most tags have a quarter of two bytes, which then is a number that the compiler knows.
// Stays: measured without the arm for two bytes, by methods 1 and 2 the fields take 6.5 ns in place of 4.4.
pub fn fields_at(bytes: &[u8], at: usize, quarter: usize) -> Fields
    requires quarter_in_bounds { at + 4 * quarter ≤ length bytes.now }
    requires quarter_bound { quarter ≤ 4 }
    ensures guard_value { result.guard ≡ number_of (take quarter (drop at bytes.now)) }
    ensures application_value { result.application ≡ number_of (take quarter (drop (at + quarter) bytes.now)) }
    ensures reference_value { result.reference ≡ number_of (take (2 * quarter) (drop (at + 2 * quarter) bytes.now)) }
{
    if quarter == 2 {
        return fields_by(bytes, at, 2);
    }
    fields_by(bytes, at, quarter)
}

// Writes a tag where it has room, by a quarter of its length, each field with its highest byte first.
// Stays: it and `fields_at` are public, and docs/PROOFS.md tells what they ask; that a tag has room is no type of its own.
pub fn write(fields: Fields, bytes: &mut [u8], at: usize, quarter: usize)
    requires quarter_in_bounds { at + 4 * quarter ≤ length bytes.old }
    requires quarter_bound { quarter ≤ 4 }
    ensures { bytes.new ≡ sets bytes.old at (bytes_by quarter fields) }
{
    let guard = fields.guard;
    let application = fields.application;
    let reference = fields.reference;
    if quarter == 2 {
        let tag = eight_bytes(fields);
        put(bytes, at, &tag);
        return;
    }
    let second = at + quarter;
    let half = 2 * quarter;
    let third = at + half;
    put_number(bytes, at, quarter, guard);
    put_number(bytes, second, quarter, application);
    put_number(bytes, third, half, reference);
}

// The fields due by what lies at a place, to a parity with one guard and to every other block with another; zeros where there is no such place.
pub fn due_to(array: Array, owned: Option<Owned>, parity: u64, own: u64) -> Fields
    ensures { result ≡ due_to array parity own owned }
{
    let volume = u16::from(array.volume);
    let method = array.method;
    match owned {
        None => Fields {
            guard: 0,
            application: 0,
            reference: 0,
        },
        Some(Owned::Parity { lowest }) => {
            let application = format::scaled(method, PARITY + volume);
            let reference = format::reference(method, lowest);
            Fields {
                guard: parity,
                application,
                reference,
            }
        }
        Some(Owned::Data { block }) => {
            let application = format::scaled(method, volume);
            let reference = format::reference(method, block);
            Fields {
                guard: own,
                application,
                reference,
            }
        }
    }
}

// The guard due to a parity: the one found, where parities carry the data members' guards and it is not held against its own data; else that
// of its data.
fn parity_guard(method: u8, found: u64, own: u64) -> u64
    ensures { result ≡ cond (format_of method).carries found own }
{
    if format::carries(method) {
        return found;
    }
    own
}

// The fields due by what lies at a place where these were found, to data of this guard. A carried guard is due as it was found.
pub fn expected_to(array: Array, owned: Option<Owned>, found: Fields, own: u32) -> Fields
    ensures { result ≡ due_to array (cond (format_of array.method).carries found.guard own) own owned }
{
    let guard = u64::from(own);
    let parity = parity_guard(array.method, found.guard, guard);
    due_to(array, owned, parity, guard)
}

// A number where two differ, 0 where they are the same.
fn unless_same(found: u64, expected: u64, number: u8) -> u8
    ensures upper_bound { result ≤ number }
    ensures value { result ≡ cond (eqb found expected) 0 number }
{
    if found == expected { 0 } else { number }
}

// Which fields of a tag are not those of the one due.
#[tactic(auto, unfolding(crate::specs::Tags::faults))]
pub fn faults(found: Fields, expected: Fields) -> u8
    ensures { result ≡ faults found expected }
{
    let guard = unless_same(found.guard, expected.guard, GUARD);
    let application = unless_same(found.application, expected.application, APPLICATION);
    let reference = unless_same(found.reference, expected.reference, REFERENCE);
    guard + application + reference
}

// Whether a block with this tag is not to be checked.
#[tactic(auto, unfolding(crate::specs::Tags::exempt))]
fn is_exempt(method: u8, tag: Fields) -> bool
    ensures { result ≡ exempt (format_of method) tag }
{
    format::unscaled(method, tag.application) == EXEMPT
}

// How a block with this tag stands where that one is due.
#[tactic(auto, unfolding(crate::specs::Tags::standing))]
pub fn standing(method: u8, found: Fields, expected: Fields) -> u8
    ensures { result ≡ standing (format_of method) found expected }
{
    if is_exempt(method, found) {
        return UNCHECKED;
    }
    faults(found, expected)
}

// Whether a block that stands so is bad.
pub fn is_bad(how: u8) -> bool
    ensures { result ≡ is_bad how }
{
    GOOD < how && how < UNCHECKED
}

// What a check says of a block with this tag where that one is due.
fn said(method: u8, found: Fields, expected: Fields) -> Checked
    ensures { checked_numbers (Ok result) ≡ 1 ∷ 0 ∷ told (format_of method) found expected }
{
    if is_exempt(method, found) {
        return Checked::Unchecked;
    }
    Checked::Told { found, expected }
}

// Whether a check is taken: its place is one, and the block has its length.
fn check_given(array: Array, stripe: u64, member: usize, length: usize) -> Result<(), Refusal>
    ensures { told_refusal result ≡ check_refusal array stripe member length }
{
    layout::check_place(array, stripe, member)?;
    demand(
        length == format::block_length(array.method),
        Refusal::Length,
    )
}

// A block checked against the tag due at its place.
pub fn check(array: Array, stripe: u64, member: usize, block: &[u8]) -> Result<Checked, Refusal>
    ensures { checked_numbers result ≡ check_numbers array stripe member block.now }
{
    check_given(array, stripe, member, block.len())?;
    let method = array.method;
    let data = format::data_length(method);
    let guard = format::guard(method, &block[0..data]);
    let found = fields_at(block, data, format::quarter(method));
    let owned = layout::owner_beside(array.row, layout::seat_of(array, stripe), member);
    Ok(said(method, found, expected_to(array, Some(owned), found, guard)))
}
