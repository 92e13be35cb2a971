// Where the blocks of an array lie: from a block number to its stripe and member, and back.
// A call decides first whether it refuses; only then does it compute.
#![tactic(auto)]

ghost use Rattle.std.specs.Prelude.{◌≡◌, ◌-◌, ◌/◌, ◌%◌, ◌<◌, ◌≤◌, not};
ghost use Rattle.refusal.specs.Refusals.{told};
ghost use Rattle.layout.specs.Answers.{refuse, or_past};
ghost use Rattle.layout.specs.Arrays.{array_of, no_array, within, row_fit, array_refusal, data_members, stripe_refusal, block_refusal};
ghost use Rattle.layout.specs.Places.{
  parity_member,
  lowest_cut,
  stripe_of,
  index_of,
  seat_of,
  member_at,
  index_beside,
  placed_numbers,
  place_numbers,
  owned_numbers,
  beside_numbers,
  owner_numbers,
  owner_refusal,
};

use refusal::{Refusal, demand};
use std::num::wrapping_add_u64;

// The array's numbers: members n, stripes S, the volume that stands in every application tag, the guard method, and the row length c.
#[derive(Clone, Copy, Debug, PartialEq, Eq)]
pub struct Array {
    pub members: usize,
    pub stripes: u64,
    pub volume: u8,
    pub method: u8,
    pub row: u8,
}

// The array with these numbers.
pub fn array_of(members: usize, stripes: u64, volume: u8, method: u8, row: u8) -> Array
    ensures { result ≡ array_of members stripes volume method row }
{
    Array {
        members,
        stripes,
        volume,
        method,
        row,
    }
}

// No array: zeros throughout.
pub fn no_array() -> Array
    ensures { result ≡ no_array }
{
    array_of(0, 0, 0, 0, 0)
}

// Where a block lies.
#[derive(Clone, Copy, Debug, PartialEq, Eq)]
pub struct Placed {
    pub stripe: u64,
    pub member: usize,
}

// What a stripe is found by: the member of its parity, and its lowest block. To find it takes divisions, so it is found once a stripe.
#[derive(Clone, Copy, Debug, PartialEq, Eq)]
pub struct Seat {
    pub parity: usize,
    pub lowest: u64,
}

// What lies at a place: a block, or the parity of its stripe, which is named by the stripe's lowest block.
#[derive(Clone, Copy, Debug, PartialEq, Eq)]
pub enum Owned {
    Parity { lowest: u64 },
    Data { block: u64 },
}

const FEWEST_MEMBERS: u64 = 3;

const MOST_MEMBERS: u64 = 16;

const MOST_STRIPES: u64 = 68719476736;

const MOST_METHODS: u64 = 3;

const LONGEST_ROW: u64 = 128;

// More rows of stripes than any array has.
const ROWS: u64 = 1099511627776;

// x lies between low and high, both included.
fn is_within(low: u64, high: u64, x: u64) -> bool
    ensures { result ≡ within low high x }
{
    low <= x && x <= high
}

// A quotient and a rest that take any divisor: by 0 they are 0 and the number itself. By 1, as most often, nothing is divided.
fn over(x: u64, m: u64) -> u64
    ensures { result ≡ x / m }
{
    if m == 1 {
        return x;
    }
    if m == 0 { 0 } else { x / m }
}

fn rest(x: u64, m: u64) -> u64
    ensures { result ≡ x % m }
{
    if m == 1 {
        return 0;
    }
    if m == 0 { x } else { x % m }
}

// The row length is one of 1, 2, 4 .. 128 and divides the number of stripes.
fn row_fits(array: Array) -> bool
    ensures { result ≡ row_fit array }
{
    let row = array.row as u64;
    rest(LONGEST_ROW, row) == 0 && rest(array.stripes, row) == 0
}

// Whether the array's own numbers are in range, tested in the order of the refusals.
pub fn check_array(array: Array) -> Result<(), Refusal>
    ensures { told result ≡ array_refusal array }
{
    let members = is_within(FEWEST_MEMBERS, MOST_MEMBERS, array.members as u64);
    let stripes = is_within(1, MOST_STRIPES, array.stripes);
    let method = is_within(1, MOST_METHODS, array.method as u64);
    let row = row_fits(array);
    demand(members, Refusal::Members)?;
    demand(stripes, Refusal::Stripes)?;
    demand(method, Refusal::Method)?;
    demand(row, Refusal::Row)
}

// Whether a stripe that is handed in is the array's.
pub fn check_stripe(array: Array, stripe: u64) -> Result<(), Refusal>
    ensures { told result ≡ stripe_refusal array stripe }
{
    check_array(array)?;
    demand(stripe < array.stripes, Refusal::Place)
}

// Whether a block number that is handed in is the array's.
pub fn check_block(array: Array, block: u64) -> Result<(), Refusal>
    ensures { told result ≡ block_refusal array block }
{
    check_array(array)?;
    demand(block < array.stripes * data_members(array), Refusal::Place)
}

// Whether a place that is handed in, a stripe and a member, is the array's.
pub fn check_place(array: Array, stripe: u64, member: usize) -> Result<(), Refusal>
    ensures { told result ≡ owner_refusal array stripe member }
{
    check_stripe(array, stripe)?;
    demand(member < array.members, Refusal::Member)
}

// How many members of a stripe hold data: d.
fn data_members(array: Array) -> u64
    ensures { result ≡ data_members array }
{
    array.members.saturating_sub(1) as u64
}

// The member that holds the parity of a stripe. With no members at all, the rest by 0 is the row itself.
pub fn parity_member(array: Array, stripe: u64) -> usize
    ensures { result ≡ parity_member array stripe }
{
    rest(over(stripe, array.row as u64), array.members as u64) as usize
}

// The member at a data index: the indices step over the parity member.
fn member_at(array: Array, stripe: u64, index: usize) -> usize
    requires { index < array.members }
    ensures { result ≡ member_at array stripe index }
{
    if index < parity_member(array, stripe) {
        index
    } else {
        index + 1
    }
}

// The data index at a member, where another holds the parity.
pub fn index_beside(parity: usize, member: usize) -> usize
    ensures { result ≡ index_beside parity member }
{
    if member < parity {
        member
    } else {
        member.saturating_sub(1)
    }
}

// The lowest block of a stripe; of numbers that no array has, what is left of it within sixty-four bits.
fn lowest_block(array: Array, stripe: u64) -> u64
    ensures { result ≡ lowest_cut array stripe }
{
    let row = array.row as u64;
    over(stripe, row) % ROWS * (data_members(array) % MOST_MEMBERS) * row + rest(stripe, row)
}

// The stripe of a block, and its data index there.
fn stripe_of(array: Array, block: u64) -> u64
    requires { block_refusal array block ≡ 0 }
    ensures { result ≡ stripe_of array block }
{
    let row = array.row as u64;
    over(over(block, row), data_members(array)) * row + rest(block, row)
}

fn index_of(array: Array, block: u64) -> usize
    ensures { result ≡ index_of array block }
{
    rest(over(block, array.row as u64), data_members(array)) as usize
}

// The place of a block.
pub fn place(array: Array, block: u64) -> Result<Placed, Refusal>
    ensures { placed_numbers result ≡ place_numbers array block }
{
    check_block(array, block)?;
    let stripe = stripe_of(array, block);
    let index = index_of(array, block);
    let member = member_at(array, stripe, index);
    Ok(Placed { stripe, member })
}

// What a stripe is found by.
pub fn seat_of(array: Array, stripe: u64) -> Seat
    ensures { result ≡ seat_of array stripe }
{
    Seat {
        parity: parity_member(array, stripe),
        lowest: lowest_block(array, stripe),
    }
}

// What lies on a member of a stripe, by the row length and what the stripe is found by.
pub fn owner_beside(row: u8, seat: Seat, member: usize) -> Owned
    ensures { owned_numbers (Ok result) ≡ beside_numbers row seat member }
{
    let parity = seat.parity;
    let lowest = seat.lowest;
    if member == parity {
        return Owned::Parity { lowest };
    }
    let index = index_beside(parity, member) % 256;
    let block = wrapping_add_u64(lowest, index as u64 * row as u64);
    Owned::Data { block }
}

// What lies at a place.
pub fn owner(array: Array, stripe: u64, member: usize) -> Result<Owned, Refusal>
    ensures { owned_numbers result ≡ owner_numbers array stripe member }
{
    check_place(array, stripe, member)?;
    Ok(owner_beside(array.row, seat_of(array, stripe), member))
}
