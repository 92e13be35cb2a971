// The full scrub of a stripe.
ghost use Rattle.std.specs.Prelude.{◌≡◌, ◌*◌, ◌≤◌, length, take, Ok};
ghost use Rattle.refusal.specs.Refusals.{told};
ghost use Rattle.format.specs.Methods.{format_of};
ghost use Rattle.stripe.specs.Stripes.{others_data, stored_guards, left_of};
ghost use Rattle.verdict.specs.Verdicts.{lowest, nonzero, scrubbed_numbers};
ghost use Rattle.stripe.specs.Verdicts.{scrub_refusal, scrub_numbers};
ghost use Rattle.stripe.specs.Steps.{standings};

use crate::{Held, Stripe};
use format::PIECE;
use layout::Array;
use refusal::Refusal;
use verdict::Verdict;

// How the members stand, in member order from the front.
fn standings(held: &Held) -> [u8; 16]
    ensures { take held.now.stripe.array.members result ≡ standings held.now.stripe.array held.now.stripe.number held.now.bytes.now }
{
    let stripe = held.stripe;
    let guards = held.guards();
    let mut standing = [0u8; 16];
    for member in 0..stripe.array.members {
        let found = crate::stored(stripe.array.method, held.bytes, member);
        let how = stripe.standing_by(member, found, guards[member]);
        standing[member] = how;
    }
    standing
}

// Whether a stripe can be scrubbed: whether it is the array's, then whether the stripe in memory has its length.
pub fn check_scrub(array: Array, stripe: u64, length: usize) -> Result<(), Refusal>
    ensures { told result ≡ scrub_refusal array stripe length }
{
    layout::check_stripe(array, stripe)?;
    if length != crate::block_at(array.method, array.members) {
        return Err(Refusal::Length);
    }
    Ok(())
}

// What the guards in the tags combine to, where the parity carries the data members'.
fn guards_left(method: u8, bytes: &[u8], members: usize) -> u64
    requires { (format_of method).block_length * members ≤ length bytes.now }
    ensures { result ≡ left_of (format_of method) (stored_guards (format_of method) members bytes.now) }
{
    if format::carries(method) {
        return crate::stored_combined(method, bytes, members, members);
    }
    0
}

// The first place where the members' data do not combine to zero, or their length where there is none, looked for piece by piece.
// Stays: a number and no Option, since `verdict::judge_at` takes a place, and their length where there is none.
fn first_torn(method: u8, bytes: &[u8], members: usize) -> usize
    requires { (format_of method).block_length * members ≤ length bytes.now }
    ensures { result ≡ lowest (nonzero (others_data (format_of method) members members bytes.now)) }
{
    let data = format::data_length(method);
    let mut piece = [0u8; PIECE];
    for k in 0..data / PIECE {
        let from = k * PIECE;
        crate::combined(method, bytes, members, members, from, &mut piece, 0);
        let place = verdict::first_nonzero(&piece);
        if place < PIECE {
            return from + place;
        }
    }
    data
}

// The verdict of a stripe.
fn judged(held: &Held) -> Verdict
    ensures { scrubbed_numbers (Ok result) ≡ scrub_numbers held.now.stripe.array held.now.stripe.number held.now.bytes.now }
{
    let members = held.stripe.array.members;
    let method = held.stripe.array.method;
    let standing = standings(held);
    let place = first_torn(method, held.bytes, members);
    let left = guards_left(method, held.bytes, members);
    verdict::judge_at(
        &standing[0..members],
        place,
        format::data_length(method),
        left,
    )
}

// The full scrub of a stripe in memory.
pub fn scrub(array: Array, stripe: u64, bytes: &[u8]) -> Result<Verdict, Refusal>
    ensures { scrubbed_numbers result ≡ scrub_numbers array stripe bytes.now }
{
    check_scrub(array, stripe, bytes.len())?;
    let stripe = Stripe::at(array, stripe);
    Ok(judged(&Held { stripe, bytes }))
}
