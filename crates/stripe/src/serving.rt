// A verified read of one block.
ghost use Rattle.std.specs.Prelude.{◌≡◌, ◌+◌, ◌*◌, ◌≤◌, ◌<◌, length, [], ◌∷◌, true, cond};
ghost use Rattle.layout.specs.Answers.{answer};
ghost use Rattle.tag.specs.Blocks.{format_at};
ghost use Rattle.tag.specs.Tags.{standing_at, kind_of};
ghost use Rattle.format.specs.Methods.{format_of};
ghost use Rattle.stripe.specs.Stripes.{block_of, others_data, recoverable};
ghost use Rattle.stripe.specs.Jobs.{serve_refusal, served_data, unless_refused, read_numbers, reading_numbers, read_out};
ghost use Rattle.stripe.specs.Steps.{fitting};

use crate::{Held, Reading, Stripe, block_at, combined};
use copy::put;
use format::PIECE;
use layout::Array;
use refusal::Refusal;
use tag::UNCHECKED;

// Puts out the combined data of all members but `skip`, piece by piece.
fn combined_into(method: u8, bytes: &[u8], members: usize, skip: usize, out: &mut [u8])
    requires members_in_bounds { (format_of method).block_length * members ≤ length bytes.now }
    requires out_len { length out.old ≡ (format_of method).data_length }
    ensures { out.new ≡ others_data (format_of method) members skip bytes.now }
{
    for k in 0..out.len() / PIECE {
        let from = k * PIECE;
        combined(method, bytes, members, skip, from, out, from);
    }
}

// Puts out the data made again for a member, where the parity carries the data members' guards and they fit; else nothing. Says whether
// they do.
fn carried_into(held: &Held, member: usize, out: &mut [u8]) -> bool
    requires out_len { length out.old ≡ (format_at held.now.stripe.array).data_length }
    requires carries { (format_at held.now.stripe.array).carries ≡ true }
    ensures value { result ≡ fitting held.now.stripe.array held.now.stripe.number member held.now.bytes.now }
    ensures out_after { out.new ≡ cond (fitting held.now.stripe.array held.now.stripe.number member held.now.bytes.now) (others_data (format_at held.now.stripe.array) held.now.stripe.array.members member held.now.bytes.now) out.old }
{
    let mut piece = [0u8; PIECE];
    if held.made_piece(member, &mut piece).is_none() {
        return false;
    }
    put(out, 0, &piece);
    true
}

// Puts out the data made again for a member, where the others serve for it; else nothing. Says whether they do.
fn made_into(held: &Held, member: usize, out: &mut [u8]) -> bool
    requires { length out.old ≡ (format_at held.now.stripe.array).data_length }
    ensures value { result ≡ recoverable held.now.stripe.array held.now.stripe.number member held.now.bytes.now }
    ensures out_after { out.new ≡ cond (recoverable held.now.stripe.array held.now.stripe.number member held.now.bytes.now) (others_data (format_at held.now.stripe.array) held.now.stripe.array.members member held.now.bytes.now) out.old }
{
    if !held.others_good(member, held.guards()) {
        return false;
    }
    let method = held.stripe.array.method;
    if format::carries(method) {
        return carried_into(held, member, out);
    }
    combined_into(method, held.bytes, held.stripe.array.members, member, out);
    true
}

// The data of the block at a place: its own unless it is bad, else those of the others where they serve for it.
fn serve(stripe: Stripe, member: usize, bytes: &[u8], out: &mut [u8]) -> Result<Reading, Refusal>
    requires { member < stripe.array.members }
    ensures result_value { reading_numbers result ≡ answer (serve_refusal stripe.array stripe.number member bytes.now (length out.old)) (kind_of (standing_at stripe.array stripe.number member (block_of (format_at stripe.array) bytes.now member)) ∷ []) }
    ensures out_after { out.new ≡ unless_refused (serve_refusal stripe.array stripe.number member bytes.now (length out.old)) (served_data stripe.array stripe.number member bytes.now) out.old }
{
    let method = stripe.array.method;
    if bytes.len() != block_at(method, stripe.array.members) {
        return Err(Refusal::Length);
    }
    if out.len() != format::data_length(method) {
        return Err(Refusal::Length);
    }
    let held = Held { stripe, bytes };
    let standing = held.standing(member);
    if !tag::is_bad(standing) {
        let from = block_at(method, member);
        let end = from + format::data_length(method);
        put(out, 0, &bytes[from..end]);
        if standing == UNCHECKED {
            return Ok(Reading::Unchecked);
        }
        return Ok(Reading::Stored);
    }
    if !made_into(&held, member, out) {
        return Err(Refusal::Bad);
    }
    Ok(Reading::Rebuilt)
}

// Reads a block of the array out of its stripe.
pub fn read(array: Array, block: u64, bytes: &[u8], out: &mut [u8]) -> Result<Reading, Refusal>
    ensures result_value { reading_numbers result ≡ read_numbers array block bytes.now (length out.old) }
    ensures out_after { out.new ≡ read_out array block bytes.now out.old }
{
    let place = layout::place(array, block)?;
    serve(Stripe::at(array, place.stripe), place.member, bytes, out)
}
