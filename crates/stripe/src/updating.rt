// A block's data replaced in its stripe.
ghost use Rattle.std.specs.Prelude.{◌≡◌, ◌+◌, ◌*◌, ◌≤◌, ◌<◌, length, ◌≢◌, false};
ghost use Rattle.std.proofs.lemmas.List.Edits.{sets};
ghost use Rattle.refusal.specs.Refusals.{told};
ghost use Rattle.stripe.specs.Tables.{span};
ghost use Rattle.layout.specs.Places.{is_parity};
ghost use Rattle.std.specs.Int.Bits.{bit_xor};
ghost use Rattle.stripe.specs.Stripes.{stripe_length, block_of, stored_guard};
ghost use Rattle.stripe.specs.Jobs.{guards_agree, replace_refusal, replaced, unless_refused, update_refusal, update_bytes};
ghost use Rattle.stripe.specs.InPart.{part_bytes};
ghost use Rattle.stripe.specs.Steps.{own_written, replaced_in_part};
ghost use Rattle.format.specs.Formats.{piece_length};
ghost use Rattle.format.specs.Methods.{format_of};
ghost use Rattle.tag.specs.Blocks.{format_at, data_of};
ghost use Rattle.xor.specs.Xors.{xors};

use crate::{Held, Stripe, block_at, stored_combined, stored_guard};
use copy::put;
use format::PIECE;
use layout::Array;
use refusal::Refusal;

// Whether the guards in the tags of all members, as they stand, combine to what those of a right stripe do.
fn guards_agree(held: &Held) -> bool
    ensures { result ≡ guards_agree held.now.stripe.array held.now.bytes.now }
{
    let members = held.stripe.array.members;
    let method = held.stripe.array.method;
    let combined = stored_combined(method, held.bytes, members, members);
    combined == u64::from(format::settled(method, members))
}

// Whether a block can be replaced: the lengths, then whether the block and the parity are good, and whether the stripe's guards agree.
fn check_replace(stripe: Stripe, member: usize, content: usize, bytes: &[u8]) -> Result<(), Refusal>
    requires { member < stripe.array.members }
    ensures { told result ≡ replace_refusal stripe.array stripe.number member content bytes.now }
{
    let method = stripe.array.method;
    if bytes.len() != block_at(method, stripe.array.members) {
        return Err(Refusal::Length);
    }
    if content != format::data_length(method) {
        return Err(Refusal::Length);
    }
    let held = Held { stripe, bytes };
    if !held.is_good(member) {
        return Err(Refusal::Bad);
    }
    if !held.is_good(stripe.seat.parity) {
        return Err(Refusal::Bad);
    }
    if !guards_agree(&held) {
        return Err(Refusal::Bad);
    }
    Ok(())
}

// A piece of the parity's data, the old one of a member's combined with it, and the new one.
fn moved_piece(
    bytes: &[u8],
    parity: usize,
    old: usize,
    content: &[u8],
    from: usize,
    piece: &mut [u8],
)
    requires piece_length_in_bounds { parity + piece_length ≤ length bytes.now }
    requires piece_length_in_bounds_2 { old + piece_length ≤ length bytes.now }
    requires piece_length_in_bounds_3 { from + piece_length ≤ length content.now }
    requires piece_len { length piece.old ≡ piece_length }
    ensures { piece.new ≡ xors (xors (span parity piece_length bytes.now) (span old piece_length bytes.now)) (span from piece_length content.now) }
{
    let parity_end = parity + PIECE;
    put(piece, 0, &bytes[parity..parity_end]);
    let old_end = old + PIECE;
    xor::xor_into(piece, &bytes[old..old_end]);
    let end = from + PIECE;
    xor::xor_into(piece, &content[from..end]);
}

// The parity's data with a member's old data taken out and the new put in, in their place, piece by piece.
fn move_parity(method: u8, parity: usize, member: usize, content: &[u8], bytes: &mut [u8])
    requires method_in_bounds { (format_of method).block_length * parity + (format_of method).block_length ≤ length bytes.old }
    requires method_in_bounds_2 { (format_of method).block_length * member + (format_of method).block_length ≤ length bytes.old }
    requires content_len { length content.now ≡ (format_of method).data_length }
    requires member_nonzero { member ≢ parity }
    ensures { bytes.new ≡ sets bytes.old ((format_of method).block_length * parity) (xors (xors (data_of (format_of method) (block_of (format_of method) bytes.old parity)) (data_of (format_of method) (block_of (format_of method) bytes.old member))) content.now) }
{
    let to = block_at(method, parity);
    let old = block_at(method, member);
    let mut piece = [0u8; PIECE];
    for k in 0..content.len() / PIECE {
        let from = k * PIECE;
        moved_piece(bytes, to + from, old + from, content, from, &mut piece);
        put(bytes, to + from, &piece);
    }
}

// The guard of the parity that is brought along: the member's old guard taken out, and the new put in. Guards of data combine as the data do,
// and those that are carried are combined so from the start.
fn moved_guard(method: u8, bytes: &[u8], parity: usize, member: usize, data_guard: u64) -> u64
    requires method_in_bounds { (format_of method).block_length * parity + (format_of method).block_length ≤ length bytes.now }
    requires method_in_bounds_2 { (format_of method).block_length * member + (format_of method).block_length ≤ length bytes.now }
    ensures { result ≡ bit_xor (bit_xor (stored_guard (format_of method) (block_of (format_of method) bytes.now parity)) (stored_guard (format_of method) (block_of (format_of method) bytes.now member))) data_guard }
{
    stored_guard(method, bytes, parity) ^ stored_guard(method, bytes, member) ^ data_guard
}

// Replaces the data of the block at a place, and brings the parity along.
// Stays: here and in the other jobs a stripe, a member and the bytes go side by side, as the bytes are lent as `&mut` for one call alone.
fn replace(stripe: Stripe, member: usize, content: &[u8], bytes: &mut [u8])
    requires member_in { member < stripe.array.members }
    requires member_of_data { is_parity stripe.array stripe.number member ≡ false }
    requires taken { replace_refusal stripe.array stripe.number member (length content.now) bytes.old ≡ 0 }
    ensures { bytes.new ≡ replaced stripe.array stripe.number member content.now bytes.old }
{
    let method = stripe.array.method;
    let parity = stripe.seat.parity;
    let data_guard = u64::from(format::guard(method, content));
    let parity_guard = moved_guard(method, bytes, parity, member, data_guard);
    move_parity(method, parity, member, content, bytes);
    stripe.write_tag(parity, parity_guard, bytes);
    stripe.write_block(member, content, data_guard, bytes);
}

// The first of an update's two stores alone: the block with the new data.
fn replace_own(stripe: Stripe, member: usize, content: &[u8], bytes: &mut [u8])
    requires member_in { member < stripe.array.members }
    requires bytes_len { length bytes.old ≡ stripe_length stripe.array }
    requires content_len { length content.now ≡ (format_at stripe.array).data_length }
    ensures { bytes.new ≡ own_written stripe.array stripe.number member content.now bytes.old }
{
    let own_guard = u64::from(format::guard(stripe.array.method, content));
    stripe.write_block(member, content, own_guard, bytes);
}

// Replaces the data of the block at a place as far as so many of the two stores go.
fn replace_in_part(
    stripe: Stripe,
    member: usize,
    content: &[u8],
    bytes: &mut [u8],
    stores: usize,
) -> Result<(), Refusal>
    requires member_in { member < stripe.array.members }
    requires member_of_data { is_parity stripe.array stripe.number member ≡ false }
    ensures value { told result ≡ replace_refusal stripe.array stripe.number member (length content.now) bytes.old }
    ensures bytes_after { bytes.new ≡ unless_refused (replace_refusal stripe.array stripe.number member (length content.now) bytes.old) (replaced_in_part stripe.array stripe.number member content.now bytes.old stores) bytes.old }
{
    check_replace(stripe, member, content.len(), bytes)?;
    match stores {
        0 => {}
        1 => replace_own(stripe, member, content, bytes),
        _ => replace(stripe, member, content, bytes),
    }
    Ok(())
}

// An update cut after so many of its two stores, the block and then the parity; two or more are the whole update.
pub fn update_in_part(
    array: Array,
    block: u64,
    content: &[u8],
    bytes: &mut [u8],
    stores: usize,
) -> Result<(), Refusal>
    ensures value { told result ≡ update_refusal array block (length content.now) bytes.old }
    ensures bytes_after { bytes.new ≡ part_bytes array block content.now bytes.old stores }
{
    let place = layout::place(array, block)?;
    replace_in_part(
        Stripe::at(array, place.stripe),
        place.member,
        content,
        bytes,
        stores,
    )
}

// Updates a block of the array within its stripe.
pub fn update(array: Array, block: u64, content: &[u8], bytes: &mut [u8]) -> Result<(), Refusal>
    ensures value { told result ≡ update_refusal array block (length content.now) bytes.old }
    ensures bytes_after { bytes.new ≡ update_bytes array block content.now bytes.old }
{
    update_in_part(array, block, content, bytes, 2)
}
