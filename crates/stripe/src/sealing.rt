// A whole stripe made from its data.
ghost use Rattle.std.specs.Prelude.{◌≡◌, ◌*◌, ◌≤◌, ◌<◌, length, get_or, cond};
ghost use Rattle.refusal.specs.Refusals.{told};
ghost use Rattle.format.specs.Formats.{guards_of};
ghost use Rattle.format.specs.Methods.{format_of};
ghost use Rattle.tag.specs.Blocks.{format_at};
ghost use Rattle.layout.specs.Arrays.{data_members};
ghost use Rattle.layout.specs.Places.{index_at, is_parity};
ghost use Rattle.stripe.specs.Stripes.{stripe_length};
ghost use Rattle.stripe.specs.Jobs.{with_block, sealed, seal_refusal, seal_bytes};
ghost use Rattle.stripe.specs.Steps.{data_block, data_written};

use crate::{Stripe, block_at, make_data};
use copy::put;
use layout::Array;
use refusal::Refusal;
use verdict::combined_wide;

// Where a member's part of the data begins.
// Stays: one function with `block_at`, by the length of what is counted, would be a bare product and no plainer.
fn data_at(method: u8, index: usize) -> usize
    requires { (format_of method).data_length * index ≤ 18446744073709551615 }
    ensures { result ≡ (format_of method).data_length * index }
{
    format::data_length(method) * index
}

// Whether a stripe can be sealed: whether it is the array's, then the two lengths.
fn check_seal(array: Array, stripe: u64, content: usize, length: usize) -> Result<(), Refusal>
    ensures { told result ≡ seal_refusal array stripe content length }
{
    layout::check_stripe(array, stripe)?;
    let members = array.members;
    let method = array.method;
    if content != data_at(method, members - 1) {
        return Err(Refusal::Length);
    }
    if length != block_at(method, members) {
        return Err(Refusal::Length);
    }
    Ok(())
}

// Writes a member's block from its part of the data, by the guard of that part, and leaves the parity member's alone.
fn write_member(stripe: Stripe, member: usize, content: &[u8], data_guard: u32, bytes: &mut [u8])
    requires member_in { member < stripe.array.members }
    requires content_len { length content.now ≡ (format_at stripe.array).data_length * data_members stripe.array }
    requires bytes_len { length bytes.old ≡ stripe_length stripe.array }
    requires data_guard_value { data_guard ≡ get_or (guards_of (format_at stripe.array) 16 (format_at stripe.array).data_length content.now) (index_at stripe.array stripe.number member) 0 }
    ensures { bytes.new ≡ cond (is_parity stripe.array stripe.number member) bytes.old (with_block (format_at stripe.array) bytes.old member (data_block stripe.array stripe.number content.now member)) }
{
    let parity = stripe.seat.parity;
    if member == parity {
        return;
    }
    let index = layout::index_beside(parity, member);
    let method = stripe.array.method;
    let from = data_at(method, index);
    let end = from + format::data_length(method);
    // Stays: `write_block` by its two steps; through the call, measured, a seal took 2.5 to 6 in a hundred longer.
    put(bytes, block_at(method, member), &content[from..end]);
    stripe.write_tag(member, u64::from(data_guard), bytes);
}

// Writes the blocks of all data members, by the guards of the parts of the data.
fn write_data(stripe: Stripe, content: &[u8], guards: [u32; 16], bytes: &mut [u8])
    requires content_len { length content.now ≡ (format_at stripe.array).data_length * data_members stripe.array }
    requires bytes_len { length bytes.old ≡ stripe_length stripe.array }
    requires guards_value { guards ≡ guards_of (format_at stripe.array) 16 (format_at stripe.array).data_length content.now }
    ensures { bytes.new ≡ data_written stripe.array stripe.number content.now bytes.old }
{
    let parity = stripe.seat.parity;
    for member in 0..stripe.array.members {
        let index = layout::index_beside(parity, member);
        write_member(stripe, member, content, guards[index], bytes);
    }
}

// Writes every byte of a stripe: the data members' blocks, then the parity made from them. Its guard is the exclusive-or of the data
// members' guards, with what such guards leave in a right stripe.
fn write_all(stripe: Stripe, content: &[u8], bytes: &mut [u8])
    requires content_len { length content.now ≡ (format_at stripe.array).data_length * data_members stripe.array }
    requires bytes_len { length bytes.old ≡ stripe_length stripe.array }
    ensures { bytes.new ≡ sealed stripe.array stripe.number content.now }
{
    let members = stripe.array.members;
    let method = stripe.array.method;
    let guards = format::guards(method, content, format::data_length(method));
    write_data(stripe, content, guards, bytes);
    let parity = stripe.seat.parity;
    make_data(method, members, parity, bytes);
    let data_guards = combined_wide(&guards[0..members - 1]);
    let parity_guard = u64::from(data_guards ^ format::settled(method, members));
    stripe.write_tag(parity, parity_guard, bytes);
}

// Makes a whole stripe from its data.
pub fn seal(array: Array, stripe: u64, content: &[u8], bytes: &mut [u8]) -> Result<(), Refusal>
    ensures value { told result ≡ seal_refusal array stripe (length content.now) (length bytes.old) }
    ensures bytes_after { bytes.new ≡ seal_bytes array stripe content.now bytes.old }
{
    check_seal(array, stripe, content.len(), bytes.len())?;
    write_all(Stripe::at(array, stripe), content, bytes);
    Ok(())
}
