// A member's block made again from the others.
ghost use Rattle.std.specs.Prelude.{◌≡◌, ◌<◌, length, true, false, not, cond};
ghost use Rattle.refusal.specs.Refusals.{told};
ghost use Rattle.format.specs.Formats.{guards_of};
ghost use Rattle.tag.specs.Blocks.{format_at};
ghost use Rattle.layout.specs.Answers.{refuse};
ghost use Rattle.stripe.specs.Stripes.{stripe_length};
ghost use Rattle.stripe.specs.Jobs.{rebuild_refusal, rebuilt, rebuild_bytes};
ghost use Rattle.stripe.specs.Steps.{sources_refusal, fitting};

use crate::{Held, Stripe, block_at, make_data, plain_guard};
use format::PIECE;
use layout::Array;
use refusal::Refusal;

// Whether a member can be rebuilt, as far as the other members decide it: the stripe's length, then whether every other member is good by its
// guard.
fn check_sources(
    stripe: Stripe,
    member: usize,
    bytes: &[u8],
    guards: [u32; 16],
) -> Result<(), Refusal>
    requires member_in { member < stripe.array.members }
    requires guards_value { guards ≡ guards_of (format_at stripe.array) 16 (format_at stripe.array).block_length bytes.now }
    ensures { told result ≡ sources_refusal stripe.array stripe.number member bytes.now }
{
    if bytes.len() != block_at(stripe.array.method, stripe.array.members) {
        return Err(Refusal::Length);
    }
    if !(Held { stripe, bytes }).others_good(member, guards) {
        return Err(Refusal::Bad);
    }
    Ok(())
}

// Rebuilds where the parity carries the data members' guards: the data are one piece, and are written only where they fit.
fn rebuild_carried(stripe: Stripe, member: usize, bytes: &mut [u8]) -> Result<(), Refusal>
    requires member_in { member < stripe.array.members }
    requires bytes_len { length bytes.old ≡ stripe_length stripe.array }
    requires array_value { (format_at stripe.array).carries ≡ true }
    ensures value { told result ≡ refuse (not (fitting stripe.array stripe.number member bytes.old)) 9 0 }
    ensures bytes_after { bytes.new ≡ cond (fitting stripe.array stripe.number member bytes.old) (rebuilt stripe.array stripe.number member bytes.old) bytes.old }
{
    let mut piece = [0u8; PIECE];
    let guard = Held { stripe, bytes }
        .made_piece(member, &mut piece)
        .ok_or(Refusal::Bad)?;
    stripe.write_block(member, &piece, guard, bytes);
    Ok(())
}

// Rebuilds where the parity's guard is that of its own data: nothing is left to compare, and the data are made in their place.
fn rebuild_plain(stripe: Stripe, member: usize, guards: [u32; 16], bytes: &mut [u8])
    requires member_in { member < stripe.array.members }
    requires bytes_len { length bytes.old ≡ stripe_length stripe.array }
    requires array_value { (format_at stripe.array).carries ≡ false }
    requires guards_value { guards ≡ guards_of (format_at stripe.array) 16 (format_at stripe.array).block_length bytes.old }
    ensures { bytes.new ≡ rebuilt stripe.array stripe.number member bytes.old }
{
    let method = stripe.array.method;
    let members = stripe.array.members;
    let guard = plain_guard(method, members, member, guards);
    make_data(method, members, member, bytes);
    stripe.write_tag(member, guard, bytes);
}

// Rebuilds a member's block in place in its stripe.
fn rebuild_there(stripe: Stripe, member: usize, bytes: &mut [u8]) -> Result<(), Refusal>
    requires { member < stripe.array.members }
    ensures value { told result ≡ rebuild_refusal stripe.array stripe.number member bytes.old }
    ensures bytes_after { bytes.new ≡ rebuild_bytes stripe.array stripe.number member bytes.old }
{
    let method = stripe.array.method;
    let guards = format::guards(method, bytes, format::block_length(method));
    check_sources(stripe, member, bytes, guards)?;
    if format::carries(method) {
        return rebuild_carried(stripe, member, bytes);
    }
    rebuild_plain(stripe, member, guards, bytes);
    Ok(())
}

// Rebuilds a member's block in place: the exclusive-or of the other members' data, with the tag due there.
pub fn rebuild(array: Array, stripe: u64, member: usize, bytes: &mut [u8]) -> Result<(), Refusal>
    ensures value { told result ≡ rebuild_refusal array stripe member bytes.old }
    ensures bytes_after { bytes.new ≡ rebuild_bytes array stripe member bytes.old }
{
    layout::check_place(array, stripe, member)?;
    rebuild_there(Stripe::at(array, stripe), member, bytes)
}
