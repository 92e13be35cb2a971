// The lowest data member of a stripe whose block is not good.
ghost use Rattle.std.specs.Prelude.{◌≡◌, ◌<◌};
ghost use Rattle.verdict.specs.Verdicts.{lowest};
ghost use Rattle.stripe.specs.Tables.{table};
ghost use Rattle.stripe.specs.InPart.{amiss, first_amiss};

use crate::{Held, Stripe, check_scrub};
use layout::Array;

// Whether a member holds data and its block is not good.
fn is_amiss(held: &Held, member: usize) -> bool
    requires { member < held.now.stripe.array.members }
    ensures { result ≡ amiss held.now.stripe.array held.now.stripe.number held.now.bytes.now member }
{
    if member == held.stripe.seat.parity {
        return false;
    }
    !held.is_good(member)
}

// The lowest such member, or the number of members.
fn find_amiss(held: &Held) -> usize
    ensures { result ≡ lowest (table held.now.stripe.array.members (amiss held.now.stripe.array held.now.stripe.number held.now.bytes.now)) }
{
    let members = held.stripe.array.members;
    for member in 0..members {
        if is_amiss(held, member) {
            return member;
        }
    }
    members
}

// The lowest data member of a stripe whose block is bad or unchecked; the number of members where there is none, or where the stripe is not
// one of the array or has another length.
// Stays: a number and no Option, since its promise is the definition `first_amiss`, which says the number of members where there is none.
pub fn first_amiss(array: Array, stripe: u64, bytes: &[u8]) -> usize
    ensures { result ≡ first_amiss array stripe bytes.now }
{
    if check_scrub(array, stripe, bytes.len()).is_err() {
        return array.members;
    }
    let stripe = Stripe::at(array, stripe);
    find_amiss(&Held { stripe, bytes })
}
