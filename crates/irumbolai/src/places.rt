// Where blocks lie, for C.
ghost use Rattle.std.specs.Prelude.{◌≡◌, ◌<◌};
ghost use Rattle.layout.specs.Arrays.{array_of};
ghost use Rattle.layout.specs.Places.{placed_numbers, place_numbers, owned_numbers, owner_numbers};
ghost use Rattle.irumbolai.specs.Answers.{unflagged, member_answered, place_fields, owner_fields};

use crate::{OwnerAnswer, PlaceAnswer, refusal_number};
use layout::{Owned, Placed};
use refusal::Refusal;

// An answer of `place` for C.
// Stays: no `From`, which takes any member; the field of `PlaceAnswer` holds thirty-two bits.
fn place_answer(placed: Result<Placed, Refusal>) -> PlaceAnswer
    requires { member_answered placed < 4294967296 }
    ensures { place_fields result ≡ unflagged (placed_numbers placed) }
{
    match placed {
        Ok(Placed { stripe, member }) => {
            let member = member as u32;
            PlaceAnswer {
                refusal: 0,
                member,
                stripe,
            }
        }
        Err(refusal) => PlaceAnswer {
            refusal: refusal_number(refusal),
            member: 0,
            stripe: 0,
        },
    }
}

// The place of a block.
#[unsafe(no_mangle)]
pub extern "C" fn irumbolai_place(
    members: usize,
    stripes: u64,
    volume: u8,
    method: u8,
    row: u8,
    block: u64,
) -> PlaceAnswer
    ensures { place_fields result ≡ unflagged (place_numbers (array_of members stripes volume method row) block) }
{
    let array = layout::array_of(members, stripes, volume, method, row);
    place_answer(layout::place(array, block))
}

// An answer of `owner` for C.
impl From<Result<Owned, Refusal>> for OwnerAnswer {
    ghost from_gives = { λ owned answer. owner_fields answer ≡ unflagged (owned_numbers owned) };

    fn from(owned: Result<Owned, Refusal>) -> OwnerAnswer {
        match owned {
            Ok(Owned::Parity { lowest }) => OwnerAnswer {
                refusal: 0,
                parity: 1,
                block: lowest,
            },
            Ok(Owned::Data { block }) => OwnerAnswer {
                refusal: 0,
                parity: 0,
                block,
            },
            Err(refusal) => OwnerAnswer {
                refusal: refusal_number(refusal),
                parity: 0,
                block: 0,
            },
        }
    }
}

// What lies at a place.
#[unsafe(no_mangle)]
pub extern "C" fn irumbolai_owner(
    members: usize,
    stripes: u64,
    volume: u8,
    method: u8,
    row: u8,
    stripe: u64,
    member: usize,
) -> OwnerAnswer
    ensures { owner_fields result ≡ unflagged (owner_numbers (array_of members stripes volume method row) stripe member) }
{
    let array = layout::array_of(members, stripes, volume, method, row);
    OwnerAnswer::from(layout::owner(array, stripe, member))
}
