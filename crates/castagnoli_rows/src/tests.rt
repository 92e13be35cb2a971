// `take` and `tail` by their public names. The numbers were made outside: the first fold by hand, the register of the second bit by bit.
ghost use Rattle.std.specs.Prelude.{[], ◌∷◌, refl};

use super::{Places, tail, take};
use castagnoli::advance;
use std::array;
use std::test::Fail;

// The byte after one's own alone.
struct Next;

impl Places for Next {
    ghost places = { 1 ∷ [] };

    ghost reach = { 1 };

    fn mixed(b: &[u8], w: &[u8], k: usize) -> u8 {
        b[k] ^ w[k + 1]
    }

    ghost within = { refl };
}

// The nine places of the fold to 128 bytes.
struct Nine;

impl Places for Nine {
    ghost places = { 13 ∷ 22 ∷ 23 ∷ 33 ∷ 37 ∷ 42 ∷ 48 ∷ 52 ∷ 56 ∷ [] };

    ghost reach = { 56 };

    fn mixed(b: &[u8], w: &[u8], k: usize) -> u8 {
        b[k] ^ w[k + 13]
            ^ w[k + 22]
            ^ w[k + 23]
            ^ w[k + 33]
            ^ w[k + 37]
            ^ w[k + 42]
            ^ w[k + 48]
            ^ w[k + 52]
            ^ w[k + 56]
    }

    ghost within = { refl };
}

// Fails a test, and says at what.
fn seen(holds: bool, what: &str) -> Result<(), Fail> {
    holds.then_some(()).ok_or(what)?;
    Ok(())
}

#[test]
fn three_of_five() -> Result<(), Fail> {
    let b = [1, 2, 4, 8, 16];
    let mut w = [9, 6, 0, 0, 0, 0, 0];
    take::<Next, 1, 2, 3>(&b, &mut w);
    seen(w == [9, 6, 7, 5, 1, 0, 0], "the buffer")?;
    seen(tail::<Next, 2, 3>(&b, &w) == [9, 16], "what is left")
}

#[test]
fn register_of_448() -> Result<(), Fail> {
    let b: [u8; 448] = array::from_fn(|i| (i % 251) as u8);
    let mut w = [0; 576];
    take::<Nine, 32, 128, 320>(&b, &mut w);
    seen(advance(0, &b) == 0x14D062F9, "the register of all")?;
    seen(
        advance(0, &tail::<Nine, 128, 320>(&b, &w)) == 0x14D062F9,
        "of what is left",
    )
}
