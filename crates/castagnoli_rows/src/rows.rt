// The bytes that the folds leave, by words: four rows of four. A lane is what one word of each row comes to.
ghost use Rattle.std.specs.Prelude.{◌≡◌, ℕ, ◌+◌, ◌*◌, ◌≤◌, ◌<◌, length, get_or};
ghost use Rattle.castagnoli.specs.Castagnoli.{advance};
ghost use Rattle.castagnoli_words.specs.Words.{rest};
ghost use Rattle.castagnoli_rows.specs.Reading.{little, piece, column};

use crate::to_128;
use castagnoli_words::{end, joined, past_row};
use std::array;

// Eight bytes, as a word.
fn word(b: &[u8], p: usize) -> u64
    requires { p + 8 ≤ length b.now }
    ensures { rest result ≡ piece b.now p }
{
    u64::from_le_bytes([
        b[p],
        b[p + 1],
        b[p + 2],
        b[p + 3],
        b[p + 4],
        b[p + 5],
        b[p + 6],
        b[p + 7],
    ])
}

// What the four words of a lane come to.
fn lane(b: &[u8], p: usize) -> u64
    requires { p + 104 ≤ length b.now }
    ensures { rest result ≡ column b.now p }
{
    past_row(
        past_row(past_row(word(b, p), word(b, p + 32)), word(b, p + 64)),
        word(b, p + 96),
    )
}

// The four lanes.
fn lanes(b: [u8; 128]) -> [u64; 4]
    ensures { (l : ℕ) → l < 4 → rest (get_or result l 0) ≡ column b (8 * l) }
{
    array::from_fn(|l| lane(&b, 8 * l))
}

// What 128 bytes make of a register 0.
fn rows(b: [u8; 128]) -> u32
    ensures { result ≡ advance 0 b }
{
    let words = lanes(b);
    end(joined(words[0], words[1], words[2], words[3]))
}

// What 448 bytes make of a register 0.
pub fn of_448(b: [u8; 448]) -> u32
    ensures { result ≡ advance 0 b }
{
    rows(to_128(b))
}
