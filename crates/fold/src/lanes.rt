// A block in four lanes. Its first 224 bytes go 226, 230 and 248 places on, which leaves its guard as it is and meets no byte of their own; so
// the other 288 hold it all, as nine rows of four words. A lane is what one word of each row comes to.
mod calls;

ghost use Rattle.std.specs.Prelude.{◌≡◌, ℕ, [], ◌∷◌, ◌+◌, ◌*◌, ◌≤◌, ◌<◌, length, get_or};
ghost use Rattle.std.specs.Int.Bits.{bit_xor};
ghost use Rattle.words.specs.Words.{rest, act};
ghost use Rattle.fold.specs.Reading.{leading, seen};
ghost use Rattle.fold.specs.Columns.{column, brought, firstly, nine, Laned, Come};

use crate::{added, met, two, word};
pub use calls::{guard, guards, run};
use words::{past_four_rows, past_row, past_six_rows, past_two_rows};

// A register as the first two bytes of a word that is read.
fn lead(register: u16) -> u64
    ensures { result ≡ act leading register }
{
    let v = register as u64;
    v >> 8 ^ v % 256 << 8
}

// What is carried to the first word of each lane, and the register, which goes with the first two bytes.
// Stays: here and below a slice of 512 bytes; as an array it wants an arm in `columns` for a run that is too short, which `whole` rules out.
fn firsts(register: u16, b: &[u8]) -> [u64; 4]
    requires { length b.now ≡ 512 }
    ensures { (l : ℕ) → l < 4 → seen (get_or result l 0) ≡ bit_xor (brought b.now (8 * l)) (firstly register l) }
{
    let start = word(b, 0) ^ lead(register);
    let second = two(b, 2, 6);
    let third = two(b, 10, 14);
    let fourth = two(b, 18, 22);
    [start << 48 ^ start << 16, second, third, start ^ fourth]
}

// What is carried to the last word but one of each lane.
fn lasts(b: &[u8]) -> [u64; 4]
    requires { length b.now ≡ 512 }
    ensures { (l : ℕ) → l < 4 → seen (get_or result l 0) ≡ brought b.now (224 + 8 * l) }
{
    let first = word(b, 200) ^ word(b, 218) % 0x1000000000000 ^ word(b, 222) % 0x10000;
    let second = word(b, 208);
    let third = word(b, 216);
    [first, second, third, 0]
}

// What the nine words of a lane come to, a row apart: the first three go six rows on, the next two four, the others one or two, so that none
// goes on more than twice. They are read in the order in which memory gives them soonest.
#[inline(always)]
fn lane(b: &[u8], p: usize, first: u64, last: u64) -> u64
    requires { p + 488 ≤ length b.now }
    ensures { rest result ≡ column (nine (seen first) (seen last) b.now p) }
{
    let ninth = added(b, p + 480, 0);
    let front = added(b, p + 224, first);
    let eighth = added(b, p + 448, last);
    let second = met(b, p + 256, p + 8);
    let third = met(b, p + 288, p + 40);
    let fourth = met(b, p + 320, p + 72);
    let fifth = met(b, p + 352, p + 104);
    let sixth = met(b, p + 384, p + 136);
    let seventh = met(b, p + 416, p + 168);
    let from_front = past_six_rows(front, seventh);
    let from_second = past_six_rows(second, eighth);
    let from_third = past_six_rows(third, ninth);
    let from_fourth = past_four_rows(fourth, from_second);
    let from_fifth = past_four_rows(fifth, from_third);
    let to_seventh = past_row(sixth, from_front);
    past_row(from_fourth, past_two_rows(to_seventh, from_fifth))
}

// The four lanes of a block. A block alone and a block among others each have a copy of their own.
#[inline(always)]
fn lanes(register: u16, b: &[u8]) -> [u64; 4]
    requires { length b.now ≡ 512 }
    ensures { Laned register b.now result 4 }
{
    let mut out = [0u64; 4];
    let last = lasts(b);
    let first = firsts(register, b);
    for l in 0..4 {
        out[l] = lane(b, 8 * l, first[l], last[l]);
    }
    out
}

// The lanes of the first blocks, each `stride` bytes after the one before, and zeros for the others.
fn columns(b: &[u8], stride: usize, count: usize) -> [[u64; 4]; 16]
    requires few { count ≤ 16 }
    requires within { (k : ℕ) → k < count → k * stride + 512 ≤ length b.now }
    ensures come { Come 0 stride b.now result count }
    ensures behind { (k : ℕ) → count ≤ k → k < 16 → get_or result k [] ≡ 0 ∷ 0 ∷ 0 ∷ 0 ∷ [] }
{
    let mut out = [[0u64; 4]; 16];
    for k in 0..count {
        let from = k * stride;
        out[k] = lanes(0, &b[from..from + 512]);
    }
    out
}
