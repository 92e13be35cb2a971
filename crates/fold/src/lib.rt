// Guards fast: a block of 512 bytes by four lanes of words, any other run word by word, and one of less than a word by two tables. Here are the
// words as they are read, the first byte the lowest: their bytes are turned round once they are added up. `lanes` makes a block of them, and
// the calls.
#![tactic(auto)]

mod lanes;

ghost use Rattle.std.specs.Prelude.{◌≡◌, ◌+◌, ◌≤◌, length};
ghost use Rattle.std.specs.Int.Bits.{bit_xor};
ghost use Rattle.words.specs.Words.{rest};
ghost use Rattle.fold.specs.Reading.{little, seen, piece};
ghost use Rattle.fold.specs.Columns.{four};

pub use lanes::{guard, guards, run};
use words::turned;

// Eight bytes as a word.
fn word(b: &[u8], p: usize) -> u64
    requires { p + 8 ≤ length b.now }
    ensures { result ≡ little 7 b.now p }
{
    u64::from_le_bytes([
        b[p],
        b[p + 1],
        b[p + 2],
        b[p + 3],
        b[p + 4],
        b[p + 5],
        b[p + 6],
        b[p + 7],
    ])
}

// Two words added.
fn two(b: &[u8], p: usize, q: usize) -> u64
    requires { (p + 8 ≤ length b.now) × (q + 8 ≤ length b.now) }
    ensures { seen result ≡ bit_xor (piece b.now p) (piece b.now q) }
{
    word(b, p) ^ word(b, q)
}

// A word with something added, turned.
fn added(b: &[u8], p: usize, more: u64) -> u64
    requires { p + 8 ≤ length b.now }
    ensures { rest result ≡ bit_xor (piece b.now p) (seen more) }
{
    turned(word(b, p) ^ more)
}

// Four words that meet, turned.
fn met(b: &[u8], p: usize, q: usize) -> u64
    requires { (p + 8 ≤ length b.now) × (q + 30 ≤ length b.now) }
    ensures { rest result ≡ four b.now p q }
{
    turned(word(b, p) ^ word(b, q) ^ word(b, q + 18) ^ word(b, q + 22))
}
