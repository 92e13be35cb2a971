// The calls: a block by its lanes, any other run by words, one that has no whole word by two tables.
mod many;

ghost use Rattle.std.specs.Prelude.{◌≡◌, [], ◌∷◌, ◌≤◌, length};
ghost use Rattle.crc.specs.Guard.{run, guard};
ghost use Rattle.words.specs.Words.{rest};
ghost use Rattle.nibbles.specs.Nibbles.{nibbles};

use crate::added;
use crate::lanes::{lanes, lead};
pub use many::guards;
use words::past_word;

// What a word leaves, by the tables.
fn end(tables: &[u16; 160], v: u64) -> u16
    requires { tables.now ≡ nibbles }
    ensures { result ≡ rest v }
{
    nibbles::end(tables, v)
}

// The register after a block.
fn block(register: u16, bytes: &[u8]) -> u16
    requires { length bytes.now ≡ 512 }
    ensures { result ≡ run register bytes.now }
{
    let words = lanes(register, bytes);
    let joined = words::joined(words[0], words[1], words[2], words[3]);
    let tables = nibbles::nibble_table();
    end(&tables, joined)
}

// The register after a run of bytes, by two tables.
fn by_tables(register: u16, bytes: &[u8]) -> u16
    ensures { result ≡ run register bytes.now }
{
    let high = table::high_table();
    let low = table::low_table();
    table::through(&high, &low, register, bytes)
}

// What sixteen bits leave, as a word.
fn left_of(v: u16) -> u16
    ensures { result ≡ rest v }
{
    nibbles::left(u64::from(v))
}

// The register after two bytes: they are added to it.
fn past_two(register: u16, first: u8, second: u8) -> u16
    ensures { result ≡ run register (first ∷ second ∷ []) }
{
    left_of(register ^ u16::from_be_bytes([first, second]))
}

// The register after one byte: its high half meets the byte, its low half moves up.
fn past_one(register: u16, byte: u8) -> u16
    ensures { result ≡ run register (byte ∷ []) }
{
    register % 256 * 256 ^ left_of(register / 256 ^ u16::from(byte))
}

// The register after a few bytes, two at a time and without a table, which would have to be made first.
fn by_few(register: u16, bytes: &[u8]) -> u16
    ensures { result ≡ run register bytes.now }
{
    let mut after = register;
    let mut rest = bytes;
    while let Some(([first, second], more)) = rest.split_first_chunk::<2>() {
        after = past_two(after, *first, *second);
        rest = more;
    }
    match rest.first() {
        Some(last) => past_one(after, *last),
        None => after,
    }
}

// The register after a run that has a whole word, word by word.
fn by_words(register: u16, bytes: &[u8]) -> u16
    requires { 8 ≤ length bytes.now }
    ensures { result ≡ run register bytes.now }
{
    let mut word = added(bytes, 0, lead(register));
    let (words, rest) = bytes[8..].as_chunks::<8>();
    for next in words {
        word = past_word(word, added(next, 0, 0));
    }
    by_few(nibbles::left(word), rest)
}

// The register after a run of bytes.
pub fn run(register: u16, bytes: &[u8]) -> u16
    ensures { result ≡ run register bytes.now }
{
    if bytes.len() == 512 {
        return block(register, bytes);
    }
    if 7 < bytes.len() {
        return by_words(register, bytes);
    }
    by_tables(register, bytes)
}

// The guard of a run of bytes: the register starts at 0.
pub fn guard(bytes: &[u8]) -> u16
    ensures { result ≡ guard bytes.now }
{
    run(0, bytes)
}
