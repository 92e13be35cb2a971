// A run of bytes, whole or in pieces: by blocks, then by rows, and what is left word by word.
ghost use Rattle.std.specs.Prelude.{◌≡◌};
ghost use Rattle.checksum.specs.Checksum.{checksum};
ghost use Rattle.checksum.specs.Machine.{register_of, start, advance};

use crate::{Register, block, row, take_word};

// Where the sum starts.
pub const FIRST: u16 = 0xFFFF;

// A register before the first byte.
pub fn start() -> Register
    ensures { result ≡ start }
{
    Register {
        value: FIRST,
        waiting: 0,
    }
}

// From an even position on, word by word.
fn by_words(sum: u16, before: u8, bytes: &[u8]) -> Register
    ensures { result ≡ advance 0 (register_of sum before) bytes.now }
{
    let mut value = sum;
    let mut waiting = before;
    let mut rest = bytes;
    while let Some(([high, low], after)) = rest.split_first_chunk::<2>() {
        value = take_word(value, *high, *low);
        waiting = 0;
        rest = after;
    }
    if let Some(last) = rest.first() {
        waiting = *last;
    }
    Register { value, waiting }
}

// From an even position on: blocks, then rows, then words.
fn from_even(sum: u16, before: u8, bytes: &[u8]) -> Register
    ensures { result ≡ advance 0 (register_of sum before) bytes.now }
{
    let mut value = sum;
    let mut waiting = before;
    let mut rest = bytes;
    while let Some((first, after)) = rest.split_first_chunk::<512>() {
        value = block(value, first);
        waiting = 0;
        rest = after;
    }
    while let Some((first, after)) = rest.split_first_chunk::<32>() {
        value = row(value, first);
        waiting = 0;
        rest = after;
    }
    by_words(value, waiting, rest)
}

// A register after some bytes more, from a position of their run on. At an odd one the first byte is the pair of the one that waits.
pub fn advance(at: usize, register: Register, bytes: &[u8]) -> Register
    ensures { result ≡ advance at register bytes.now }
{
    let sum = register.value;
    let waiting = register.waiting;
    if at % 2 == 0 {
        return from_even(sum, waiting, bytes);
    }
    if bytes.len() == 0 {
        return register;
    }
    from_even(take_word(sum, waiting, bytes[0]), 0, &bytes[1..])
}

// The checksum of a run of bytes; a last byte without a pair does not count. Most often the run is one block.
pub fn checksum(bytes: &[u8]) -> u16
    ensures { result ≡ checksum bytes.now }
{
    if let Some(whole) = bytes.as_array::<512>() {
        return block(FIRST, whole);
    }
    let register = from_even(FIRST, 0, bytes);
    register.value
}
