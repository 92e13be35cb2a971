// The rotating checksum of sixteen-bit words: the sum is rotated left by one bit, then takes the next word in, the carry wrapped round. Here are
// one word, and a block of 512 bytes by 32 lanes; `machine` takes any run of them, in pieces or whole, `many` sixteen blocks, and
// `asked` a run that is asked for by itself.
#![tactic(auto)]

mod asked;
mod machine;
mod many;

ghost use Rattle.std.specs.Prelude.{◌≡◌, ◌+◌, ◌≤◌, ◌<◌, length};
ghost use Rattle.checksum.specs.Checksum.{taken, word, words, sums};
ghost use Rattle.checksum.specs.Weights.{made, reduced};
ghost use Rattle.checksum.specs.Lanes.{pairs, stack, lanes_of};

pub use asked::sum;
pub use machine::{advance, checksum, start};
pub use many::checksums;
use std::array;

// The sum of the words so far, and the byte that waits for its pair: zero where none waits.
#[derive(Clone, Copy)]
pub struct Register {
    pub value: u16,
    pub waiting: u8,
}

// The sum with one word more, which comes as two bytes.
fn take_word(sum: u16, high: u8, low: u8) -> u16
    ensures { result ≡ taken sum (word high low) }
{
    let rotated = sum.rotate_left(1);
    let (total, carry) = rotated.overflowing_add(u16::from_be_bytes([high, low]));
    total + u16::from(carry)
}

// Four bytes of a lane.
fn four(bytes: &[u8], at: usize) -> u16
    requires { at + 96 < length bytes.now }
    ensures { (result ≡ stack 4 bytes.now at) × (result ≤ 1020) }
{
    u16::from(bytes[at])
        + u16::from(bytes[at + 32])
        + u16::from(bytes[at + 64])
        + u16::from(bytes[at + 96])
}

// A lane of a block.
fn lane(bytes: &[u8], at: usize) -> u16
    requires { at + 480 < length bytes.now }
    ensures { result ≡ stack 16 bytes.now at }
{
    four(bytes, at) + four(bytes, at + 128) + four(bytes, at + 256) + four(bytes, at + 384)
}

// The lanes of a block, each by itself: one loop, which becomes vector code.
fn lanes(bytes: &[u8; 512]) -> [u16; 32]
    ensures { result ≡ lanes_of 32 bytes.now 0 }
{
    array::from_fn(|k| lane(bytes, k))
}

// What lanes weigh.
fn weight(lanes: [u16; 32]) -> u64
    ensures { (result ≡ made 0 (pairs lanes)) × (result ≤ 1103789752320) }
{
    let mut t: u64 = 0;
    let mut rest = &lanes[..];
    while let Some(([high, low], after)) = rest.split_first_chunk::<2>() {
        t = t * 2 + (u64::from(*high) * 256 + u64::from(*low));
        rest = after;
    }
    t
}

// A number in sixteen bits, all its carries wrapped round.
fn reduce(x: u64) -> u16
    requires { x ≤ 2199023255552 }
    ensures { result ≡ reduced x }
{
    let y = x % 65536 + x / 65536;
    let z = y % 65536 + y / 65536;
    (z % 65536 + z / 65536) as u16
}

// The sum after a row of 32 bytes: sixteen doublings bring it back to where it was.
fn row(sum: u16, bytes: &[u8; 32]) -> u16
    ensures { result ≡ sums sum (words bytes.now) }
{
    let lanes = array::from_fn(|k| u16::from(bytes[k]));
    reduce(u64::from(sum) + weight(lanes))
}

// The sum after a block.
fn block(sum: u16, bytes: &[u8; 512]) -> u16
    ensures { result ≡ sums sum (words bytes.now) }
{
    let lanes = lanes(bytes);
    reduce(u64::from(sum) + weight(lanes))
}
