// The calls: a block by the folds and by words, any other run by two tables.

mod many;

ghost use Rattle.std.specs.Prelude.{◌≡◌, ℕ, length, get_or};
ghost use Rattle.castagnoli.specs.Castagnoli.{advance, crc32c};
ghost use Rattle.castagnoli_rows.specs.Folds.{Ready};
ghost use Rattle.castagnoli_fold.specs.Heads.{head_of};

use crate::to_448;
use castagnoli::{guard_of, start};
use castagnoli_rows::of_448;
pub use many::guards;

// Puts a register in front of the wide fold's buffer.
fn lead(register: u32, w: &mut [u8])
    requires w_len { length w.old ≡ 4544 }
    requires by_index { (j : ℕ) → get_or w.old j 0 ≡ 0 }
    ensures { Ready 448 3648 (head_of register) w.new }
{
    w[4..8].copy_from_slice(&register.to_le_bytes());
}

// The register after a block. The buffer can serve again.
fn block(register: u32, b: &[u8; 4096], w: &mut [u8]) -> u32
    requires { Ready 448 3648 (head_of register) w.old }
    ensures value { result ≡ advance register b.now }
    ensures ready { Ready 448 3648 (head_of register) w.new }
{
    of_448(to_448(register, b, w))
}

// The register after a block, with a buffer of its own.
fn alone(register: u32, b: &[u8; 4096]) -> u32
    ensures { result ≡ advance register b.now }
{
    let mut w = [0u8; 4544];
    lead(register, &mut w);
    block(register, b, &mut w)
}

// The register after a run of bytes.
pub fn advance(register: u32, bytes: &[u8]) -> u32
    ensures { result ≡ advance register bytes.now }
{
    match bytes.as_array::<4096>() {
        Some(block) => alone(register, block),
        None => castagnoli::advance(register, bytes),
    }
}

// The check of a run of bytes.
pub fn crc32c(bytes: &[u8]) -> u32
    ensures { result ≡ crc32c bytes.now }
{
    guard_of(advance(start(), bytes))
}
