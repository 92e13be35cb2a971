// CRC-32C fast: a block of 4,096 bytes by folds and words, any other run by two tables.
// The first fold is here. As x^(8 * 448) is a sum of five powers of x modulo the generator, 3,648 bytes of a block are taken away one after the
// other, and added further on at five places each; 448 bytes are left.
#![tactic(auto)]

mod calls;

ghost use Rattle.std.specs.Prelude.{◌≡◌, [], ◌∷◌, refl};
ghost use Rattle.castagnoli.specs.Castagnoli.{advance};
ghost use Rattle.castagnoli_rows.specs.Folds.{Ready};
ghost use Rattle.castagnoli_fold.specs.Heads.{head_of};

pub use calls::{advance, crc32c, guards};
use castagnoli_rows::{PlacesBelow, tail_below, take_below};

// The five places of the fold to 448 bytes.
struct Wide;

impl PlacesBelow<231> for Wide {
    ghost places = { 4 ∷ 20 ∷ 161 ∷ 206 ∷ 230 ∷ [] };

    fn mixed(byte: u8, w: &[u8; 231]) -> u8 {
        byte ^ w[4] ^ w[20] ^ w[161] ^ w[206] ^ w[230]
    }

    ghost within = { refl };
}

// 448 bytes that make of a register 0 what a block makes of the register that stands in front of the buffer.
fn to_448(register: u32, b: &[u8; 4096], w: &mut [u8]) -> [u8; 448]
    requires { Ready 448 3648 (head_of register) w.old }
    ensures result_value { advance 0 result ≡ advance register b.now }
    ensures ready { Ready 448 3648 (head_of register) w.new }
{
    take_below::<Wide, 231, 64, 448, 3648>(b, w);
    tail_below::<Wide, 231, 448, 3648>(b, w)
}
