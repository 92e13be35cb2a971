// What 448 bytes make of a register 0 of CRC-32C: by a fold to 128, and then by words.
// The fold is here. As x^(8 * 128) is a sum of nine powers of x modulo the generator, 320 bytes are taken away one after the other, and added
// further on at nine places each; 128 are left.
#![tactic(auto)]

mod below;
mod places;
mod rows;
#[cfg(test)]
mod tests;

ghost use Rattle.std.specs.Prelude.{◌≡◌, [], ◌∷◌, refl};
ghost use Rattle.castagnoli.specs.Castagnoli.{advance};

pub use below::{PlacesBelow, tail_below, take_below};
pub use places::{Places, tail, take};
pub use rows::of_448;

// The nine places of the fold to 128 bytes.
struct Near;

impl PlacesBelow<57> for Near {
    ghost places = { 13 ∷ 22 ∷ 23 ∷ 33 ∷ 37 ∷ 42 ∷ 48 ∷ 52 ∷ 56 ∷ [] };

    fn mixed(byte: u8, w: &[u8; 57]) -> u8 {
        byte ^ w[13] ^ w[22] ^ w[23] ^ w[33] ^ w[37] ^ w[42] ^ w[48] ^ w[52] ^ w[56]
    }

    ghost within = { refl };
}

// 128 bytes that make of a register 0 what 448 make of it.
fn to_128(b: [u8; 448]) -> [u8; 128]
    ensures { advance 0 result ≡ advance 0 b }
{
    let mut w = [0u8; 576];
    take_below::<Near, 57, 32, 128, 320>(&b, &mut w);
    tail_below::<Near, 57, 128, 320>(&b, &w)
}
