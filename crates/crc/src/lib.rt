// The guard of the T10 protection field, CRC-16, bit by bit: what it is, and what it notices.
#![tactic(auto)]

ghost use Rattle.std.specs.Prelude.{◌≡◌, [], ◌∷◌, ◌<◌};
ghost use Rattle.crc.specs.Crc.{bit_step};
ghost use Rattle.crc.specs.Guard.{generator, run};

// The generator's terms below x^16.
const GENERATOR: u16 = 0x8BB7;

// The register after one bit: it moves up, and takes the generator in where the bit that leaves it differs from the one that comes.
fn bit_step(register: u16, bit: u16) -> u16
    requires { bit < 2 }
    ensures { result ≡ bit_step 16 generator register bit }
{
    let moved = register % 32768 * 2;
    let taken = register / 32768 ^ bit;
    moved ^ GENERATOR * taken
}

// The register after one byte, its highest bit first.
pub fn step(register: u16, byte: u8) -> u16
    ensures { result ≡ run register (byte ∷ []) }
{
    let mut after = register;
    for i in (0..8u16).rev() {
        after = bit_step(after, (u16::from(byte) >> i) % 2);
    }
    after
}

// The register times x: what one bit 0 makes of it.
pub fn times_x(register: u16) -> u16
    ensures { result ≡ bit_step 16 generator register 0 }
{
    bit_step(register, 0)
}
