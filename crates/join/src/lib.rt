// Guards from guards and lengths alone, without the bytes.
#![tactic(auto)]

ghost use Rattle.std.specs.Prelude.{◌≡◌};
ghost use Rattle.crc.specs.Guard.{generator};
ghost use Rattle.join.specs.Remainders.{product, scaled};
ghost use Rattle.join.specs.Joins.{add_zeros, remove_zeros, combine, join};

// The factor of as many zero bytes as stand beside it: first x^8 modulo the generator, then each the square of the one before.
const FACTORS: [u16; 32] = [
    0x0100, // 1
    0x8BB7, // 2
    0x7E66, // 4
    0xF249, // 8
    0xA010, // 16
    0x857D, // 32
    0x1069, // 64
    0x6123, // 128
    0x22C6, // 256
    0xBC2E, // 512
    0x7905, // 1024
    0x8B33, // 2048
    0x3E76, // 4096
    0x0002, // 8192
    0x0004, // 16384
    0x0010, // 32768
    0x0100, // 65536
    0x8BB7, // 131072
    0x7E66, // 262144
    0xF249, // 524288
    0xA010, // 1048576
    0x857D, // 2097152
    0x1069, // 4194304
    0x6123, // 8388608
    0x22C6, // 16777216
    0xBC2E, // 33554432
    0x7905, // 67108864
    0x8B33, // 134217728
    0x3E76, // 268435456
    0x0002, // 536870912
    0x0004, // 1073741824
    0x0010, // 2147483648
];

// The inverse of each: with its factor it makes 1.
const INVERSES: [u16; 32] = [
    0xFA6C, // 1
    0x7C82, // 2
    0x145C, // 4
    0x30FF, // 8
    0x7E08, // 16
    0xE61D, // 32
    0x90AF, // 64
    0xEB75, // 128
    0x8316, // 256
    0xE2E4, // 512
    0x9123, // 1024
    0x2092, // 2048
    0x1F3B, // 4096
    0xC5DB, // 8192
    0xA736, // 16384
    0xEC16, // 32768
    0xFA6C, // 65536
    0x7C82, // 131072
    0x145C, // 262144
    0x30FF, // 524288
    0x7E08, // 1048576
    0xE61D, // 2097152
    0x90AF, // 4194304
    0xEB75, // 8388608
    0x8316, // 16777216
    0xE2E4, // 33554432
    0x9123, // 67108864
    0x2092, // 134217728
    0x1F3B, // 268435456
    0xC5DB, // 536870912
    0xA736, // 1073741824
    0xEC16, // 2147483648
];

// The product of two remainders: the digits of b, the highest first.
fn times(a: u16, b: u16) -> u16
    ensures { result ≡ product 16 generator a b }
{
    let mut after: u16 = 0;
    for i in (0..16u16).rev() {
        after = crc::times_x(after) ^ a * ((b >> i) % 2);
    }
    after
}

// A register times each factor of a table whose binary digit in n is one, the lowest digit first.
fn scaled(register: u16, table: &[u16], n: u32) -> u16
    ensures { result ≡ scaled 16 generator table.now register n }
{
    let mut after = register;
    let mut left = n;
    for factor in table {
        if left % 2 == 1 {
            after = times(after, *factor);
        }
        left /= 2;
    }
    after
}

// The guard of a run with n zero bytes after it.
pub fn add_zeros(guard: u16, n: u32) -> u16
    ensures { result ≡ add_zeros guard n }
{
    scaled(guard, &FACTORS, n)
}

// The guard of a run before n zero bytes were added to it.
pub fn remove_zeros(guard: u16, n: u32) -> u16
    ensures { result ≡ remove_zeros guard n }
{
    scaled(guard, &INVERSES, n)
}

// The guard of two equally long runs combined.
pub fn combine(a: u16, b: u16) -> u16
    ensures { result ≡ combine a b }
{
    a ^ b
}

// The guard of two runs joined.
pub fn join(a: u16, b: u16, length_of_b: u32) -> u16
    ensures { result ≡ join a b length_of_b }
{
    combine(add_zeros(a, length_of_b), b)
}
