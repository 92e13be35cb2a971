// CRC-32C: what it is, what it notices, and two bytes at a time through two tables of 256 entries. The tables are lent, so that a caller makes
// them once; what is promised of `through` holds of any two.
#![tactic(auto)]

mod first;
mod last;

ghost use Rattle.std.specs.Prelude.{◌≡◌};
ghost use Rattle.castagnoli.specs.Castagnoli.{start, advance, guard_of};
ghost use Rattle.castagnoli.specs.Tables.{look_one, look_two, look_run};

pub use first::first_table;
pub use last::last_table;

// Where a register starts.
pub fn start() -> u32
    ensures { result ≡ start }
{
    0xFFFFFFFF
}

// The check that a register gives at the end: each of its bits turned.
pub fn guard_of(register: u32) -> u32
    ensures { result ≡ guard_of register }
{
    register ^ 0xFFFFFFFF
}

// What one table makes of a register and a byte.
#[tactic(auto, unfolding(crate::specs::Tables::look_one))]
fn one(last: &[u32; 256], register: u32, byte: u8) -> u32
    ensures { result ≡ look_one last.now register byte }
{
    let [lowest, ..] = register.to_le_bytes();
    register / 256 ^ last[usize::from(lowest ^ byte)]
}

// What two tables make of a register and two bytes.
#[tactic(auto, unfolding(crate::specs::Tables::look_two))]
fn two(first: &[u32; 256], last: &[u32; 256], register: u32, a: u8, b: u8) -> u32
    ensures { result ≡ look_two first.now last.now register a b }
{
    let [lowest, next, ..] = register.to_le_bytes();
    register / 65536 ^ (first[usize::from(lowest ^ a)] ^ last[usize::from(next ^ b)])
}

// What they make of a register and a run of bytes, two at a time.
// Stays: `table::through` has the same loop over other steps. Tried: one loop over a trait of the two steps; a crate may not give `u32` another crate's trait, so each check wants a type of its own, three ghost members and a law, more than the nine lines that they would share.
pub fn through(first: &[u32; 256], last: &[u32; 256], register: u32, bytes: &[u8]) -> u32
    ensures { result ≡ look_run first.now last.now register bytes.now }
{
    let mut after = register;
    let mut left = bytes;
    while let [a, b, rest @ ..] = left {
        after = two(first, last, after, *a, *b);
        left = rest;
    }
    match left {
        [a] => one(last, after, *a),
        _ => after,
    }
}

// The register after a run of bytes, by the two tables.
pub fn advance(register: u32, bytes: &[u8]) -> u32
    ensures { result ≡ advance register bytes.now }
{
    let first = first_table();
    let last = last_table();
    through(&first, &last, register, bytes)
}
