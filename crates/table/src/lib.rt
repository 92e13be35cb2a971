// Two bytes at a time through two tables of 256 entries. The tables are lent, so that a caller makes them once; what is promised holds of any two.
#![tactic(auto)]

mod high;
mod low;

ghost use Rattle.std.specs.Prelude.{◌≡◌};
ghost use Rattle.table.specs.Tables.{look_one, look_two, look_run};

pub use high::high_table;
pub use low::low_table;

// What one table makes of a register and a byte.
#[tactic(auto, unfolding(crate::specs::Tables::look_one))]
fn one(low: &[u16; 256], register: u16, byte: u8) -> u16
    ensures { result ≡ look_one low.now register byte }
{
    let [upper, lower] = register.to_be_bytes();
    u16::from(lower) * 256 ^ low[usize::from(upper ^ byte)]
}

// What two tables make of a register and two bytes.
#[tactic(auto, unfolding(crate::specs::Tables::look_two))]
pub fn two(high: &[u16; 256], low: &[u16; 256], register: u16, first: u8, second: u8) -> u16
    ensures { result ≡ look_two high.now low.now register first second }
{
    let [upper, lower] = register.to_be_bytes();
    high[usize::from(upper ^ first)] ^ low[usize::from(lower ^ second)]
}

// What they make of a register and a run of bytes, two at a time.
pub fn through(high: &[u16; 256], low: &[u16; 256], register: u16, bytes: &[u8]) -> u16
    ensures { result ≡ look_run high.now low.now register bytes.now }
{
    let mut after = register;
    let mut left = bytes;
    while let [first, second, rest @ ..] = left {
        after = two(high, low, after, *first, *second);
        left = rest;
    }
    match left {
        [last] => one(low, after, *last),
        _ => after,
    }
}
