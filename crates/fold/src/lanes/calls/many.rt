// The guards of sixteen runs in one call: by lanes as far as the runs are whole.
ghost use Rattle.std.specs.Prelude.{◌≡◌, ℕ, [], ◌+◌, ◌*◌, ◌≤◌, ◌<◌, length, get_or};
ghost use Rattle.crc.specs.Guard.{guard};
ghost use Rattle.crc.specs.Blocks.{guards_of};
ghost use Rattle.words.specs.Words.{rest};
ghost use Rattle.words.specs.Steps.{quad};
ghost use Rattle.fold.specs.Many.{Whole, Known};

use crate::lanes::calls::guard;
use crate::lanes::columns;
use std::array;

// How many of sixteen runs are whole.
fn whole(stride: usize, end: usize) -> usize
    ensures { Whole stride end result }
{
    if end < 512 {
        return 0;
    }
    if stride == 0 {
        return 16;
    }
    ((end - 512) / stride + 1).min(16)
}

// The four lanes of each of sixteen blocks joined.
fn joins(lanes: [[u64; 4]; 16]) -> [u64; 16]
    ensures { (k : ℕ) → k < 16 → rest (get_or result k 0) ≡ quad (rest (get_or (get_or lanes k []) 0 0)) (rest (get_or (get_or lanes k []) 1 0)) (rest (get_or (get_or lanes k []) 2 0)) (rest (get_or (get_or lanes k []) 3 0)) }
{
    array::from_fn(|k| words::joined(lanes[k][0], lanes[k][1], lanes[k][2], lanes[k][3]))
}

// The guards that sixteen words leave. Side by side they need no table.
fn ends(words: [u64; 16]) -> [u16; 16]
    ensures { (k : ℕ) → k < 16 → get_or result k 0 ≡ rest (get_or words k 0) }
{
    array::from_fn(|k| nibbles::left(words[k]))
}

// The guards of the first runs, which are whole, and zeros behind them.
fn of_wholes(bytes: &[u8], stride: usize, count: usize) -> [u16; 16]
    requires few { count ≤ 16 }
    requires within { (k : ℕ) → k < count → k * stride + 512 ≤ length bytes.now }
    ensures known { Known stride bytes.now result count }
    ensures behind { (k : ℕ) → count ≤ k → k < 16 → get_or result k 0 ≡ 0 }
{
    ends(joins(columns(bytes, stride, count)))
}

// The guards of sixteen runs of 512 bytes, each `stride` bytes after the one before. What lies past the end has no bytes, and its guard is 0.
pub fn guards(bytes: &[u8], stride: usize) -> [u16; 16]
    ensures { result ≡ guards_of 16 stride bytes.now }
{
    let count = whole(stride, bytes.len());
    let mut out = of_wholes(bytes, stride, count);
    let mut rest = &bytes[count.saturating_mul(stride).min(bytes.len())..];
    for k in count..16 {
        if rest.is_empty() {
            break;
        }
        out[k] = guard(rest);
        rest = &rest[rest.len().min(stride)..];
    }
    out
}
