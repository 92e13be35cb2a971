// The checks of sixteen runs in one call: by the folds where a run is whole.
ghost use Rattle.std.specs.Prelude.{◌≡◌};
ghost use Rattle.castagnoli.specs.Blocks.{guards_of};

use crate::calls::{block, crc32c, lead};
use castagnoli::{guard_of, start};

// The checks of sixteen runs of 4,096 bytes, each `stride` bytes after the one before. What lies past the end has no bytes.
pub fn guards(bytes: &[u8], stride: usize) -> [u32; 16]
    ensures { result ≡ guards_of 16 stride bytes.now }
{
    let mut w = [0u8; 4544];
    let register = start();
    lead(register, &mut w);
    let mut out = [0u32; 16];
    let mut rest = bytes;
    for guard in out.iter_mut() {
        if rest.is_empty() {
            break;
        }
        *guard = match rest.first_chunk::<4096>() {
            Some(whole) => guard_of(block(register, whole, &mut w)),
            None => crc32c(rest),
        };
        rest = &rest[rest.len().min(stride)..];
    }
    out
}
