// The checksums of sixteen runs in one call.
ghost use Rattle.std.specs.Prelude.{◌≡◌};
ghost use Rattle.checksum.specs.Many.{checksums_of};

use crate::machine::{FIRST, checksum};

// The checksums of sixteen runs of 512 bytes, each `stride` bytes after the one before. What lies past the end has no bytes.
pub fn checksums(bytes: &[u8], stride: usize) -> [u16; 16]
    ensures { result ≡ checksums_of 16 stride bytes.now }
{
    let mut out = [FIRST; 16];
    let mut rest = bytes;
    for guard in out.iter_mut() {
        if rest.is_empty() {
            break;
        }
        *guard = checksum(&rest[..rest.len().min(512)]);
        rest = &rest[rest.len().min(stride)..];
    }
    out
}
