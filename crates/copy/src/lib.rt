// Bytes copied into others from a place on.
#![tactic(auto)]

ghost use Rattle.std.specs.Prelude.{◌≡◌, ◌+◌, ◌≤◌, length};
ghost use Rattle.std.proofs.lemmas.List.Edits.{sets};

// The length of most long runs. For this one the compiler makes a copy of its own, which is faster than one for any length.
const USUAL: usize = 512;

// Copies `src`, which has room there, into `dst` from a place on.
// Stays: the library's `copy_from_slice` is compiled to `memmove` here, which the archives for C would want from outside beside `memcpy` and `memset`.
fn fill(dst: &mut [u8], at: usize, src: &[u8])
    requires { at + length src.now ≤ length dst.old }
    ensures { dst.new ≡ sets dst.old at src.now }
{
    for i in 0..src.len() {
        dst[at + i] = src[i];
    }
}

// Copies `src` into `dst` from a place on, as far as there is room. Where there is room for all, the compiler knows the length where the caller does.
pub fn put(dst: &mut [u8], at: usize, src: &[u8])
    ensures { dst.new ≡ sets dst.old at src.now }
{
    let Some(room) = dst.len().checked_sub(at) else {
        return;
    };
    if src.len() <= room {
        match src.as_array::<USUAL>() {
            Some(usual) => fill(dst, at, usual),
            None => fill(dst, at, src),
        }
    } else {
        fill(dst, at, &src[..room]);
    }
}
