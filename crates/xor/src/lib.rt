// Exclusive-or of byte runs: parity, and every update of it.
#![tactic(auto)]

ghost use Rattle.std.specs.Prelude.{◌≡◌, min};
ghost use Rattle.xor.specs.Xors.{xors};

// Adds `src` to `dst`, place by place, as far as both reach; what of `dst` lies past that is left alone.
pub fn xor_into(dst: &mut [u8], src: &[u8])
    ensures { dst.new ≡ xors dst.old src.now }
{
    for i in 0..least(dst.len(), src.len()) {
        dst[i] ^= src[i];
    }
}

// The lesser of two lengths: as far as both reach.
pub fn least(a: usize, b: usize) -> usize
    ensures { result ≡ min a b }
{
    a.min(b)
}
