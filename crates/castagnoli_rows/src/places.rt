// A fold of any size: M bytes are taken away at the front of a run, C at a time, and each is added at some places further on; N are left.
// Only a proof knows how far these places reach, so room is asked for. The folds that run here go by those of below.rt, which ask nothing.
// Stays: `take` and `tail` are called like this, with no R; and with no R there is no window to cut, and no test of the reach.
ghost use Rattle.std.specs.Prelude.{◌≡◌, true, List, ℕ, ◌+◌, ◌%◌, ◌≤◌, ◌<◌, length, get_or};
ghost use Rattle.castagnoli_rows.specs.Folds.{mix, no_further, Ready, Chunk, Taken, Tail};

// The places at which a byte is met, counted from its own. The farthest is not past `reach`.
pub trait Places {
    ghost places: { List ℕ };

    ghost reach: { ℕ };

    // A byte, and those that meet it.
    fn mixed(b: &[u8], w: &[u8], k: usize) -> u8
        requires { (k < length b.now) × (k + reach < length w.now) }
        ensures { result ≡ mix places (get_or b.now k 0) w.now k };

    ghost within: { no_further reach places ≡ true };
}

// Takes C bytes away, which meet none of each other.
fn chunk<P: Places, const C: usize, const N: usize>(b: &[u8], i: usize, w: &mut [u8])
    requires { (i + C ≤ length b.now) × (i + N + C ≤ length w.old) × (P.reach ≤ N) }
    ensures { Chunk P.places C N b.now i w.old w.new }
{
    let mut x = [0u8; C];
    for j in 0..C {
        x[j] = P::mixed(b, w, i + j);
    }
    for j in 0..C {
        w[i + N + j] = x[j];
    }
}

// Takes M of M + N bytes away.
pub fn take<P: Places, const C: usize, const N: usize, const M: usize>(b: &[u8], w: &mut [u8])
    requires chunks { (0 < C) × (M % C ≡ 0) × (P.reach + C ≤ N) }
    requires b_len { length b.now ≡ M + N }
    requires w_len { length w.old ≡ N + M + N }
    ensures { (head : List ℕ) → Ready N M head w.old → Taken P.places N M head b.now w.new M }
{
    for k in 0..M / C {
        chunk::<P, C, N>(b, C * k, w);
    }
}

// The bytes that are left, each with those that meet it.
pub fn tail<P: Places, const N: usize, const M: usize>(b: &[u8], w: &[u8]) -> [u8; N]
    requires { (M + N ≤ length b.now) × (M + N + P.reach ≤ length w.now) }
    ensures { Tail P.places N M b.now w.now result }
{
    let mut t = [0u8; N];
    for j in 0..N {
        t[j] = P::mixed(b, w, M + j);
    }
    t
}
