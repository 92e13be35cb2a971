// A fold of any size: M bytes are taken away at the front of a run, C at a time, and each is added at some places further on; N are left.
// Each place is below a constant, so the sizes are tested, and nothing is asked.
ghost use Rattle.std.specs.Prelude.{◌≡◌, ◌↔◌, true, List, ℕ, ◌+◌, ◌-◌, ◌≤◌, ◌<◌, IsTrue, length, get_or, replicate};
ghost use Rattle.castagnoli_rows.specs.Folds.{mix, all_below, Ready, Fit, Room, Chunk, Taken, Tail};

// The places at which a byte is met, counted from its own: each below R.
pub trait PlacesBelow<const R: usize> {
    ghost places: { List ℕ };

    // A byte, and those that meet it, of the R in the buffer from its own place on.
    fn mixed(byte: u8, w: &[u8; R]) -> u8
        ensures { result ≡ mix places byte w.now 0 };

    ghost within: { all_below R places ≡ true };
}

// The byte at k, and those that meet it.
fn met<P: PlacesBelow<R>, const R: usize>(b: &[u8], w: &[u8], k: usize) -> u8
    requires { (k < length b.now) × (k + R ≤ length w.now) }
    ensures { result ≡ mix P.places (get_or b.now k 0) w.now k }
{
    P::mixed(b[k], w[k..k + R].as_array::<R>().unwrap())
}

// Takes C bytes away, which meet none of each other.
fn chunk<P: PlacesBelow<R>, const R: usize, const C: usize, const N: usize>(
    b: &[u8],
    i: usize,
    w: &mut [u8],
)
    requires { (i + C ≤ length b.now) × (i + N + C ≤ length w.old) × (R - 1 + C ≤ N) }
    ensures { Chunk P.places C N b.now i w.old w.new }
{
    let mut x = [0u8; C];
    for j in 0..C {
        x[j] = met::<P, R>(b, w, i + j);
    }
    for j in 0..C {
        w[i + N + j] = x[j];
    }
}

// Whether the sizes fit.
fn fitting<const R: usize, const C: usize, const N: usize, const M: usize>(
    b: &[u8],
    w: &[u8],
) -> bool
    ensures { IsTrue result ↔ Fit R C N M b.now w.now }
{
    0 < C
        && M % C == 0
        && C <= N
        && R.saturating_sub(1) <= N - C
        && b.len().checked_sub(M) == Some(N)
        && w.len().checked_sub(b.len()) == Some(N)
}

// Takes M of M + N bytes away. Where the sizes do not fit, the buffer stays as it is.
pub fn take_below<
    P: PlacesBelow<R>,
    const R: usize,
    const C: usize,
    const N: usize,
    const M: usize,
>(b: &[u8], w: &mut [u8])
    ensures taken { Fit R C N M b.now w.old → (head : List ℕ) → Ready N M head w.old → Taken P.places N M head b.now w.new M }
    ensures kept { ¬ Fit R C N M b.now w.old → w.new ≡ w.old }
{
    if !fitting::<R, C, N, M>(b, w) {
        return;
    }
    for k in 0..M / C {
        chunk::<P, R, C, N>(b, C * k, w);
    }
}

// Whether there are the bytes that are left, and all that meets them.
fn roomy<const R: usize, const N: usize, const M: usize>(b: &[u8], w: &[u8]) -> bool
    ensures { IsTrue result ↔ Room R N M b.now w.now }
{
    M <= b.len() && N <= b.len() - M && M + N <= w.len() && R.saturating_sub(1) <= w.len() - (M + N)
}

// The bytes that are left, each with those that meet it. Where a run is too short for that, zeros.
pub fn tail_below<P: PlacesBelow<R>, const R: usize, const N: usize, const M: usize>(
    b: &[u8],
    w: &[u8],
) -> [u8; N]
    ensures left { Room R N M b.now w.now → Tail P.places N M b.now w.now result }
    ensures none { ¬ Room R N M b.now w.now → result ≡ replicate N 0 }
{
    let mut t = [0u8; N];
    if roomy::<R, N, M>(b, w) {
        for j in 0..N {
            t[j] = met::<P, R>(b, w, M + j);
        }
    }
    t
}
