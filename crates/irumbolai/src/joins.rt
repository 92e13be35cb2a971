// Guards from guards and lengths, for C.
ghost use Rattle.std.specs.Prelude.{◌≡◌};
ghost use Rattle.join.specs.Joins.{add_zeros, remove_zeros, combine, join};

// The guard of two runs joined.
#[unsafe(no_mangle)]
pub extern "C" fn irumbolai_join(a: u16, b: u16, length_of_b: u32) -> u16
    ensures { result ≡ join a b length_of_b }
{
    join::join(a, b, length_of_b)
}

// The guard of a run with n zero bytes after it.
#[unsafe(no_mangle)]
pub extern "C" fn irumbolai_add_zeros(guard: u16, n: u32) -> u16
    ensures { result ≡ add_zeros guard n }
{
    join::add_zeros(guard, n)
}

// The guard of a run before n zero bytes were added to it.
#[unsafe(no_mangle)]
pub extern "C" fn irumbolai_remove_zeros(guard: u16, n: u32) -> u16
    ensures { result ≡ remove_zeros guard n }
{
    join::remove_zeros(guard, n)
}

// The guard of two equally long runs combined.
#[unsafe(no_mangle)]
pub extern "C" fn irumbolai_combine(a: u16, b: u16) -> u16
    ensures { result ≡ combine a b }
{
    join::combine(a, b)
}
