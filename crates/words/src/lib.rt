// Words of 64 bits modulo the generator: each step moves one on by a fixed number of bits with a few shifts, and adds another.
#![tactic(auto, using(crate::proofs::Steps::steps))]

ghost use Rattle.std.specs.Prelude.{◌≡◌};
ghost use Rattle.words.specs.Words.{rest, after, act};
ghost use Rattle.words.specs.Steps.{turning, quad};

// A word moved on by 64 bits, and another added.
pub fn past_word(v: u64, added: u64) -> u64
    ensures { rest result ≡ after 64 (rest v) (rest added) }
{
    let high = v >> 37;
    let low = v % 0x2000000000;
    let both = high ^ low;
    both << 12 ^ both << 26 ^ both << 27 ^ high << 33 ^ high << 35 ^ low << 3 ^ added
}

// A word moved on by 128 bits, and another added.
fn past_two_words(v: u64, added: u64) -> u64
    ensures { rest result ≡ after 128 (rest v) (rest added) }
{
    let high = v >> 47;
    let low = v % 0x800000000000;
    let both = high ^ low;
    both << 13 ^ both << 15 ^ high << 12 ^ high << 42 ^ low << 4 ^ added
}

// A word moved on by 256 bits, and another added.
pub fn past_row(v: u64, added: u64) -> u64
    ensures { rest result ≡ after 256 (rest v) (rest added) }
{
    let high = v >> 34;
    let low = v % 0x400000000;
    let both = high ^ low;
    both << 30 ^ high << 2 ^ high << 25 ^ high << 34 ^ low << 8 ^ low << 26 ^ added
}

// A word moved on by 512 bits, and another added.
pub fn past_two_rows(v: u64, added: u64) -> u64
    ensures { rest result ≡ after 512 (rest v) (rest added) }
{
    let high = v >> 23;
    let low = v % 0x800000;
    let both = high ^ low;
    both ^ both << 16 ^ both << 19 ^ high << 14 ^ high << 23 ^ low << 8 ^ low << 24 ^ added
}

// A word moved on by 1024 bits, and another added.
pub fn past_four_rows(v: u64, added: u64) -> u64
    ensures { rest result ≡ after 1024 (rest v) (rest added) }
{
    let high = v >> 36;
    let low = v % 0x1000000000;
    high ^ high << 1 ^ high << 35 ^ low << 4 ^ low << 6 ^ low << 16 ^ low << 25 ^ added
}

// A word moved on by 1536 bits, and another added.
pub fn past_six_rows(v: u64, added: u64) -> u64
    ensures { rest result ≡ after 1536 (rest v) (rest added) }
{
    let high = v >> 43;
    let low = v % 0x80000000000;
    let both = high ^ low;
    both << 3 ^ both << 6 ^ high ^ low << 12 ^ low << 21 ^ added
}

// A word that leaves what four words do that stand one after the other.
pub fn joined(first: u64, second: u64, third: u64, fourth: u64) -> u64
    ensures { rest result ≡ quad (rest first) (rest second) (rest third) (rest fourth) }
{
    past_word(past_two_words(first, third), past_two_words(second, fourth))
}

// A word with its bytes in the other order.
#[tactic(auto, using(crate::proofs::Bytes::turns))]
pub fn turned(v: u64) -> u64
    ensures { result ≡ act turning v }
{
    v.swap_bytes()
}
