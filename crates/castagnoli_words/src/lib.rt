// Words of 64 bits modulo the generator of CRC-32C, the lowest bit first: each step moves one on by a fixed number of bits with a few shifts,
// and adds another. `high` has the low bits of a word, moved up; `low` the others; `both` the two together.
#![tactic(auto, using(crate::proofs::Steps::steps))]

ghost use Rattle.std.specs.Prelude.{◌≡◌};
ghost use Rattle.castagnoli_words.specs.Words.{rest, after, quad, half};

// A word moved on by 64 bits, and another added.
fn past_word(v: u64, added: u64) -> u64
    ensures { rest result ≡ after 64 (rest v) (rest added) }
{
    let high = v << 35;
    let low = v >> 29 << 29;
    let both = high ^ low;
    added
        ^ both >> 2
        ^ both >> 5
        ^ both >> 10
        ^ both >> 14
        ^ both >> 17
        ^ both >> 23
        ^ both >> 28
        ^ both >> 29
        ^ high >> 12
        ^ high >> 13
        ^ high >> 20
        ^ high >> 33
        ^ high >> 35
        ^ low >> 1
        ^ low >> 4
        ^ low >> 6
        ^ low >> 8
        ^ low >> 16
        ^ low >> 19
        ^ low >> 21
        ^ low >> 25
        ^ low >> 27
}

// A word moved on by 128 bits, and another added.
fn past_two_words(v: u64, added: u64) -> u64
    ensures { rest result ≡ after 128 (rest v) (rest added) }
{
    let high = v << 35;
    let low = v >> 29 << 29;
    let both = high ^ low;
    added
        ^ both >> 4
        ^ both >> 11
        ^ both >> 17
        ^ both >> 18
        ^ both >> 20
        ^ high >> 0
        ^ high >> 1
        ^ high >> 2
        ^ high >> 5
        ^ high >> 24
        ^ high >> 25
        ^ high >> 29
        ^ high >> 31
        ^ low >> 3
        ^ low >> 8
        ^ low >> 10
        ^ low >> 12
        ^ low >> 16
        ^ low >> 22
        ^ low >> 27
        ^ low >> 28
}

// A word moved on by a row of four words, 256 bits, and another added.
pub fn past_row(v: u64, added: u64) -> u64
    ensures { rest result ≡ after 256 (rest v) (rest added) }
{
    let high = v << 33;
    let low = v >> 31 << 31;
    let both = high ^ low;
    added
        ^ both >> 1
        ^ both >> 14
        ^ both >> 16
        ^ both >> 23
        ^ both >> 24
        ^ both >> 28
        ^ both >> 30
        ^ high >> 4
        ^ high >> 5
        ^ high >> 6
        ^ high >> 11
        ^ high >> 18
        ^ high >> 20
        ^ high >> 29
        ^ high >> 32
        ^ low >> 3
        ^ low >> 7
        ^ low >> 12
        ^ low >> 17
        ^ low >> 21
        ^ low >> 27
}

// A word that leaves what four words do that stand one after the other.
// Stays: `words::joined` is this line over other steps; a trait of those would be a type for each division, its ghost members and their clauses in place of one line.
pub fn joined(first: u64, second: u64, third: u64, fourth: u64) -> u64
    ensures { rest result ≡ quad (rest first) (rest second) (rest third) (rest fourth) }
{
    past_word(past_two_words(first, third), past_two_words(second, fourth))
}

// What the low 32 bits of a word leave: how often the generator goes into them, and what is left of its terms.
#[tactic(auto, using(crate::proofs::Ends::halves))]
fn half(v: u64) -> u64
    ensures { result ≡ half v }
{
    let x = v % 0x100000000;
    let quotient = (x
        ^ x << 4
        ^ x << 5
        ^ x << 6
        ^ x << 7
        ^ x << 8
        ^ x << 9
        ^ x << 12
        ^ x << 16
        ^ x << 17
        ^ x << 18
        ^ x << 21
        ^ x << 23
        ^ x << 25
        ^ x << 26
        ^ x << 27
        ^ x << 28
        ^ x << 30
        ^ x << 31)
        % 0x100000000;
    quotient
        ^ quotient >> 6
        ^ quotient >> 8
        ^ quotient >> 9
        ^ quotient >> 10
        ^ quotient >> 11
        ^ quotient >> 13
        ^ quotient >> 14
        ^ quotient >> 18
        ^ quotient >> 19
        ^ quotient >> 20
        ^ quotient >> 22
        ^ quotient >> 23
        ^ quotient >> 25
        ^ quotient >> 26
        ^ quotient >> 27
        ^ quotient >> 28
}

// What a word leaves.
pub fn end(v: u64) -> u32
    ensures { result ≡ rest v }
{
    (half(half(v) ^ v >> 32) % 0x100000000) as u32
}
