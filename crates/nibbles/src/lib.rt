// The end of a division: what a word leaves. Once, four bits at a time by ten tables of sixteen entries: they are lent, so that a caller makes
// them once, and what is promised holds of any. Once without a table, which is more to compute but goes for many words side by side.
#![tactic(auto)]

ghost use Rattle.std.specs.Prelude.{◌≡◌};
ghost use Rattle.words.specs.Words.{rest, act};
ghost use Rattle.nibbles.specs.Nibbles.{nearer, nibbles, looked};
ghost use Rattle.nibbles.specs.Quotients.{moving, quotient, multiple};

const NIBBLES: [u16; 160] = [
    0x0000, 0x8BB7, 0x9CD9, 0x176E, 0xB205, 0x39B2, 0x2EDC, 0xA56B, 0xEFBD, 0x640A, 0x7364, 0xF8D3,
    0x5DB8, 0xD60F, 0xC161, 0x4AD6, 0x0000, 0x54CD, 0xA99A, 0xFD57, 0xD883, 0x8C4E, 0x7119, 0x25D4,
    0x3AB1, 0x6E7C, 0x932B, 0xC7E6, 0xE232, 0xB6FF, 0x4BA8, 0x1F65, 0x0000, 0x7562, 0xEAC4, 0x9FA6,
    0x5E3F, 0x2B5D, 0xB4FB, 0xC199, 0xBC7E, 0xC91C, 0x56BA, 0x23D8, 0xE241, 0x9723, 0x0885, 0x7DE7,
    0x0000, 0xF34B, 0x6D21, 0x9E6A, 0xDA42, 0x2909, 0xB763, 0x4428, 0x3F33, 0xCC78, 0x5212, 0xA159,
    0xE571, 0x163A, 0x8850, 0x7B1B, 0x0000, 0x7E66, 0xFCCC, 0x82AA, 0x722F, 0x0C49, 0x8EE3, 0xF085,
    0xE45E, 0x9A38, 0x1892, 0x66F4, 0x9671, 0xE817, 0x6ABD, 0x14DB, 0x0000, 0x430B, 0x8616, 0xC51D,
    0x879B, 0xC490, 0x018D, 0x4286, 0x8481, 0xC78A, 0x0297, 0x419C, 0x031A, 0x4011, 0x850C, 0xC607,
    0x0000, 0x82B5, 0x8EDD, 0x0C68, 0x960D, 0x14B8, 0x18D0, 0x9A65, 0xA7AD, 0x2518, 0x2970, 0xABC5,
    0x31A0, 0xB315, 0xBF7D, 0x3DC8, 0x0000, 0xC4ED, 0x026D, 0xC680, 0x04DA, 0xC037, 0x06B7, 0xC25A,
    0x09B4, 0xCD59, 0x0BD9, 0xCF34, 0x0D6E, 0xC983, 0x0F03, 0xCBEE, 0x0000, 0x1368, 0x26D0, 0x35B8,
    0x4DA0, 0x5EC8, 0x6B70, 0x7818, 0x9B40, 0x8828, 0xBD90, 0xAEF8, 0xD6E0, 0xC588, 0xF030, 0xE358,
    0x0000, 0xBD37, 0xF1D9, 0x4CEE, 0x6805, 0xD532, 0x99DC, 0x24EB, 0xD00A, 0x6D3D, 0x21D3, 0x9CE4,
    0xB80F, 0x0538, 0x49D6, 0xF4E1,
];

// The tables, compared with their rule here, once for all their entries.
pub fn nibble_table() -> [u16; 160]
    ensures { result ≡ nibbles }
{
    NIBBLES
}

// A word whose lowest 40 bits leave what the whole leaves.
fn near(v: u64) -> u64
    ensures { result ≡ act nearer v }
{
    let high = v >> 40;
    let low = v % 0x10000000000;
    low ^ high << 1 ^ high << 8 ^ high << 11 ^ high << 16
}

// What tables make of the lowest 40 bits of a word.
#[tactic(auto, unfolding(crate::specs::Nibbles::looked))]
fn look(tables: &[u16; 160], v: u64) -> u16
    ensures { result ≡ looked 10 tables.now v }
{
    let mut found = 0;
    for i in 0..10 {
        found ^= tables[16 * i + ((v >> (4 * i)) % 16) as usize];
    }
    found
}

// What tables make of a word that was made 40 bits.
pub fn end(tables: &[u16; 160], v: u64) -> u16
    ensures { result ≡ looked 10 tables.now (act nearer v) }
{
    look(tables, near(v))
}

// A word moved on by 16 bits.
fn moved(v: u64) -> u64
    ensures { result ≡ act moving v }
{
    let high = v >> 48;
    v << 16 ^ high << 25 ^ high << 32 ^ high << 35 ^ high << 40
}

// How often the generator goes into 40 bits: the lowest 16 bits of it.
fn times(v: u64) -> u64
    ensures { result ≡ act quotient v }
{
    let above = v >> 16;
    let once = above ^ above << 1;
    let all = once ^ once << 5;
    (all >> 24
        ^ all >> 22
        ^ all >> 21
        ^ all >> 19
        ^ all >> 18
        ^ all >> 14
        ^ all >> 10
        ^ all >> 8
        ^ all >> 6)
        % 65536
}

// So many times the generator, in the lowest 16 bits.
fn generators(n: u64) -> u64
    ensures { result ≡ act multiple n }
{
    let some = n ^ n << 7;
    some ^ some << 1 ^ some << 2 ^ some << 4 ^ some << 5 ^ some << 12 ^ some << 15
}

// What a word leaves, without a table.
pub fn left(v: u64) -> u16
    ensures { result ≡ rest v }
{
    let z = near(moved(v));
    ((z ^ generators(times(z))) % 65536) as u16
}
