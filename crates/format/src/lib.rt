// The formats of a block by their method numbers: their lengths, where a byte of a block goes, and their guards. Method 1 has the CRC, method 2 the
// checksum, method 3 large blocks with CRC-32C; any other number means method 1.
#![tactic(auto)]

mod packing;
mod positions;

ghost use Rattle.std.specs.Prelude.{◌≡◌, ◌≢◌, ◌*◌, ◌/◌, ◌%◌};
ghost use Rattle.format.specs.Formats.{guard, settled, reference_of, guards_of};
ghost use Rattle.format.specs.Kinds.{format_by};
ghost use Rattle.format.specs.Methods.{format_of};

pub use packing::{most_value, register_of, value_in, waiting_in};
use packing::{packed, unpacked};
pub use positions::{data_room, part_at, tag_place};

// The kinds of format: small blocks with the CRC or with the checksum, and large ones.
#[derive(Clone, Copy, Debug, PartialEq, Eq)]
enum Kind {
    Crc,
    Checksum,
    Large,
}

// What a method number means.
// Stays: a method is a number for callers, as an array's numbers are taken as they are handed in: 12 refuses one that is none, and every function promises an answer for it.
fn kind_of(method: u8) -> Kind
    ensures { format_by result ≡ format_of method }
{
    match method {
        2 => Kind::Checksum,
        3 => Kind::Large,
        _ => Kind::Crc,
    }
}

// The guard of a large block of zeros.
const BLANK: u32 = 0x98F94189;

// The most bytes of data, and of the tags of sixteen blocks, that any format has: room for those of each.
pub const MOST_DATA: usize = 4096;

pub const MOST_TAGS: usize = 256;

// Bytes of a tag in most formats.
pub const USUAL_TAG: usize = 8;

// Bytes of a piece: data are whole pieces, in every format.
pub const PIECE: usize = 512;

// What a byte of a block is, with its place among the bytes of its kind.
#[derive(Clone, Copy, Debug, PartialEq, Eq)]
pub enum Part {
    Data { at: usize },
    Guard { at: usize },
    Application { at: usize },
    Reference { at: usize },
    Past,
}

// Bytes of data in a block, of tag after them, and a quarter of the tag.
#[derive(Clone, Copy, Debug, PartialEq, Eq)]
struct Lengths {
    data: usize,
    tag: usize,
    quarter: usize,
}

const SMALL: Lengths = Lengths {
    data: 512,
    tag: 8,
    quarter: 2,
};

const LARGE: Lengths = Lengths {
    data: 4096,
    tag: 16,
    quarter: 4,
};

fn lengths_of(method: u8) -> Lengths
    ensures data_is { result.data ≡ (format_of method).data_length }
    ensures tag_is { result.tag ≡ (format_of method).tag_length }
    ensures quarter_is { result.quarter ≡ (format_of method).quarter }
{
    match kind_of(method) {
        Kind::Crc | Kind::Checksum => SMALL,
        Kind::Large => LARGE,
    }
}

// The same, and the bytes of a block.
pub fn data_length(method: u8) -> usize
    ensures { result ≡ (format_of method).data_length }
{
    lengths_of(method).data
}

pub fn tag_length(method: u8) -> usize
    ensures { result ≡ (format_of method).tag_length }
{
    lengths_of(method).tag
}

pub fn quarter(method: u8) -> usize
    ensures { result ≡ (format_of method).quarter }
{
    lengths_of(method).quarter
}

pub fn block_length(method: u8) -> usize
    ensures { result ≡ (format_of method).block_length }
{
    let of = lengths_of(method);
    of.data + of.tag
}

// An application tag of two bytes, as the number that its field holds.
pub fn scaled(method: u8, application: u16) -> u64
    ensures { result ≡ application * (format_of method).scale }
{
    match kind_of(method) {
        Kind::Crc | Kind::Checksum => u64::from(application),
        Kind::Large => u64::from(application) * 65536,
    }
}

// The two bytes of an application tag, from the number that its field holds.
pub fn unscaled(method: u8, application: u64) -> u64
    ensures { result ≡ application / (format_of method).scale }
{
    match kind_of(method) {
        Kind::Crc | Kind::Checksum => application,
        Kind::Large => application / 65536,
    }
}

// The reference tag of a block number: all of it in a large block's tag, else its low thirty-two bits.
pub fn reference(method: u8, block: u64) -> u64
    ensures { result ≡ reference_of (format_of method) block }
{
    match kind_of(method) {
        Kind::Crc | Kind::Checksum => block % 4294967296,
        Kind::Large => block,
    }
}

// Whether the parity's tag holds what the data members' guards combine to; else it holds the guard of its own data.
pub fn carries(method: u8) -> bool
    ensures { result ≡ (format_of method).carries }
{
    kind_of(method) == Kind::Checksum
}

// The guard of a large block of zeros for an odd number of members, nothing for an even one.
fn blank_if_odd(members: usize) -> u32
    ensures { result ≡ 0x98F94189 * (members % 2) }
{
    if members % 2 == 0 { 0 } else { BLANK }
}

// What the guards in the tags of so many members combine to where their data combine to zero.
pub fn settled(method: u8, members: usize) -> u32
    ensures { result ≡ settled (format_of method) members }
{
    match kind_of(method) {
        Kind::Crc | Kind::Checksum => 0,
        Kind::Large => blank_if_odd(members),
    }
}

// Whether a byte may wait for its pair at a position of a block.
pub fn waits(method: u8, position: usize) -> bool
    ensures { result ≡ (format_of method).waits position }
{
    match kind_of(method) {
        Kind::Checksum => position % 2 == 1 && position < 512,
        Kind::Crc | Kind::Large => false,
    }
}

// The guard of some data.
pub fn guard(method: u8, bytes: &[u8]) -> u32
    ensures { result ≡ guard (format_of method) bytes.now }
{
    match kind_of(method) {
        Kind::Crc => u32::from(fold::guard(bytes)),
        Kind::Checksum => u32::from(checksum::checksum(bytes)),
        Kind::Large => castagnoli_fold::crc32c(bytes),
    }
}

// The same sixteen numbers, wider.
fn widened(narrow: [u16; 16]) -> [u32; 16]
    ensures { result ≡ narrow }
{
    narrow.map(|guard| u32::from(guard))
}

// The guards of sixteen runs where they have sixteen bits.
fn narrow_guards(kind: Kind, bytes: &[u8], stride: usize) -> [u16; 16]
    requires { kind ≢ Kind.Large }
    ensures { result ≡ guards_of (format_by kind) 16 stride bytes.now }
{
    match kind {
        Kind::Crc => fold::guards(bytes, stride),
        Kind::Checksum => checksum::checksums(bytes, stride),
        Kind::Large => unreachable!(),
    }
}

// The guards of sixteen runs of data, each `stride` bytes after the one before. What lies past the end has no bytes. They are made wider in one
// place: in two, the compiler makes more of it, and every job on a stripe takes longer.
pub fn guards(method: u8, bytes: &[u8], stride: usize) -> [u32; 16]
    ensures { result ≡ guards_of (format_of method) 16 stride bytes.now }
{
    match kind_of(method) {
        Kind::Large => castagnoli_fold::guards(bytes, stride),
        kind => widened(narrow_guards(kind, bytes, stride)),
    }
}

// Where a register starts.
pub fn start(method: u8) -> u32
    ensures { result ≡ (format_of method).start }
{
    match kind_of(method) {
        Kind::Crc => 0,
        Kind::Checksum => 0xFFFF,
        Kind::Large => castagnoli::start(),
    }
}

// A register after bytes of data from a position on. Where there are none it stays, also one that is past the method's limit.
pub fn advance(method: u8, at: usize, register: u32, bytes: &[u8]) -> u32
    ensures { result ≡ (format_of method).advance at register bytes.now }
{
    if bytes.is_empty() {
        return register;
    }
    match kind_of(method) {
        Kind::Crc => u32::from(fold::run((register % 65536) as u16, bytes)),
        Kind::Checksum => packed(checksum::advance(at, unpacked(register), bytes)),
        Kind::Large => castagnoli_fold::advance(register, bytes),
    }
}

// The guard that a register gives.
// Stays: the numbers and no `Kind`, measured: with it a finish takes up to 1.3 of what it takes, its loads of a tag's bytes no more joined to one.
pub fn guard_of(method: u8, register: u32) -> u32
    ensures { result ≡ (format_of method).guard_of register }
{
    match method {
        2 => register % 65536,
        3 => castagnoli::guard_of(register),
        _ => register,
    }
}
