// The bytes at the head of an image: their length, a version, and the array's numbers. A reader hands in as many of them as came.
ghost use Rattle.std.specs.Prelude.{◌≡◌, ◌-◌, ◌≤◌, ◌&&◌, eqb, leb, length, get_or, take, drop};
ghost use Rattle.refusal.specs.Refusals.{told};
ghost use Rattle.tag.specs.Numbers.{number_of};
ghost use Rattle.lines.specs.Headers.{form_of, header_form, known, header_size, later, array_in, header_refusal};

use layout::Array;
use refusal::{Refusal, demand};

// Room for the longest header.
pub const HEADER: usize = 15;

// What a version's header has after the volume: bytes of stripes, and later numbers of a byte each.
#[derive(Clone, Copy)]
pub struct Form {
    pub wide: usize,
    pub more: usize,
}

// The table of the versions: a row for each. Any other version has no bytes of stripes.
fn form_of(version: u8) -> Form
    ensures { result ≡ form_of version }
{
    match version {
        1 => Form { wide: 4, more: 0 },
        2 => Form { wide: 4, more: 1 },
        3 => Form { wide: 4, more: 2 },
        4 => Form { wide: 8, more: 2 },
        _ => Form { wide: 0, more: 0 },
    }
}

// The byte at a place; 0 where it has not come.
fn byte(header: &[u8], at: usize) -> u8
    ensures { result ≡ get_or header.now at 0 }
{
    header.get(at).copied().unwrap_or(0)
}

// The bytes from a place on, `count` of them or as many as came.
fn part(header: &[u8], at: usize, count: usize) -> &[u8]
    ensures { result.now ≡ take count (drop at header.now) }
{
    let rest = header.get(at..).unwrap_or(&[]);
    rest.get(..count).unwrap_or(rest)
}

// The number in those bytes.
fn number_at(header: &[u8], at: usize, count: usize) -> u64
    requires { count ≤ 8 }
    ensures { result ≡ number_of (take count (drop at header.now)) }
{
    tag::number_of(part(header, at, count))
}

// The form of the header that begins so.
fn form_in(header: &[u8]) -> Form
    ensures { result ≡ header_form header.now }
{
    form_of(byte(header, 2))
}

// One of the later numbers of a header; 1 where its version does not tell it.
fn later(header: &[u8], k: usize) -> u8
    ensures { result ≡ later header.now k }
{
    let form = form_in(header);
    if k < form.more {
        byte(header, 5 + form.wide + k)
    } else {
        1
    }
}

// The array's numbers in a header.
pub fn array_in(header: &[u8]) -> Array
    ensures { result ≡ array_in header.now }
{
    let members = byte(header, 3);
    let stripes = number_at(header, 5, form_in(header).wide);
    let volume = byte(header, 4);
    let method = later(header, 0);
    let row = later(header, 1);
    layout::array_of(usize::from(members), stripes, volume, method, row)
}

// How many bytes the header has that begins so; 3 where its version has not come, or is in no row.
pub fn header_size(header: &[u8]) -> usize
    ensures { result ≡ header_size header.now }
{
    let form = form_in(header);
    if form.wide == 0 {
        3
    } else {
        5 + form.wide + form.more
    }
}

// Whether a header is whole: its version is in a row, all its bytes came, and the first two say how many follow them.
fn is_whole(header: &[u8]) -> bool
    ensures { result ≡ known (header_form header.now) && leb (header_size header.now) (length header.now) && eqb (number_of (take 2 header.now)) (header_size header.now - 2) }
{
    let size = header_size(header);
    form_in(header).wide != 0 && size <= header.len() && number_at(header, 0, 2) == size as u64 - 2
}

// Refuses a header, or as much of it as came.
pub fn check_header(header: &[u8]) -> Result<(), Refusal>
    ensures { told result ≡ header_refusal header.now }
{
    demand(is_whole(header), Refusal::Header)?;
    layout::check_array(array_in(header))
}
