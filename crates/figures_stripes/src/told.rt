// What is told of a stripe: its tags, how its first block reads, and what both scrubs say.
use figures_text::{four_digits, named, refused, two_digits};
use layout::Array;
use std::io;
use std::io::Write;
use stripe::Reading;
use tag::pair;
use verdict::{Compared, Verdict};

// The tags of the three members.
pub fn tags(out: &mut impl Write, method: u8, bytes: &[u8]) -> io::Result<()> {
    if method == 3 {
        tag(out, b"member 0                    ", bytes, 4096, 4112)?;
        tag(out, b"member 1                    ", bytes, 8208, 8224)?;
        return tag(out, b"member 2                    ", bytes, 12320, 12336);
    }
    tag(out, b"member 0                    ", bytes, 512, 520)?;
    tag(out, b"member 1                    ", bytes, 1032, 1040)?;
    tag(out, b"member 2                    ", bytes, 1552, 1560)
}

// One line: a member, and the bytes of its tag, which end before `end`.
fn tag(
    out: &mut impl Write,
    member: &[u8],
    bytes: &[u8],
    start: usize,
    end: usize,
) -> io::Result<()> {
    out.write_all(member)?;
    for byte in bytes.iter().take(end).skip(start) {
        out.write_all(&two_digits(*byte))?;
    }
    out.write_all(b"\n")
}

// How block 0 reads, and its last byte.
pub fn reading(out: &mut impl Write, array: Array, bytes: &[u8]) -> io::Result<()> {
    let mut block = [0u8; 4096];
    if array.method == 3 {
        return read_into(out, array, bytes, &mut block);
    }
    read_into(out, array, bytes, &mut block[0..512])
}

fn read_into(out: &mut impl Write, array: Array, bytes: &[u8], block: &mut [u8]) -> io::Result<()> {
    out.write_all(b"block 0 reads                ")?;
    let read = stripe::read(array, 0, bytes, block);
    let last = u64::from(last_of(block));
    match read {
        Ok(Reading::Stored) => named(out, b"stored, last byte ", last)?,
        Ok(Reading::Rebuilt) => named(out, b"rebuilt, last byte ", last)?,
        Ok(Reading::Unchecked) => named(out, b"unchecked, last byte ", last)?,
        Err(refusal) => refused(out, refusal)?,
    }
    out.write_all(b"\n")
}

fn last_of(bytes: &[u8]) -> u8 {
    bytes.last().copied().unwrap_or(0)
}

// The verdict of the full scrub.
pub fn verdict(out: &mut impl Write, array: Array, bytes: &[u8]) -> io::Result<()> {
    out.write_all(b"scrub                        ")?;
    match stripe::scrub(array, 0, bytes) {
        Ok(found) => finding(out, found)?,
        Err(refusal) => refused(out, refusal)?,
    }
    out.write_all(b"\n")
}

fn finding(out: &mut impl Write, found: Verdict) -> io::Result<()> {
    match found {
        Verdict::Clean => out.write_all(b"clean"),
        Verdict::Bad {
            member,
            count,
            faults,
        } => {
            named(out, b"bad, member ", member as u64)?;
            named(out, b" count ", count as u64)?;
            named(out, b" faults ", u64::from(faults))
        }
        Verdict::Torn { place } => named(out, b"torn, place ", place as u64),
        Verdict::Unchecked { member, count } => {
            named(out, b"unchecked, member ", member as u64)?;
            named(out, b" count ", count as u64)
        }
    }
}

// The guard that stands in a tag.
fn stored(bytes: &[u8], at: u16) -> u16 {
    let from = usize::from(at);
    pair(byte_at(bytes, from), byte_at(bytes, from + 1))
}

fn byte_at(bytes: &[u8], at: usize) -> u8 {
    bytes.get(at).copied().unwrap_or(0)
}

// The quick scrub of the three stored guards.
pub fn quick(out: &mut impl Write, bytes: &[u8]) -> io::Result<()> {
    out.write_all(b"quick scrub                  ")?;
    let guards = [stored(bytes, 512), stored(bytes, 1032), stored(bytes, 1552)];
    match verdict::quick_scrub(&guards) {
        Ok(Compared::Fits) => out.write_all(b"fits")?,
        Ok(Compared::Differs { combination }) => {
            out.write_all(b"differs ")?;
            out.write_all(&four_digits(combination))?;
        }
        Err(refusal) => refused(out, refusal)?,
    }
    out.write_all(b"\n")
}
