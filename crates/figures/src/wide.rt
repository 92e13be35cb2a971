// CRC-32C: the examples of RFC 3720, and the quick scrub of guards of blocks of 4,096 bytes.
use figures_text::{four_digits, refused};
use std::io;
use std::io::Write;
use verdict::Compared;

// An iSCSI read command.
const COMMAND: [u8; 48] = [
    0x01, 0xC0, 0x00, 0x00, 0x00, 0x00, 0x00, 0x00, 0x00, 0x00, 0x00, 0x00, 0x00, 0x00, 0x00, 0x00,
    0x14, 0x00, 0x00, 0x00, 0x00, 0x00, 0x04, 0x00, 0x00, 0x00, 0x00, 0x14, 0x00, 0x00, 0x00, 0x18,
    0x28, 0x00, 0x00, 0x00, 0x00, 0x00, 0x00, 0x00, 0x02, 0x00, 0x00, 0x00, 0x00, 0x00, 0x00, 0x00,
];

pub fn published(out: &mut impl Write) -> io::Result<()> {
    out.write_all(b"\nCRC-32C of                   is\n")?;
    row(out, b"no bytes                     ", b"")?;
    row(out, b"00, 32 times                 ", &[0x00; 32])?;
    row(out, b"FF, 32 times                 ", &[0xFF; 32])?;
    row(
        out,
        b"00 to 1F                     ",
        b"\x00\x01\x02\x03\x04\x05\x06\x07\x08\x09\x0A\x0B\x0C\x0D\x0E\x0F\x10\x11\x12\x13\x14\x15\x16\x17\x18\x19\x1A\x1B\x1C\x1D\x1E\x1F",
    )?;
    row(
        out,
        b"1F down to 00                ",
        b"\x1F\x1E\x1D\x1C\x1B\x1A\x19\x18\x17\x16\x15\x14\x13\x12\x11\x10\x0F\x0E\x0D\x0C\x0B\x0A\x09\x08\x07\x06\x05\x04\x03\x02\x01\x00",
    )?;
    row(out, b"an iSCSI read command        ", &COMMAND)?;
    row(out, b"the characters 123456789     ", b"123456789")
}

// Three blocks and four that combine to zeros, and as many that do not; guards of 0, which three blocks of zeros have not; too few guards.
pub fn scrubs(out: &mut impl Write) -> io::Result<()> {
    let blank = ending(0);
    let one = ending(1);
    let two = ending(2);
    let three = ending(3);
    out.write_all(b"\nguard of 4096 bytes          is\n")?;
    guard(out, b"zeros                        ", blank)?;
    guard(out, b"zeros, 01 last               ", one)?;
    guard(out, b"zeros, 02 last               ", two)?;
    guard(out, b"zeros, 03 last               ", three)?;
    out.write_all(b"quick scrub of               is\n")?;
    quick(out, b"01, 02, 03                   ", &[one, two, three])?;
    quick(
        out,
        b"01, 02, 03, zeros            ",
        &[one, two, three, blank],
    )?;
    quick(out, b"01, 02, 02                   ", &[one, two, two])?;
    quick(
        out,
        b"01, 02, 02, zeros            ",
        &[one, two, two, blank],
    )?;
    quick(out, b"three guards of 0            ", &[0, 0, 0])?;
    quick(out, b"two guards                   ", &[one, two])
}

// The guard of a block of zeros but for its last byte.
fn ending(last: u8) -> u32 {
    let mut block = [0u8; 4096];
    block[4095] = last;
    castagnoli_fold::crc32c(&block)
}

// One line: what is given, and its CRC-32C.
// Stays: `row` of guards.rt but for the guard and its digits; a function of both would be handed these two, and be no plainer.
fn row(out: &mut impl Write, given: &[u8], bytes: &[u8]) -> io::Result<()> {
    guard(out, given, castagnoli_fold::crc32c(bytes))
}

fn guard(out: &mut impl Write, given: &[u8], guard: u32) -> io::Result<()> {
    out.write_all(given)?;
    eight_digits(out, guard)?;
    out.write_all(b"\n")
}

// A number in eight hexadecimal digits.
fn eight_digits(out: &mut impl Write, number: u32) -> io::Result<()> {
    out.write_all(&four_digits((number / 65536) as u16))?;
    out.write_all(&four_digits((number % 65536) as u16))
}

// One line: whose guards are given, and what the quick scrub says of them.
fn quick(out: &mut impl Write, given: &[u8], guards: &[u32]) -> io::Result<()> {
    out.write_all(given)?;
    match verdict::quick_scrub_wide(guards) {
        Ok(Compared::Fits) => out.write_all(b"fits")?,
        Ok(Compared::Differs { combination }) => {
            out.write_all(b"differs ")?;
            eight_digits(out, combination)?;
        }
        Err(refusal) => refused(out, refusal)?,
    }
    out.write_all(b"\n")
}
