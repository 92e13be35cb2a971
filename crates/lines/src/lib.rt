// The lines of a report, each written from the start of a lent buffer, and the header of an image.
#![tactic(auto)]

mod header;
mod stage;
mod tally;

ghost use Rattle.std.specs.Prelude.{◌≡◌, ◌++◌, ◌+◌, ◌≤◌, cond, length};
ghost use Rattle.verdict.specs.Verdicts.{verdict_numbers};
ghost use Rattle.lines.specs.Text.{Written, decimal, letters, blank, line_end};
ghost use Rattle.lines.specs.Parts.{text};
ghost use Rattle.lines.specs.Lines.{line_room, fitting, first_line, stripe_line, lost_line, total_line, refused_line};

pub use header::{HEADER, array_in, check_header, header_size};
use layout::Array;
pub use stage::Stage;
pub use tally::Tally;
use verdict::Verdict;

// Bytes of room that any line has enough of; with less a line is not written, and 0 is answered.
pub const ROOM: usize = 160;

// A part of a line: bytes as they are, or a number in decimal.
#[derive(Clone, Copy)]
enum Part<'a> {
    Bytes(&'a [u8]),
    Decimal(u64),
}

// Copies `bytes` into `out` from a place on, and answers the place behind them.
fn put(out: &mut [u8], at: usize, bytes: &[u8]) -> usize
    requires { at + length bytes.now ≤ length out.old }
    ensures { Written out.old at bytes.now out.new result }
{
    copy::put(out, at, bytes);
    at + bytes.len()
}

// Writes a number in decimal, which is at most twenty digits.
fn number(out: &mut [u8], at: usize, n: u64) -> usize
    requires { at + length (decimal n) ≤ length out.old }
    ensures { Written out.old at (decimal n) out.new result }
{
    let mut digits = [0u8; 20];
    let count = io::decimal(n, &mut digits);
    put(out, at, &digits[..count])
}

// Writes a line, part by part, where there is room for any line.
fn write(out: &mut [u8], parts: &[Part]) -> usize
    requires { length (text parts.now) ≤ line_room }
    ensures { Written out.old 0 (fitting (length out.old) (text parts.now)) out.new result }
{
    if out.len() < ROOM {
        return 0;
    }
    let mut at = 0;
    for part in parts {
        at = match *part {
            Part::Bytes(bytes) => put(out, at, bytes),
            Part::Decimal(n) => number(out, at, n),
        };
    }
    at
}

// A letter where a field is at fault, a dash where it is not.
fn letter(fault: bool, capital: u8) -> u8
    ensures { result ≡ cond fault capital 0x2D }
{
    if fault { capital } else { b'-' }
}

// The end of a bad stripe's line: the letters of the fields that are not those due.
fn bad_ending(faults: u8) -> [u8; 5]
    ensures { result ≡ blank ++ letters faults ++ line_end }
{
    let guard = letter(faults / 4 % 2 == 1, b'G');
    let application = letter(faults / 2 % 2 == 1, b'A');
    let reference = letter(faults % 2 == 1, b'R');
    [b' ', guard, application, reference, b'\n']
}

// The first line: the eight bytes that every report begins with, unless its header is refused, and the array's members and stripes.
pub fn first_line(out: &mut [u8], array: Array) -> usize
    ensures { Written out.old 0 (fitting (length out.old) (first_line array)) out.new result }
{
    let parts = [
        Part::Bytes(b"SCRUB v1"),
        Part::Bytes(b" members "),
        Part::Decimal(array.members as u64),
        Part::Bytes(b" stripes "),
        Part::Decimal(array.stripes),
        Part::Bytes(b"\n"),
    ];
    write(out, &parts)
}

// The line of a stripe: its verdict, with the member, the count and the member's faults, or the place.
pub fn stripe_line(out: &mut [u8], stripe: u64, verdict: Verdict) -> usize
    ensures { Written out.old 0 (fitting (length out.old) (stripe_line stripe (verdict_numbers verdict))) out.new result }
{
    match verdict {
        Verdict::Clean => {
            let parts = [Part::Decimal(stripe), Part::Bytes(b" CLEAN\n")];
            write(out, &parts)
        }
        Verdict::Bad {
            member,
            count,
            faults,
        } => {
            let ending = bad_ending(faults);
            let parts = [
                Part::Decimal(stripe),
                Part::Bytes(b" BAD "),
                Part::Decimal(member as u64),
                Part::Bytes(b" "),
                Part::Decimal(count as u64),
                Part::Bytes(&ending),
            ];
            write(out, &parts)
        }
        Verdict::Unchecked { member, count } => {
            let parts = [
                Part::Decimal(stripe),
                Part::Bytes(b" UNCHECKED "),
                Part::Decimal(member as u64),
                Part::Bytes(b" "),
                Part::Decimal(count as u64),
                Part::Bytes(b"\n"),
            ];
            write(out, &parts)
        }
        Verdict::Torn { place } => {
            let parts = [
                Part::Decimal(stripe),
                Part::Bytes(b" TORN "),
                Part::Decimal(place as u64),
                Part::Bytes(b"\n"),
            ];
            write(out, &parts)
        }
    }
}

// The line of a stripe that a repair has to leave as it is.
pub fn lost_line(out: &mut [u8], stripe: u64) -> usize
    ensures { Written out.old 0 (fitting (length out.old) (lost_line stripe)) out.new result }
{
    let parts = [Part::Decimal(stripe), Part::Bytes(b" LOST\n")];
    write(out, &parts)
}

// The last line: how many stripes there are, and how many of them were clean, bad, unchecked and torn.
pub fn total_line(out: &mut [u8], array: Array, tally: Tally) -> usize
    ensures { Written out.old 0 (fitting (length out.old) (total_line array tally)) out.new result }
{
    let parts = [
        Part::Bytes(b"TOTAL "),
        Part::Decimal(array.stripes),
        Part::Bytes(b" clean "),
        Part::Decimal(tally.clean),
        Part::Bytes(b" bad "),
        Part::Decimal(tally.bad),
        Part::Bytes(b" unchecked "),
        Part::Decimal(tally.unchecked),
        Part::Bytes(b" torn "),
        Part::Decimal(tally.torn),
        Part::Bytes(b"\n"),
    ];
    write(out, &parts)
}

// The line of a refusal.
pub fn refused_line(out: &mut [u8], refusal: u8) -> usize
    ensures { Written out.old 0 (fitting (length out.old) (refused_line refusal)) out.new result }
{
    let parts = [
        Part::Bytes(b"REFUSED "),
        Part::Decimal(u64::from(refusal)),
        Part::Bytes(b"\n"),
    ];
    write(out, &parts)
}
