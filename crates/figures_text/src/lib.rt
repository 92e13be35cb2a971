// Numbers as the programs of figures print them.
#![tactic(auto)]

ghost use Rattle.std.specs.Prelude.{◌≡◌, ◌++◌, OnOk, codes, decimal};
ghost use Rattle.std.specs.Io.KnownBytes.{Appends};
ghost use Rattle.refusal.specs.Refusals.{number};
ghost use Rattle.figures_text.specs.Text.{digit, four_digits, guard_line, two_digits};

use refusal::Refusal;
use std::io;
use std::io::Write;

// A name, and a decimal number after it.
/// After an error the writer may hold a beginning of it.
pub fn named<W: Write>(out: &mut W, name: &[u8], number: u64) -> io::Result<()>
    ensures { OnOk result (Appends (W.contents out.old) (W.contents out.new) (name.now ++ decimal number)) }
{
    out.write_all(name)?;
    write!(out, "{number}")
}

// The number of a refusal, with its name.
/// After an error the writer may hold a beginning of it.
pub fn refused<W: Write>(out: &mut W, refusal: Refusal) -> io::Result<()>
    ensures { OnOk result (Appends (W.contents out.old) (W.contents out.new) (codes "refusal " ++ decimal (number refusal))) }
{
    named(out, b"refusal ", u64::from(u8::from(refusal)))
}

// One line: what is given, and its guard.
/// After an error the writer may hold a beginning of it.
pub fn guard_line<W: Write>(out: &mut W, given: &[u8], guard: u16) -> io::Result<()>
    ensures { OnOk result (Appends (W.contents out.old) (W.contents out.new) (guard_line given.now guard)) }
{
    out.write_all(given)?;
    out.write_all(&four_digits(guard))?;
    out.write_all(b"\n")
}

// A number in four hexadecimal digits, and a byte in two with a blank before them.
// Stays: docs/PROOFS.md names both by these promises; a format as `{:04X}` writes text, and gives no bytes to a caller.
pub fn four_digits(number: u16) -> [u8; 4]
    ensures { result ≡ four_digits number }
{
    [
        digit(number / 4096),
        digit(number / 256),
        digit(number / 16),
        digit(number),
    ]
}

pub fn two_digits(byte: u8) -> [u8; 3]
    ensures { result ≡ two_digits byte }
{
    let number = u16::from(byte);
    [b' ', digit(number / 16), digit(number)]
}

// The lowest hexadecimal digit, in upper case.
fn digit(number: u16) -> u8
    ensures { result ≡ digit number }
{
    let value = (number % 16) as u8;
    if value < 10 { 48 + value } else { 55 + value }
}
