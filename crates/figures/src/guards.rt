// Guards: the published examples, and those of the bench table.
use figures_text::guard_line;
use std::io;
use std::io::Write;

// The five examples of SBC-3, the check value that catalogues of CRCs give, and the guards of the bench table.
pub fn table(out: &mut impl Write) -> io::Result<()> {
    out.write_all(b"guard of                     is\n")?;
    row(out, b"00, 32 times                 ", &[0x00; 32])?;
    row(out, b"FF, 32 times                 ", &[0xFF; 32])?;
    row(
        out,
        b"00 to 1F                     ",
        b"\x00\x01\x02\x03\x04\x05\x06\x07\x08\x09\x0A\x0B\x0C\x0D\x0E\x0F\x10\x11\x12\x13\x14\x15\x16\x17\x18\x19\x1A\x1B\x1C\x1D\x1E\x1F",
    )?;
    row(
        out,
        b"FF FF, then 00, 30 times     ",
        b"\xFF\xFF\x00\x00\x00\x00\x00\x00\x00\x00\x00\x00\x00\x00\x00\x00\x00\x00\x00\x00\x00\x00\x00\x00\x00\x00\x00\x00\x00\x00\x00\x00",
    )?;
    row(
        out,
        b"FF down to E0                ",
        b"\xFF\xFE\xFD\xFC\xFB\xFA\xF9\xF8\xF7\xF6\xF5\xF4\xF3\xF2\xF1\xF0\xEF\xEE\xED\xEC\xEB\xEA\xE9\xE8\xE7\xE6\xE5\xE4\xE3\xE2\xE1\xE0",
    )?;
    row(out, b"the characters 123456789     ", b"123456789")?;
    row(out, b"no bytes                     ", b"")?;
    row(out, b"00                           ", b"\x00")?;
    row(out, b"01                           ", b"\x01")?;
    row(out, b"02                           ", b"\x02")?;
    row(out, b"03                           ", b"\x03")?;
    row(out, b"01 8B B7                     ", b"\x01\x8B\xB7")?;
    row(out, b"01 8B B6                     ", b"\x01\x8B\xB6")
}

fn row(out: &mut impl Write, given: &[u8], bytes: &[u8]) -> io::Result<()> {
    guard_line(out, given, fold::guard(bytes))
}
