// Guards joined from guards and lengths.
use figures_text::guard_line;
use std::io;
use std::io::Write;

// A record of three blocks, zero but for their last bytes 01, 02 and 03: joined from the blocks' guards, and from all its bytes.
pub fn record(out: &mut impl Write) -> io::Result<()> {
    let mut content = [0u8; 1536];
    content[511] = 1;
    content[1023] = 2;
    content[1535] = 3;
    let first = fold::guard(&content[0..512]);
    let second = fold::guard(&content[512..1024]);
    let third = fold::guard(&content[1024..1536]);
    let two = join::join(first, second, 512);
    out.write_all(b"\nguard of a record's          is\n")?;
    guard_line(out, b"block that ends 01           ", first)?;
    guard_line(out, b"block that ends 02           ", second)?;
    guard_line(out, b"block that ends 03           ", third)?;
    guard_line(out, b"first two blocks, joined     ", two)?;
    guard_line(
        out,
        b"three blocks, joined         ",
        join::join(two, third, 512),
    )?;
    guard_line(out, b"1536 bytes                   ", fold::guard(&content))
}

// As many zero bytes as there can be, and one fewer, after a run whose guard is D0DB.
pub fn zeros(out: &mut impl Write) -> io::Result<()> {
    added(out, b"D0DB, 4294967295 zeros added ", 4294967295)?;
    added(out, b"D0DB, 4294967294 zeros added ", 4294967294)
}

// Two lines: the guard with the zeros added, and with as many taken off again.
fn added(out: &mut impl Write, given: &[u8], zeros: u32) -> io::Result<()> {
    let longer = join::add_zeros(0xD0DB, zeros);
    guard_line(out, given, longer)?;
    guard_line(
        out,
        b"and taken off again          ",
        join::remove_zeros(longer, zeros),
    )
}
