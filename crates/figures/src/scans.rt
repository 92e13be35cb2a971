// A scan of the bench table: a whole block in one piece, then a byte more, then none.
use figures_text::named;
use refusal::told;
use scan::Scan;
use std::io;
use std::io::Write;

pub fn pieces(out: &mut impl Write) -> io::Result<()> {
    out.write_all(b"\npiece for member 0           refusal\n")?;
    let array = layout::array_of(3, 1, 7, 1, 1);
    let mut work = [0u8; 512];
    let block = [0u8; 520];
    let begun = scan::start(array, 0, &mut work).state;
    let first = piece(
        out,
        b"520 bytes                    ",
        begun,
        &block,
        &mut work,
    )?;
    let second = piece(
        out,
        b"1 byte more                  ",
        first,
        b"\x00",
        &mut work,
    )?;
    piece(
        out,
        b"no bytes                     ",
        second,
        b"",
        &mut work,
    )?;
    Ok(())
}

// One line: what is given, and the refusal number; the state to go on with is handed back.
fn piece(
    out: &mut impl Write,
    given: &[u8],
    state: Scan,
    bytes: &[u8],
    work: &mut [u8],
) -> io::Result<Scan> {
    out.write_all(given)?;
    let taken = scan::piece(state, 0, bytes, work);
    named(out, b"", u64::from(told(taken.answer)))?;
    out.write_all(b"\n")?;
    Ok(taken.state)
}
