// Places of the bench table.
use figures_text::{named, refused};
use layout::{Array, Owned, Placed};
use std::io;
use std::io::Write;

// Stripes of sixteen members whose blocks can be told by thirty-two bits, and the most that an array can have.
const MANY: u64 = 268435456;

const MOST: u64 = 68719476736;

pub fn bench(out: &mut impl Write) -> io::Result<()> {
    let five = layout::array_of(5, MOST, 0, 1, 1);
    let sixteen = layout::array_of(16, MOST, 0, 1, 1);
    let two = layout::array_of(2, MOST, 0, 1, 1);
    let seventeen = layout::array_of(17, MOST, 0, 1, 1);
    out.write_all(b"\nplace of                     is\n")?;
    place(out, b"n 5, L 0                     ", five, 0)?;
    place(out, b"n 5, L 3                     ", five, 3)?;
    place(out, b"n 5, L 4                     ", five, 4)?;
    place(out, b"n 5, L 5                     ", five, 5)?;
    place(out, b"n 5, L 65535                 ", five, 65535)?;
    place(out, b"n 5, L 65536                 ", five, 65536)?;
    owner(out, b"n 5, stripe 65536, member 1  ", five, 65536, 1)?;
    place(out, b"n 5, L 4294967295            ", five, 4294967295)?;
    place(out, b"n 5, L 4294967296            ", five, 4294967296)?;
    place(
        out,
        b"n 16, L 1030792151039        ",
        sixteen,
        1030792151039,
    )?;
    place(
        out,
        b"n 16, L 1030792151040        ",
        sixteen,
        1030792151040,
    )?;
    place(out, b"n 2, L 0                     ", two, 0)?;
    place(out, b"n 17, L 0                    ", seventeen, 0)?;
    let many = layout::array_of(16, MANY, 0, 1, 1);
    out.write_all(b"\nn 16, S 268435456, place of  is\n")?;
    place(out, b"L 4026531839                 ", many, 4026531839)?;
    place(out, b"L 4026531840                 ", many, 4026531840)
}

// On both sides of block 4,294,967,296: the reference tag starts anew there, but not that of a large block.
pub fn far(out: &mut impl Write) -> io::Result<()> {
    let five = layout::array_of(5, MOST, 0, 1, 1);
    let large = layout::array_of(5, MOST, 0, 3, 1);
    out.write_all(b"\nn 5, tag of                  is\n")?;
    owner(out, b"stripe 1073741823, member 4  ", five, 1073741823, 4)?;
    owner(out, b"stripe 1073741824, member 0  ", five, 1073741824, 0)?;
    owner(out, b"the same by method 3         ", large, 1073741824, 0)
}

// Rows of four stripes, in which a member holds four successive blocks; and a row length that there is not.
pub fn rows(out: &mut impl Write) -> io::Result<()> {
    let fours = layout::array_of(5, 8, 0, 1, 4);
    let threes = layout::array_of(5, 9, 0, 1, 3);
    out.write_all(b"\nn 5, S 8, c 4, place of      is\n")?;
    place(out, b"L 0                          ", fours, 0)?;
    place(out, b"L 3                          ", fours, 3)?;
    place(out, b"L 4                          ", fours, 4)?;
    place(out, b"L 16                         ", fours, 16)?;
    place(out, b"L 31                         ", fours, 31)?;
    place(out, b"L 32                         ", fours, 32)?;
    owner(out, b"stripe 3, member 1           ", fours, 3, 1)?;
    owner(out, b"stripe 4, member 1           ", fours, 4, 1)?;
    place(out, b"c 3, L 0                     ", threes, 0)
}

// One line: what is given, and its stripe and member, or the refusal.
fn place(out: &mut impl Write, given: &[u8], array: Array, block: u64) -> io::Result<()> {
    out.write_all(given)?;
    match layout::place(array, block) {
        Ok(Placed { stripe, member }) => {
            named(out, b"stripe ", stripe)?;
            named(out, b" member ", member as u64)?;
        }
        Err(refusal) => refused(out, refusal)?,
    }
    out.write_all(b"\n")
}

// One line: what is given, and whether data or the parity lie there, with the reference in their tag, or the refusal.
fn owner(
    out: &mut impl Write,
    given: &[u8],
    array: Array,
    stripe: u64,
    member: usize,
) -> io::Result<()> {
    out.write_all(given)?;
    let owned = layout::owner(array, stripe, member);
    let reference = tag::due_to(array, owned.ok(), 0, 0).reference;
    match owned {
        Ok(Owned::Parity { lowest: _ }) => named(out, b"parity, reference ", reference)?,
        Ok(Owned::Data { block: _ }) => named(out, b"data, reference ", reference)?,
        Err(refusal) => refused(out, refusal)?,
    }
    out.write_all(b"\n")
}
