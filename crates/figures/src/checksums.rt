// Checksums: of runs, and of the stripe that source 000 works out.
use checksum::checksum;
use figures_text::{guard_line, refused};
use std::io;
use std::io::Write;

// Four blocks of source 000 and their parity, then the first written anew, and the parity that goes with it. The source's words have four bits:
// each stands four times in a word here, rotated back by as many bits as words follow it, so that a sum is the source's four times over.
const A: [u8; 10] = [0x99, 0x99, 0x00, 0x00, 0x22, 0x22, 0x33, 0x33, 0x11, 0x11];

const B: [u8; 10] = [0x44, 0x44, 0xFF, 0xFF, 0xFF, 0xFF, 0x88, 0x88, 0x55, 0x55];

const C: [u8; 10] = [0x88, 0x88, 0x55, 0x55, 0xEE, 0xEE, 0x00, 0x00, 0xDD, 0xDD];

const D: [u8; 10] = [0xCC, 0xCC, 0x66, 0x66, 0x88, 0x88, 0xBB, 0xBB, 0x44, 0x44];

const PARITY: [u8; 10] = [0x99, 0x99, 0xCC, 0xCC, 0xBB, 0xBB, 0x00, 0x00, 0xDD, 0xDD];

const A_ANEW: [u8; 10] = [0x44, 0x44, 0x55, 0x55, 0x22, 0x22, 0xBB, 0xBB, 0x33, 0x33];

const PARITY_ANEW: [u8; 10] = [0x44, 0x44, 0x99, 0x99, 0xBB, 0xBB, 0x88, 0x88, 0xFF, 0xFF];

// Runs of bytes, one of them of odd length, and a block that counts by sevens.
pub fn runs(out: &mut impl Write) -> io::Result<()> {
    out.write_all(b"\nchecksum of                  is\n")?;
    row(out, b"no bytes                     ", b"")?;
    row(out, b"00, 512 times                ", &[0x00; 512])?;
    row(out, b"FF, 512 times                ", &[0xFF; 512])?;
    row(out, b"12 34 56 78                  ", b"\x12\x34\x56\x78")?;
    row(out, b"the characters 12345678      ", b"12345678")?;
    row(out, b"the characters 123456789     ", b"123456789")?;
    row(out, b"7k + 3, k from 0 to 511      ", &by_sevens())
}

fn by_sevens() -> [u8; 512] {
    let mut block = [0u8; 512];
    for (k, byte) in block.iter_mut().enumerate() {
        *byte = ((k * 7 + 3) % 256) as u8;
    }
    block
}

// The stripe of source 000, and block B rebuilt after one of two writes: its checksum is not what the stored guards combine to.
pub fn stripe(out: &mut impl Write) -> io::Result<()> {
    out.write_all(b"\nchecksum of source 000's     is\n")?;
    row(out, b"block A                      ", &A)?;
    row(out, b"block B                      ", &B)?;
    row(out, b"block C                      ", &C)?;
    row(out, b"block D                      ", &D)?;
    row(out, b"parity                       ", &PARITY)?;
    row(out, b"block A anew                 ", &A_ANEW)?;
    row(out, b"parity anew                  ", &PARITY_ANEW)?;
    let rest = checksum(&C) ^ checksum(&D);
    let others = checksum(&B) ^ rest;
    let before = checksum(&A) ^ others;
    let anew = checksum(&A_ANEW) ^ others;
    guard_line(out, b"parity's tag                 ", before)?;
    guard_line(out, b"parity's tag anew            ", anew)?;
    out.write_all(b"A anew, parity not: block B is\n")?;
    rebuilt(out, &A_ANEW, &PARITY)?;
    guard_line(
        out,
        b"its guard by the others      ",
        checksum(&A_ANEW) ^ rest ^ before,
    )?;
    out.write_all(b"parity anew, A not: block B is\n")?;
    rebuilt(out, &A, &PARITY_ANEW)?;
    guard_line(
        out,
        b"its guard by the others      ",
        checksum(&A) ^ rest ^ anew,
    )
}

// One line: the checksum of block B as the others make it.
fn rebuilt(out: &mut impl Write, first: &[u8], parity: &[u8]) -> io::Result<()> {
    let mut lost = [0u8; 10];
    xor::xor_into(&mut lost, first);
    xor::xor_into(&mut lost, &C);
    xor::xor_into(&mut lost, &D);
    xor::xor_into(&mut lost, parity);
    row(out, b"its checksum                 ", &lost)
}

// One line: what is given, and its checksum, or the refusal.
fn row(out: &mut impl Write, given: &[u8], bytes: &[u8]) -> io::Result<()> {
    match checksum::sum(bytes) {
        Ok(found) => guard_line(out, given, found),
        Err(refusal) => {
            out.write_all(given)?;
            refused(out, refusal)?;
            out.write_all(b"\n")
        }
    }
}
