// Stripes of the bench table: one sealed, updated, then marked, then changed, by methods 1 and 2; the same of large blocks; and torn ones.
use crate::told::{quick, reading, tags, verdict};
use layout::Array;
use std::io;
use std::io::Write;

// Three members, one stripe, volume 7.
fn three(method: u8) -> Array {
    layout::array_of(3, 1, 7, method, 1)
}

// Data zero but for the last bytes 01 and 02; then block 0 updated to zeros; then its application tag set to FFFFh; then the
// tag as it was and the last byte of the data changed.
pub fn sealed(out: &mut impl Write, title: &[u8], method: u8) -> io::Result<()> {
    let array = three(method);
    let mut content = [0u8; 1024];
    content[511] = 1;
    content[1023] = 2;
    let mut bytes = [0u8; 1560];
    out.write_all(title)?;
    let _ = stripe::seal(array, 0, &content, &mut bytes);
    shown(out, array, &bytes)?;
    out.write_all(b"block 0 updated, tag of      is\n")?;
    let _ = stripe::update(array, 0, &[0u8; 512], &mut bytes);
    shown(out, array, &bytes)?;
    bytes[1034] = 0xFF;
    bytes[1035] = 0xFF;
    out.write_all(b"block 0 marked, tag of       is\n")?;
    shown(out, array, &bytes)?;
    bytes[1034] = 0;
    bytes[1035] = 7;
    bytes[1031] = 1;
    out.write_all(b"block 0 changed, tag of      is\n")?;
    shown(out, array, &bytes)
}

// The same of large blocks, and then block 0 with its data as they were and a spare byte that is not zero.
pub fn sealed_large(out: &mut impl Write) -> io::Result<()> {
    let array = three(3);
    let mut content = [0u8; 8192];
    content[4095] = 1;
    content[8191] = 2;
    let mut bytes = [0u8; 12336];
    out.write_all(b"\nlarge blocks, tag of         is\n")?;
    let _ = stripe::seal(array, 0, &content, &mut bytes);
    shown(out, array, &bytes)?;
    out.write_all(b"block 0 updated, tag of      is\n")?;
    let _ = stripe::update(array, 0, &[0u8; 4096], &mut bytes);
    shown(out, array, &bytes)?;
    bytes[8212] = 0xFF;
    bytes[8213] = 0xFF;
    bytes[8214] = 1;
    out.write_all(b"block 0 marked, tag of       is\n")?;
    shown(out, array, &bytes)?;
    bytes[8212] = 0;
    bytes[8213] = 7;
    out.write_all(b"spare byte 01, tag of        is\n")?;
    shown(out, array, &bytes)
}

// A stripe's tags, how its first block reads, and its verdict.
fn shown(out: &mut impl Write, array: Array, bytes: &[u8]) -> io::Result<()> {
    tags(out, array.method, bytes)?;
    reading(out, array, bytes)?;
    verdict(out, array, bytes)
}

// All data zero, but for the end of the parity, whose tag fits: a difference of seventeen bits, then one of sixteen.
pub fn torn(out: &mut impl Write) -> io::Result<()> {
    let array = three(1);
    let mut bytes = [0u8; 1560];
    let _ = stripe::seal(array, 0, &[0u8; 1024], &mut bytes);
    bytes[509] = 0x01;
    bytes[510] = 0x8B;
    bytes[511] = 0xB7;
    out.write_all(b"\nparity ends 01 8B B7\n")?;
    verdict(out, array, &bytes)?;
    quick(out, &bytes)?;
    bytes[511] = 0xB6;
    bytes[512] = 0x8B;
    bytes[513] = 0xB7;
    out.write_all(b"parity ends 01 8B B6\n")?;
    verdict(out, array, &bytes)?;
    quick(out, &bytes)
}

// A stripe sealed by checksum, then another guard in the parity's tag: the blocks do not belong together, and one that is lost then is not rebuilt.
pub fn unfit(out: &mut impl Write) -> io::Result<()> {
    let array = three(2);
    let mut content = [0u8; 1024];
    content[511] = 1;
    content[1023] = 2;
    let mut bytes = [0u8; 1560];
    let _ = stripe::seal(array, 0, &content, &mut bytes);
    bytes[513] = 7;
    out.write_all(b"\nby checksum, parity's guard 0007\n")?;
    verdict(out, array, &bytes)?;
    quick(out, &bytes)?;
    bytes[1031] = 0;
    reading(out, array, &bytes)?;
    verdict(out, array, &bytes)
}
