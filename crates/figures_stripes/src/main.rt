// Runs the stripes of the bench table through the compiled code, and prints what it finds: the tags, how a block reads, and what scrubs say.
#![tactic(auto)]

mod stripes;
mod told;

use std::io;

fn main(rt: HostRuntime) -> io::Result<()> {
    let mut out = io::writer(&rt);
    stripes::sealed(&mut out, b"sealed stripe, tag of        is\n", 1)?;
    stripes::torn(&mut out)?;
    stripes::sealed(&mut out, b"\nsealed by checksum, tag of   is\n", 2)?;
    stripes::unfit(&mut out)?;
    stripes::sealed_large(&mut out)
}
