// Runs the bench table and the published vectors through the compiled code, and prints what it finds; those of stripes are in `figures_stripes`.
#![tactic(auto)]

mod checksums;
mod guards;
mod joins;
mod places;
mod scans;
mod wide;

use std::io;

fn main(rt: HostRuntime) -> io::Result<()> {
    let mut out = io::writer(&rt);
    guards::table(&mut out)?;
    places::bench(&mut out)?;
    places::far(&mut out)?;
    places::rows(&mut out)?;
    scans::pieces(&mut out)?;
    joins::record(&mut out)?;
    joins::zeros(&mut out)?;
    checksums::runs(&mut out)?;
    checksums::stripe(&mut out)?;
    wide::published(&mut out)?;
    wide::scrubs(&mut out)
}
