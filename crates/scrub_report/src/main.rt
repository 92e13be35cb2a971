// Reads an image on standard input and writes its report to standard output.
#![tactic(auto)]

ghost use Rattle.std.specs.Prelude.{◌<◌, ◌≤◌, List, ℕ, length, IfOk, IfSome, OnOk};
ghost use Rattle.std.specs.Io.KnownBytes.{Appends};
ghost use Rattle.lines.specs.Lines.{line_room};
ghost use Rattle.report.specs.Feeding.{close_line};
ghost use Rattle.report.specs.Reports.{report_of};
ghost use Rattle.report.specs.Runs.{Reached};
ghost use Rattle.scrub_report.specs.Passes.{Passes};

use format::MOST_DATA;
use report::Report;
use std::io;
use std::io::{ErrorKind, Read, Write};
use std::process::ExitCode;

// Bytes of one read.
const INPUT: usize = 65536;

// Room for the lines of one fill: four of the longest.
const LINES: usize = 512;

// Stays: here and below repair_image has the like over another state and two outputs; one function of both would be handed the feed, the state and what
// is written as parameters, and be no plainer.
// Fills the report with a piece of input until it is used up, and writes out the lines of each fill. After an error the writer may hold a beginning of
// them, and the buffers anything.
fn pass<W: Write>(
    report: Report,
    input: &[u8],
    work: &mut [u8],
    lines: &mut [u8],
    out: &mut W,
) -> io::Result<Report>
    ensures { Reached report work.old → line_room ≤ length lines.old → IfOk result (λ s. (said : List ℕ) × Passes report work.old input.now s work.new said
        × Appends (W.contents out.old) (W.contents out.new) said) }
{
    let mut state = report;
    let mut rest = input;
    while !rest.is_empty() {
        let fed = report::fill(state, rest, work, lines);
        out.write_all(&lines[..fed.written])?;
        state = fed.state;
        // Never so, by report's law fill_goes_on: the buffer has room for a line.
        if fed.used == 0 {
            break;
        }
        rest = &rest[fed.used..];
    }
    Ok(state)
}

// Closes the report, and writes out its last line, or after an error perhaps a beginning of it.
fn end<W: Write>(report: Report, lines: &mut [u8], out: &mut W) -> io::Result<()>
    ensures { OnOk result (Appends (W.contents out.old) (W.contents out.new) (close_line report (length lines.old))) }
{
    let last = report::close(report, lines);
    out.write_all(&lines[..last])
}

// Reads an image to its end, and writes its report, or after an error perhaps a beginning of it. The loop has turns for any image: a byte a turn.
fn scrub<R: Read, W: Write>(image: &mut R, out: &mut W) -> io::Result<()>
    ensures { OnOk result (IfSome (R.remaining image.old) (λ bytes. length bytes < u64.MAX → Appends (W.contents out.old) (W.contents out.new) (report_of bytes))) }
{
    let mut input = [0u8; INPUT];
    let mut lines = [0u8; LINES];
    let mut work = [0u8; MOST_DATA];
    let mut state = report::new();
    for _ in 0..u64::MAX {
        let count = image.read(&mut input)?;
        if count == 0 {
            break;
        }
        state = pass(state, &input[..count], &mut work, &mut lines, out)?;
    }
    end(state, &mut lines, out)
}

fn main(rt: HostRuntime) -> io::Result<ExitCode> {
    match scrub(&mut rt.reader(), &mut io::writer(&rt)) {
        Ok(()) => Ok(ExitCode::SUCCESS),
        // Nobody reads the report any more: that needs no word.
        Err(e) if e.kind() == ErrorKind::BrokenPipe => Ok(ExitCode::FAILURE),
        Err(e) => Err(e),
    }
}
