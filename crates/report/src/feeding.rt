// A report that is fed: one step at a time, by the stage.
ghost use Rattle.std.specs.Prelude.{◌≡◌, ◌+◌, ◌-◌, ◌≤◌, length};
ghost use Rattle.std.proofs.lemmas.List.Edits.{sets};
ghost use Rattle.layout.specs.Arrays.{no_array};
ghost use Rattle.scan.specs.Scans.{empty_scan};
ghost use Rattle.report.specs.Feeding.{Does, holding, header_whole, header_took, header_step, stripe_step, stage_step, feed_step, close_line, fresh_report};

use crate::lending::begin;
use crate::stripes::{block_lacks, stripe_fit};
use crate::{Fed, Report, stripe_took};
use lines::{HEADER, ROOM, Stage, Tally};
use refusal::Refusal;
use scan::Scan;

// No scan: the state that a refused start gives.
fn no_scan() -> Scan
    ensures { result ≡ empty_scan no_array 0 }
{
    let mut nothing = [0u8; 1];
    scan::start(layout::no_array(), 0, &mut nothing).state
}

// The state of a new report.
pub fn new() -> Report
    ensures { result ≡ fresh_report }
{
    Report {
        stage: Stage::Header as u8,
        header: [0; HEADER],
        have: 0,
        scan: no_scan(),
        tally: Tally::default(),
    }
}

// The header is whole: the first line and the scan of the first stripe, or the header's refusal.
// Stays: here and below two buffers are lent beside the state, as `feed` is lent them; a struct of two `&mut` would be made for one call.
fn header_whole(used: usize, report: Report, work: &mut [u8], out: &mut [u8; ROOM]) -> Fed
    ensures { Does (header_whole used report work.old) result work.new out.old out.new }
{
    match lines::check_header(report.header_came()) {
        Err(refusal) => report.refused(refusal, used, out),
        Ok(()) => {
            let array = lines::array_in(report.header_came());
            let written = lines::first_line(out, array);
            let scan = begin(array, 0, work);
            let state = report.entering(Stage::Stripes, scan, Tally::default());
            Fed {
                state,
                used,
                written,
            }
        }
    }
}

// The state with more bytes of the header.
fn header_held(report: Report, bytes: &[u8]) -> Report
    requires { length bytes.now ≤ 15 - report.have }
    ensures { result ≡ holding report (sets report.header report.have bytes.now) (report.have + length bytes.now) report.scan }
{
    let mut header = report.header;
    copy::put(&mut header, report.have, bytes);
    report.holding(header, report.have + bytes.len(), report.scan)
}

// Takes bytes of the header, no more than it lacks.
fn header_took(report: Report, bytes: &[u8], work: &mut [u8], out: &mut [u8; ROOM]) -> Fed
    requires { length bytes.now ≤ 15 - report.have }
    ensures { Does (header_took report bytes.now work.old) result work.new out.old out.new }
{
    let used = bytes.len();
    let held = header_held(report, bytes);
    if held.have < lines::header_size(held.header_came()) {
        return Fed {
            state: held,
            used,
            written: 0,
        };
    }
    header_whole(used, held, work, out)
}

// Takes of the input what the header lacks.
fn header_step(report: Report, input: &[u8], work: &mut [u8], out: &mut [u8; ROOM]) -> Fed
    ensures { Does (header_step report input.now work.old) result work.new out.old out.new }
{
    let size = lines::header_size(report.header_came());
    let lacks = size.saturating_sub(report.have);
    let count = lacks.min(input.len());
    header_took(report, &input[..count], work, out)
}

// Takes of the input what the block lacks that comes now; an unfit state passes it over.
fn stripe_step(report: Report, input: &[u8], work: &mut [u8], out: &mut [u8; ROOM]) -> Fed
    ensures { Does (stripe_step report input.now work.old) result work.new out.old out.new }
{
    if !stripe_fit(report) {
        return Fed {
            state: report,
            used: input.len(),
            written: 0,
        };
    }
    let lacks = block_lacks(report.scan.array, report.have);
    let count = lacks.min(input.len());
    stripe_took(report, &input[..count], work, out)
}

// One step, by the stage.
fn stage_step(report: Report, input: &[u8], work: &mut [u8], out: &mut [u8; ROOM]) -> Fed
    ensures { Does (stage_step report input.now work.old) result work.new out.old out.new }
{
    match Stage::from(report.stage) {
        Stage::Header => header_step(report, input, work, out),
        Stage::Stripes => stripe_step(report, input, work, out),
        Stage::Behind => report.refused(Refusal::Image, input.len(), out),
        Stage::Over => Fed {
            state: report,
            used: input.len(),
            written: 0,
        },
    }
}

// Takes a first part of the input and writes at most one line, where there is room for any; else it does nothing.
pub fn feed(state: Report, input: &[u8], work: &mut [u8], out: &mut [u8]) -> Fed
    ensures { Does (feed_step state input.now work.old (length out.old)) result work.new out.old out.new }
{
    let idle = Fed {
        state,
        used: 0,
        written: 0,
    };
    if input.is_empty() {
        return idle;
    }
    match out.first_chunk_mut::<ROOM>() {
        Some(line) => stage_step(state, input, work, line),
        None => idle,
    }
}

// Writes the last line, if it is not written yet and there is room for it; answers its length.
pub fn close(state: Report, out: &mut [u8]) -> usize
    ensures value { result ≡ length (close_line state (length out.old)) }
    ensures out_after { out.new ≡ sets out.old 0 (close_line state (length out.old)) }
{
    match Stage::from(state.stage) {
        Stage::Header => lines::refused_line(out, u8::from(Refusal::Header)),
        Stage::Stripes => lines::refused_line(out, u8::from(Refusal::Image)),
        Stage::Behind => lines::total_line(out, state.scan.array, state.tally),
        Stage::Over => 0,
    }
}
