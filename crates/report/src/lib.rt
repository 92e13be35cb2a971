// The report of an image that comes in pieces: what is held between the calls, and the steps within a stripe.
#![tactic(auto)]

mod feeding;
mod fills;
mod lending;
mod stripes;

ghost use Rattle.std.specs.Prelude.{◌≡◌, ℕ, List, true, ◌+◌, ◌/◌, ◌≤◌, length};
ghost use Rattle.refusal.specs.Refusals.{number};
ghost use Rattle.verdict.specs.Verdicts.{verdict_numbers};
ghost use Rattle.tag.specs.Blocks.{format_at};
ghost use Rattle.stripe.specs.Stripes.{stripe_length};
ghost use Rattle.lines.specs.Lines.{refused_line};
ghost use Rattle.lines.specs.Stages.{number_of};
ghost use Rattle.report.specs.Reports.{stripes_in, counted};
ghost use Rattle.report.specs.Feeding.{Does, judgement, holding, entering, ended, header_came, stripe_fit, stripe_judged, stripe_whole, block_lacks, stripe_took};

pub use feeding::{close, feed, new};
pub use fills::fill;
use layout::Array;
use lending::{begin, judge, take_in};
use lines::{HEADER, ROOM, Stage, Tally};
use refusal::Refusal;
use scan::Scan;
use verdict::Verdict;

// Where a report stands between the calls, beside the work buffer.
// stage: 0 in the header, 1 in the stripes, 2 behind the last stripe, 3 when the last line is written.
// have: how many bytes of the header, or of the stripe, have come.
#[derive(Clone, Copy)]
pub struct Report {
    // Stays: `feed`, `fill` and `close` promise what they do in a state of any stage, so a type of these four would take less.
    pub stage: u8,
    pub header: [u8; HEADER],
    // Stays: `feed` promises what it does at any `have`, past the header's end too, and it counts the bytes of a stripe as well.
    pub have: usize,
    pub scan: Scan,
    pub tally: Tally,
}

impl Report {
    // The bytes of the header that came.
    fn header_came(&self) -> &[u8]
        ensures { result.now ≡ header_came self.now }
    {
        &self.header[..self.have.min(HEADER)]
    }

    // The state with so many bytes of the header, or of the stripe.
    fn holding(self, header: [u8; HEADER], have: usize, scan: Scan) -> Report
        ensures { result ≡ holding self header have scan }
    {
        Report {
            header,
            have,
            scan,
            ..self
        }
    }

    // The state at the start of a stage or of a stripe.
    fn entering(self, stage: Stage, scan: Scan, tally: Tally) -> Report
        ensures { result ≡ entering (number_of stage) self.header scan tally }
    {
        Report {
            stage: stage as u8,
            have: 0,
            scan,
            tally,
            ..self
        }
    }

    // The state when the last line is written.
    // Stays: a repair's `over` does the same to another state; a trait of both states for this line would be no plainer.
    fn ended(self) -> Report
        ensures { result ≡ ended self }
    {
        Report {
            stage: Stage::Over as u8,
            ..self
        }
    }

    // A refusal: its line, and the report is over.
    fn refused(self, refusal: Refusal, used: usize, out: &mut [u8; ROOM]) -> Fed
        ensures { (work : List ℕ) → Does (record { used = used; state = ended self; work = work; line = refused_line (number refusal) }) result work out.old out.new }
    {
        let written = lines::refused_line(out, u8::from(refusal));
        let state = self.ended();
        Fed {
            state,
            used,
            written,
        }
    }
}

// The state to go on with, how many bytes of the input were used, and how many were written.
#[derive(Clone, Copy)]
pub struct Fed {
    pub state: Report,
    pub used: usize,
    pub written: usize,
}

// A tally with one more verdict.
fn counted(tally: Tally, verdict: Verdict) -> Tally
    requires { stripes_in tally ≤ 1099511627776 }
    ensures { result ≡ counted tally (verdict_numbers verdict) }
{
    match verdict {
        Verdict::Clean => Tally {
            clean: tally.clean + 1,
            ..tally
        },
        Verdict::Bad { .. } => Tally {
            bad: tally.bad + 1,
            ..tally
        },
        Verdict::Unchecked { .. } => Tally {
            unchecked: tally.unchecked + 1,
            ..tally
        },
        Verdict::Torn { .. } => Tally {
            torn: tally.torn + 1,
            ..tally
        },
    }
}

// The stripe has its verdict: its line, and the scan of the stripe after it, if there is one.
fn stripe_judged(
    used: usize,
    report: Report,
    verdict: Verdict,
    work: &mut [u8],
    out: &mut [u8; ROOM],
) -> Fed
    requires { report.scan.stripe + stripes_in report.tally ≤ 1099511627776 }
    ensures { Does (stripe_judged used report work.old (verdict_numbers verdict)) result work.new out.old out.new }
{
    let scan = report.scan;
    let written = lines::stripe_line(out, scan.stripe, verdict);
    let tally = counted(report.tally, verdict);
    let next = scan.stripe + 1;
    if next < scan.array.stripes {
        let fresh = begin(scan.array, next, work);
        let state = report.entering(Stage::Stripes, fresh, tally);
        return Fed {
            state,
            used,
            written,
        };
    }
    let state = report.entering(Stage::Behind, scan, tally);
    Fed {
        state,
        used,
        written,
    }
}

// The stripe is whole: by the scan's verdict, or the scan's refusal number, and the report is over.
fn stripe_whole(used: usize, report: Report, work: &mut [u8], out: &mut [u8; ROOM]) -> Fed
    requires { report.scan.stripe + stripes_in report.tally ≤ 1099511627776 }
    ensures { Does (stripe_whole used report work.old (judgement report.scan work.old)) result work.new out.old out.new }
{
    match judge(report.scan, work) {
        Err(refusal) => report.refused(refusal, used, out),
        Ok(verdict) => stripe_judged(used, report, verdict, work, out),
    }
}

// How many bytes a stripe of the array has.
fn stripe_length(array: Array) -> usize
    requires { array.members ≤ 16 }
    ensures { result ≡ stripe_length array }
{
    format::block_length(array.method) * array.members
}

// How many whole blocks of the array some bytes are.
fn whole_blocks(array: Array, have: usize) -> usize
    ensures { result ≡ have / (format_at array).block_length }
{
    have / format::block_length(array.method)
}

// Bytes of one block of the stripe.
fn stripe_took(report: Report, bytes: &[u8], work: &mut [u8], out: &mut [u8; ROOM]) -> Fed
    requires report_value { stripe_fit report ≡ true }
    requires bytes_len_bound { length bytes.now ≤ block_lacks report }
    ensures { Does (stripe_took report bytes.now work.old) result work.new out.old out.new }
{
    let array = report.scan.array;
    let used = bytes.len();
    let member = whole_blocks(array, report.have);
    let next = take_in(report.scan, member, bytes, work);
    let now = report.have + used;
    let held = report.holding(report.header, now, next);
    if now < stripe_length(array) {
        return Fed {
            state: held,
            used,
            written: 0,
        };
    }
    stripe_whole(used, held, work, out)
}
