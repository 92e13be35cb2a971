// The scan of a stripe. It is lent the front of the work buffer: as many bytes as a block of the array has of data.
ghost use Rattle.std.specs.Prelude.{◌≡◌, min};
ghost use Rattle.tag.specs.Blocks.{format_at};
ghost use Rattle.verdict.specs.Verdicts.{scrubbed_numbers};
ghost use Rattle.report.specs.Feeding.{begun_scan, begun_work, took_scan, took_work, judgement};

use layout::Array;
use refusal::Refusal;
use scan::Scan;
use verdict::Verdict;

// How long that front is, of so many bytes.
fn front_end(array: Array, room: usize) -> usize
    ensures { result ≡ min (format_at array).data_length room }
{
    format::data_length(array.method).min(room)
}

// Starts the scan of a stripe.
pub fn begin(array: Array, stripe: u64, work: &mut [u8]) -> Scan
    ensures value { result ≡ begun_scan array stripe work.old }
    ensures work_after { work.new ≡ begun_work array stripe work.old }
{
    let end = front_end(array, work.len());
    scan::start(array, stripe, &mut work[..end]).state
}

// Takes in bytes of one member's block.
pub fn take_in(scan: Scan, member: usize, bytes: &[u8], work: &mut [u8]) -> Scan
    ensures value { result ≡ took_scan scan member bytes.now work.old }
    ensures work_after { work.new ≡ took_work scan member bytes.now work.old }
{
    let end = front_end(scan.array, work.len());
    scan::piece(scan, member, bytes, &mut work[..end]).state
}

// The scan's answer.
pub fn judge(scan: Scan, work: &[u8]) -> Result<Verdict, Refusal>
    ensures { scrubbed_numbers result ≡ judgement scan work.now }
{
    let end = front_end(scan.array, work.len());
    scan::finish(scan, &work[..end])
}
