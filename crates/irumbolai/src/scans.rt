// The scrub in pieces, for C.
ghost use Rattle.std.specs.Prelude.{◌≡◌, length};
ghost use Rattle.refusal.specs.Refusals.{told};
ghost use Rattle.layout.specs.Arrays.{array_of};
ghost use Rattle.scan.specs.Scans.{
  start_refusal,
  start_state,
  start_work,
  piece_refusal,
  piece_state,
  piece_work,
  finish_numbers,
};
ghost use Rattle.irumbolai.specs.Answers.{scan_of, unflagged, verdict_fields, spread};

use crate::{ScanState, TakenAnswer, VerdictAnswer, verdict_answer};
use refusal::told;
use scan::{Scan, Taken};

// The state that C hands in.
impl From<ScanState> for Scan {
    ghost from_gives = { λ state scan. scan ≡ scan_of state };

    fn from(state: ScanState) -> Scan {
        let array = layout::array_of(
            state.members,
            state.stripes,
            state.volume,
            state.method,
            state.row,
        );
        let at = state.at;
        let register = state.register;
        let waiting = state.waiting;
        let tag = state.tag;
        Scan {
            array,
            stripe: state.stripe,
            at,
            register,
            waiting,
            tag,
        }
    }
}

// A state for C.
impl From<Scan> for ScanState {
    ghost from_gives = { λ scan state. scan_of state ≡ scan };

    fn from(scan: Scan) -> ScanState {
        let array = scan.array;
        let at = scan.at;
        let register = scan.register;
        let waiting = scan.waiting;
        let tag = scan.tag;
        ScanState {
            members: array.members,
            stripes: array.stripes,
            volume: array.volume,
            method: array.method,
            row: array.row,
            stripe: scan.stripe,
            at,
            register,
            waiting,
            tag,
        }
    }
}

// What a call of a scan leaves, for C.
impl From<Taken> for TakenAnswer {
    ghost from_gives = { λ taken answer. (answer.refusal ≡ told taken.answer) × (scan_of answer.state ≡ taken.state) };

    fn from(taken: Taken) -> TakenAnswer {
        TakenAnswer {
            refusal: u32::from(told(taken.answer)),
            state: ScanState::from(taken.state),
        }
    }
}

// Begins a scan, and clears the work buffer.
#[unsafe(no_mangle)]
pub extern "C" fn irumbolai_start(
    members: usize,
    stripes: u64,
    volume: u8,
    method: u8,
    row: u8,
    stripe: u64,
    work: &mut [u8],
) -> TakenAnswer
    ensures refusal_value { result.refusal ≡ start_refusal (array_of members stripes volume method row) stripe (length work.old) }
    ensures state_value { scan_of result.state ≡ start_state (array_of members stripes volume method row) stripe (length work.old) }
    ensures work_after { work.new ≡ start_work (array_of members stripes volume method row) stripe work.old }
{
    let array = layout::array_of(members, stripes, volume, method, row);
    TakenAnswer::from(scan::start(array, stripe, work))
}

// Takes in the next bytes of a member.
#[unsafe(no_mangle)]
pub extern "C" fn irumbolai_piece(
    state: ScanState,
    member: usize,
    bytes: &[u8],
    work: &mut [u8],
) -> TakenAnswer
    ensures refusal_value { result.refusal ≡ piece_refusal (scan_of state) member (length bytes.now) (length work.old) }
    ensures state_value { scan_of result.state ≡ piece_state (scan_of state) member bytes.now (length work.old) }
    ensures work_after { work.new ≡ piece_work (scan_of state) member bytes.now work.old }
{
    let scan = Scan::from(state);
    TakenAnswer::from(scan::piece(scan, member, bytes, work))
}

// Ends a scan in the full scrub's verdict.
#[unsafe(no_mangle)]
pub extern "C" fn irumbolai_finish(state: ScanState, work: &[u8]) -> VerdictAnswer
    ensures { verdict_fields result ≡ spread (unflagged (finish_numbers (scan_of state) work.now)) }
{
    verdict_answer(scan::finish(Scan::from(state), work))
}
