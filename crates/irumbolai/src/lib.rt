// The C library: each call of include/irumbolai.h. A slice is a pointer and a length to C.
// Stays: the C interface. The five numbers of an array travel one by one in each call and state of include/irumbolai.h.
#![tactic(auto)]

mod joins;
mod patrols;
mod places;
mod records;
mod scans;
mod scrubs;
mod stripes;
mod sums;

ghost use Rattle.std.specs.Prelude.{◌≡◌, [], ◌∷◌, ◌-◌, ◌/◌, ◌%◌};
ghost use Rattle.refusal.specs.Refusals.{number};
ghost use Rattle.crc.specs.Blocks.{guards_of};
ghost use Rattle.crc.specs.Guard.{guard};
ghost use Rattle.verdict.specs.Verdicts.{verdict_numbers, scrubbed_numbers};
ghost use Rattle.irumbolai.specs.Answers.{unflagged, verdict_fields, spread, Small};

use format::MOST_TAGS;
use refusal::Refusal;
use verdict::Verdict;

// The guards of many blocks.
#[repr(C)]
#[derive(Clone, Copy)]
pub struct GuardsAnswer {
    pub guard: [u16; 16],
}

// What the checksum of a run is.
#[repr(C)]
#[derive(Clone, Copy)]
pub struct SumAnswer {
    pub refusal: u32,
    pub guard: u32,
}

// Where a block lies.
#[repr(C)]
#[derive(Clone, Copy)]
pub struct PlaceAnswer {
    pub refusal: u32,
    pub member: u32,
    pub stripe: u64,
}

// What lies at a place.
#[repr(C)]
#[derive(Clone, Copy)]
pub struct OwnerAnswer {
    pub refusal: u32,
    pub parity: u32,
    pub block: u64,
}

// A field of a tag as found and as expected, and whether they are the same.
#[repr(C)]
#[derive(Clone, Copy)]
pub struct FieldAnswer {
    pub found: u64,
    pub expected: u64,
    pub fits: u32,
}

// What a check of a block says: kind 0 good, 1 bad, 2 unchecked, and the three fields of its tag.
#[repr(C)]
#[derive(Clone, Copy)]
pub struct CheckAnswer {
    pub refusal: u32,
    pub kind: u32,
    pub guard: FieldAnswer,
    pub application: FieldAnswer,
    pub reference: FieldAnswer,
}

// What a verified read says: kind 0 stored, 1 rebuilt, 2 unchecked.
#[repr(C)]
#[derive(Clone, Copy)]
pub struct ReadAnswer {
    pub refusal: u32,
    pub kind: u32,
}

// What a recovery says: kind 0 not entered, 1 recovered, 2 left, with the lowest data member that is bad or unchecked.
#[repr(C)]
#[derive(Clone, Copy)]
pub struct RecoveryAnswer {
    pub refusal: u32,
    pub kind: u32,
    pub member: u32,
}

// What a scrub says: kind 0 clean, 1 bad (the lowest bad member, their count, and which of its fields fit), 2 torn (the first place),
// 3 unchecked (the lowest unchecked member and their count).
#[repr(C)]
#[derive(Clone, Copy)]
pub struct VerdictAnswer {
    pub refusal: u32,
    pub kind: u32,
    pub first: u32,
    pub count: u32,
    pub guard_fits: u32,
    pub application_fits: u32,
    pub reference_fits: u32,
}

// What a quick scrub says.
#[repr(C)]
#[derive(Clone, Copy)]
pub struct QuickAnswer {
    pub refusal: u32,
    pub differs: u32,
    pub combination: u32,
}

// The state of a scan: the array's numbers, then what `scan::Scan` holds.
#[repr(C)]
#[derive(Clone, Copy)]
pub struct ScanState {
    pub members: usize,
    pub stripes: u64,
    pub volume: u8,
    pub method: u8,
    pub row: u8,
    pub stripe: u64,
    pub at: [u16; 16],
    pub register: [u32; 16],
    pub waiting: [u8; 16],
    pub tag: [u8; MOST_TAGS],
}

// What a call of a scan leaves.
#[repr(C)]
#[derive(Clone, Copy)]
pub struct TakenAnswer {
    pub refusal: u32,
    pub state: ScanState,
}

// The state of a patrol: the array's numbers, and the stripe that comes next.
#[repr(C)]
#[derive(Clone, Copy)]
pub struct PatrolState {
    pub members: usize,
    pub stripes: u64,
    pub volume: u8,
    pub method: u8,
    pub row: u8,
    pub next: u64,
}

// How a patrol begins.
#[repr(C)]
#[derive(Clone, Copy)]
pub struct PatrolBegunAnswer {
    pub refusal: u32,
    pub state: PatrolState,
}

// What a call of a patrol saw, and what it leaves.
#[repr(C)]
#[derive(Clone, Copy)]
pub struct PatrolledAnswer {
    pub verdict: VerdictAnswer,
    pub stripe: u64,
    pub state: PatrolState,
}

// The guard of a run of bytes of any length.
#[unsafe(no_mangle)]
pub extern "C" fn irumbolai_guard(bytes: &[u8]) -> u16
    ensures { result ≡ guard bytes.now }
{
    fold::guard(bytes)
}

// The guards of sixteen runs of 512 bytes, each `stride` bytes after the one before.
#[unsafe(no_mangle)]
pub extern "C" fn irumbolai_guards(bytes: &[u8], stride: usize) -> GuardsAnswer
    ensures { result.guard ≡ guards_of 16 stride bytes.now }
{
    let guard = fold::guards(bytes, stride);
    GuardsAnswer { guard }
}

// The number of a refusal.
fn refusal_number(refusal: Refusal) -> u32
    ensures { result ≡ number refusal }
{
    u32::from(u8::from(refusal))
}

// Whether a field fits, by its fault.
fn fit(fault: u8) -> u32
    ensures { result ≡ 1 - fault }
{
    u32::from(fault == 0)
}

// An answer that speaks of no bad member.
fn no_fault(refusal: u32, kind: u32, first: u32, count: u32) -> VerdictAnswer
    ensures { verdict_fields result ≡ refusal ∷ kind ∷ first ∷ count ∷ 0 ∷ 0 ∷ 0 ∷ [] }
{
    VerdictAnswer {
        refusal,
        kind,
        first,
        count,
        guard_fits: 0,
        application_fits: 0,
        reference_fits: 0,
    }
}

// A bad member for C.
fn bad_answer(first: u32, count: u32, faults: u8) -> VerdictAnswer
    ensures { verdict_fields result ≡ 0 ∷ 1 ∷ first ∷ count ∷ (1 - faults / 4 % 2) ∷ (1 - faults / 2 % 2) ∷ (1 - faults % 2) ∷ [] }
{
    let guard_fits = fit(faults / 4 % 2);
    let application_fits = fit(faults / 2 % 2);
    let reference_fits = fit(faults % 2);
    VerdictAnswer {
        refusal: 0,
        kind: 1,
        first,
        count,
        guard_fits,
        application_fits,
        reference_fits,
    }
}

// A verdict for C.
// Stays: no `From`, which takes any member; the fields of `VerdictAnswer` hold thirty-two bits.
fn found_answer(verdict: Verdict) -> VerdictAnswer
    requires { Small (1 ∷ 0 ∷ verdict_numbers verdict) }
    ensures { verdict_fields result ≡ spread (0 ∷ verdict_numbers verdict) }
{
    match verdict {
        Verdict::Clean => no_fault(0, 0, 0, 0),
        Verdict::Bad {
            member,
            count,
            faults,
        } => {
            let first = member as u32;
            let count = count as u32;
            bad_answer(first, count, faults)
        }
        Verdict::Unchecked { member, count } => {
            let first = member as u32;
            let count = count as u32;
            no_fault(0, 3, first, count)
        }
        Verdict::Torn { place } => {
            let first = place as u32;
            no_fault(0, 2, first, 0)
        }
    }
}

// An answer of `scrub` or `finish` for C.
// Stays: no `From`, as `found_answer`.
fn verdict_answer(scrubbed: Result<Verdict, Refusal>) -> VerdictAnswer
    requires { Small (scrubbed_numbers scrubbed) }
    ensures { verdict_fields result ≡ spread (unflagged (scrubbed_numbers scrubbed)) }
{
    match scrubbed {
        Ok(verdict) => found_answer(verdict),
        Err(refusal) => no_fault(refusal_number(refusal), 0, 0, 0),
    }
}
