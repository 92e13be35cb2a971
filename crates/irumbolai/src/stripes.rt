// The jobs on blocks and stripes in memory, for C.
ghost use Rattle.std.specs.Prelude.{◌≡◌, cond, ◌∷◌, eqb, length, replicate};
ghost use Rattle.layout.specs.Arrays.{array_of};
ghost use Rattle.tag.specs.Tags.{faults, kind_of, beside, side_by_side, checked_numbers, check_numbers};
ghost use Rattle.stripe.specs.Jobs.{seal_refusal, seal_bytes, reading_numbers, read_numbers, read_out, rebuild_refusal, rebuild_bytes, update_refusal, update_bytes};
ghost use Rattle.refusal.specs.Refusals.{told};
ghost use Rattle.irumbolai.specs.Answers.{unflagged, field_numbers, check_fields, read_fields};

use crate::{CheckAnswer, FieldAnswer, ReadAnswer, refusal_number};
use refusal::{Refusal, told};
use stripe::Reading;
use tag::{Checked, Fields};

// A field of which nothing is told.
const NO_FIELD: FieldAnswer = FieldAnswer {
    found: 0,
    expected: 0,
    fits: 0,
};

// A field for C.
fn field_answer(found: u64, expected: u64) -> FieldAnswer
    ensures { field_numbers result ≡ beside found expected }
{
    FieldAnswer {
        found,
        expected,
        fits: u32::from(found == expected),
    }
}

// A check that tells no fields, for C.
fn no_fields(refusal: u32, kind: u32) -> CheckAnswer
    ensures { check_fields result ≡ refusal ∷ kind ∷ replicate 9 0 }
{
    CheckAnswer {
        refusal,
        kind,
        guard: NO_FIELD,
        application: NO_FIELD,
        reference: NO_FIELD,
    }
}

// The kind of a block whose fields are told: bad where any is at fault.
fn told_kind(faults: u8) -> u32
    ensures { result ≡ cond (eqb faults 0) 0 1 }
{
    u32::from(faults != 0)
}

// Fields that are told, for C.
fn told_answer(found: Fields, expected: Fields) -> CheckAnswer
    ensures { check_fields result ≡ 0 ∷ kind_of (faults found expected) ∷ side_by_side found expected }
{
    let kind = told_kind(tag::faults(found, expected));
    let guard = field_answer(found.guard, expected.guard);
    let application = field_answer(found.application, expected.application);
    let reference = field_answer(found.reference, expected.reference);
    CheckAnswer {
        refusal: 0,
        kind,
        guard,
        application,
        reference,
    }
}

// An answer of `check` for C.
impl From<Result<Checked, Refusal>> for CheckAnswer {
    ghost from_gives = { λ checked answer. check_fields answer ≡ unflagged (checked_numbers checked) };

    fn from(checked: Result<Checked, Refusal>) -> CheckAnswer {
        match checked {
            Ok(Checked::Unchecked) => no_fields(0, 2),
            Ok(Checked::Told { found, expected }) => told_answer(found, expected),
            Err(refusal) => no_fields(refusal_number(refusal), 0),
        }
    }
}

// A block checked against the tag due at its place.
#[unsafe(no_mangle)]
pub extern "C" fn irumbolai_check(
    members: usize,
    stripes: u64,
    volume: u8,
    method: u8,
    row: u8,
    stripe: u64,
    member: usize,
    block: &[u8],
) -> CheckAnswer
    ensures { check_fields result ≡ unflagged (check_numbers (array_of members stripes volume method row) stripe member block.now) }
{
    let array = layout::array_of(members, stripes, volume, method, row);
    CheckAnswer::from(tag::check(array, stripe, member, block))
}

// Writes every byte of a stripe, from its data.
#[unsafe(no_mangle)]
pub extern "C" fn irumbolai_seal(
    members: usize,
    stripes: u64,
    volume: u8,
    method: u8,
    row: u8,
    stripe: u64,
    content: &[u8],
    bytes: &mut [u8],
) -> u32
    ensures value { result ≡ seal_refusal (array_of members stripes volume method row) stripe (length content.now) (length bytes.old) }
    ensures bytes_after { bytes.new ≡ seal_bytes (array_of members stripes volume method row) stripe content.now bytes.old }
{
    let array = layout::array_of(members, stripes, volume, method, row);
    u32::from(told(stripe::seal(array, stripe, content, bytes)))
}

// An answer of `read` for C.
impl From<Result<Reading, Refusal>> for ReadAnswer {
    ghost from_gives = { λ reading answer. read_fields answer ≡ unflagged (reading_numbers reading) };

    fn from(reading: Result<Reading, Refusal>) -> ReadAnswer {
        match reading {
            Ok(Reading::Stored) => ReadAnswer {
                refusal: 0,
                kind: 0,
            },
            Ok(Reading::Rebuilt) => ReadAnswer {
                refusal: 0,
                kind: 1,
            },
            Ok(Reading::Unchecked) => ReadAnswer {
                refusal: 0,
                kind: 2,
            },
            Err(refusal) => ReadAnswer {
                refusal: refusal_number(refusal),
                kind: 0,
            },
        }
    }
}

// A block's data, verified.
#[unsafe(no_mangle)]
pub extern "C" fn irumbolai_read(
    members: usize,
    stripes: u64,
    volume: u8,
    method: u8,
    row: u8,
    block: u64,
    bytes: &[u8],
    out: &mut [u8],
) -> ReadAnswer
    ensures result_value { read_fields result ≡ unflagged (read_numbers (array_of members stripes volume method row) block bytes.now (length out.old)) }
    ensures out_after { out.new ≡ read_out (array_of members stripes volume method row) block bytes.now out.old }
{
    let array = layout::array_of(members, stripes, volume, method, row);
    ReadAnswer::from(stripe::read(array, block, bytes, out))
}

// Makes a member's block from the others.
#[unsafe(no_mangle)]
pub extern "C" fn irumbolai_rebuild(
    members: usize,
    stripes: u64,
    volume: u8,
    method: u8,
    row: u8,
    stripe: u64,
    member: usize,
    bytes: &mut [u8],
) -> u32
    ensures value { result ≡ rebuild_refusal (array_of members stripes volume method row) stripe member bytes.old }
    ensures bytes_after { bytes.new ≡ rebuild_bytes (array_of members stripes volume method row) stripe member bytes.old }
{
    let array = layout::array_of(members, stripes, volume, method, row);
    u32::from(told(stripe::rebuild(array, stripe, member, bytes)))
}

// Replaces a block's data, and brings the parity along.
#[unsafe(no_mangle)]
pub extern "C" fn irumbolai_update(
    members: usize,
    stripes: u64,
    volume: u8,
    method: u8,
    row: u8,
    block: u64,
    content: &[u8],
    bytes: &mut [u8],
) -> u32
    ensures value { result ≡ update_refusal (array_of members stripes volume method row) block (length content.now) bytes.old }
    ensures bytes_after { bytes.new ≡ update_bytes (array_of members stripes volume method row) block content.now bytes.old }
{
    let array = layout::array_of(members, stripes, volume, method, row);
    u32::from(told(stripe::update(array, block, content, bytes)))
}
