// Updates with a record of the stripes that are open, and the recovery of a stripe, for C.
ghost use Rattle.std.specs.Prelude.{◌≡◌, ◌<◌, length, get_or};
ghost use Rattle.layout.specs.Arrays.{array_of};
ghost use Rattle.intent.specs.Calls.{recorded_refusal, recorded_bytes, recorded_log, recovery_numbers, recover_numbers, recover_bytes, recover_log};
ghost use Rattle.irumbolai.specs.Answers.{unflagged, recovery_fields};

use crate::{RecoveryAnswer, refusal_number};
use intent::Recovery;
use refusal::{Refusal, told};

// Replaces a block's data with its stripe entered in the record meanwhile, as far as so many of four stores go.
#[unsafe(no_mangle)]
pub extern "C" fn irumbolai_update_recorded(
    members: usize,
    stripes: u64,
    volume: u8,
    method: u8,
    row: u8,
    block: u64,
    content: &[u8],
    bytes: &mut [u8],
    log: &mut [u8],
    stores: usize,
) -> u32
    ensures value { result ≡ recorded_refusal (array_of members stripes volume method row) block (length content.now) bytes.old log.old }
    ensures bytes_after { bytes.new ≡ recorded_bytes (array_of members stripes volume method row) block content.now bytes.old log.old stores }
    ensures log_after { log.new ≡ recorded_log (array_of members stripes volume method row) block content.now bytes.old log.old stores }
{
    let array = layout::array_of(members, stripes, volume, method, row);
    u32::from(told(intent::update(array, block, content, bytes, log, stores)))
}

// An answer of `recover` for C.
// Stays: no `From`, which takes any member; the field of `RecoveryAnswer` holds thirty-two bits.
fn recovery_answer(recovery: Result<Recovery, Refusal>) -> RecoveryAnswer
    requires { get_or (recovery_numbers recovery) 3 0 < 4294967296 }
    ensures { recovery_fields result ≡ unflagged (recovery_numbers recovery) }
{
    match recovery {
        Ok(Recovery::NotEntered) => RecoveryAnswer {
            refusal: 0,
            kind: 0,
            member: 0,
        },
        Ok(Recovery::Recovered) => RecoveryAnswer {
            refusal: 0,
            kind: 1,
            member: 0,
        },
        Ok(Recovery::Left(member)) => {
            let member = member as u32;
            RecoveryAnswer {
                refusal: 0,
                kind: 2,
                member,
            }
        }
        Err(refusal) => RecoveryAnswer {
            refusal: refusal_number(refusal),
            kind: 0,
            member: 0,
        },
    }
}

// Recovers a stripe that is entered in the record.
#[unsafe(no_mangle)]
pub extern "C" fn irumbolai_recover(
    members: usize,
    stripes: u64,
    volume: u8,
    method: u8,
    row: u8,
    stripe: u64,
    bytes: &mut [u8],
    log: &mut [u8],
) -> RecoveryAnswer
    ensures result_value { recovery_fields result ≡ unflagged (recover_numbers (array_of members stripes volume method row) stripe bytes.old log.old) }
    ensures bytes_after { bytes.new ≡ recover_bytes (array_of members stripes volume method row) stripe bytes.old log.old }
    ensures log_after { log.new ≡ recover_log (array_of members stripes volume method row) stripe bytes.old log.old }
{
    let array = layout::array_of(members, stripes, volume, method, row);
    recovery_answer(intent::recover(array, stripe, bytes, log))
}
