// The patrol, for C.
ghost use Rattle.std.specs.Prelude.{◌≡◌, length};
ghost use Rattle.refusal.specs.Refusals.{told};
ghost use Rattle.layout.specs.Arrays.{array_of, array_refusal};
ghost use Rattle.patrol.specs.Patrols.{
  begin_state,
  turn_numbers,
  turn_state,
  request_numbers,
  seen_numbers,
};
ghost use Rattle.irumbolai.specs.Answers.{patrol_of, unflagged, verdict_fields, spread, stripe_answered, is_idle, Small};

use crate::{
    PatrolBegunAnswer, PatrolState, PatrolledAnswer, found_answer, no_fault, refusal_number,
};
use patrol::{Begun, Patrol, Patrolled, Seen};
use refusal::told;

// The state that C hands in.
impl From<PatrolState> for Patrol {
    ghost from_gives = { λ state patrol. patrol ≡ patrol_of state };

    fn from(state: PatrolState) -> Patrol {
        let array = layout::array_of(
            state.members,
            state.stripes,
            state.volume,
            state.method,
            state.row,
        );
        Patrol {
            array,
            next: state.next,
        }
    }
}

// A state for C.
impl From<Patrol> for PatrolState {
    ghost from_gives = { λ patrol state. patrol_of state ≡ patrol };

    fn from(patrol: Patrol) -> PatrolState {
        let array = patrol.array;
        PatrolState {
            members: array.members,
            stripes: array.stripes,
            volume: array.volume,
            method: array.method,
            row: array.row,
            next: patrol.next,
        }
    }
}

// How a patrol begins, for C.
impl From<Begun> for PatrolBegunAnswer {
    ghost from_gives = { λ begun answer. (answer.refusal ≡ told begun.answer) × (patrol_of answer.state ≡ begun.state) };

    fn from(begun: Begun) -> PatrolBegunAnswer {
        PatrolBegunAnswer {
            refusal: u32::from(told(begun.answer)),
            state: PatrolState::from(begun.state),
        }
    }
}

// An answer of `turn` or `request` for C.
// Stays: no `From`, as `found_answer`.
fn patrolled_answer(patrolled: Patrolled) -> PatrolledAnswer
    requires { Small (seen_numbers patrolled.seen) }
    ensures verdict_value { verdict_fields result.verdict ≡ spread (unflagged (seen_numbers patrolled.seen)) }
    ensures stripe_value { result.stripe ≡ stripe_answered (seen_numbers patrolled.seen) }
    ensures state_value { patrol_of result.state ≡ patrolled.state }
{
    let state = PatrolState::from(patrolled.state);
    match patrolled.seen {
        Ok(Seen::Nothing) => PatrolledAnswer {
            verdict: no_fault(0, 0, 0, 0),
            stripe: 0,
            state,
        },
        Ok(Seen::Stripe { number, verdict }) => PatrolledAnswer {
            verdict: found_answer(verdict),
            stripe: number,
            state,
        },
        Err(refusal) => PatrolledAnswer {
            verdict: no_fault(refusal_number(refusal), 0, 0, 0),
            stripe: 0,
            state,
        },
    }
}

// Begins a patrol at stripe 0.
#[unsafe(no_mangle)]
pub extern "C" fn irumbolai_patrol_begin(
    members: usize,
    stripes: u64,
    volume: u8,
    method: u8,
    row: u8,
) -> PatrolBegunAnswer
    ensures refusal_value { result.refusal ≡ array_refusal (array_of members stripes volume method row) }
    ensures state_value { patrol_of result.state ≡ begin_state (array_of members stripes volume method row) }
{
    let array = layout::array_of(members, stripes, volume, method, row);
    PatrolBegunAnswer::from(patrol::begin(array))
}

// A turn, idle or busy.
#[unsafe(no_mangle)]
pub extern "C" fn irumbolai_patrol_turn(
    state: PatrolState,
    idle: u32,
    bytes: &[u8],
) -> PatrolledAnswer
    ensures verdict_value { verdict_fields result.verdict ≡ spread (unflagged (turn_numbers (patrol_of state) (is_idle idle) bytes.now)) }
    ensures stripe_value { result.stripe ≡ stripe_answered (turn_numbers (patrol_of state) (is_idle idle) bytes.now) }
    ensures state_value { patrol_of result.state ≡ turn_state (patrol_of state) (is_idle idle) (length bytes.now) }
{
    let patrol = Patrol::from(state);
    patrolled_answer(patrol::turn(patrol, idle != 0, bytes))
}

// A stripe out of turn.
#[unsafe(no_mangle)]
pub extern "C" fn irumbolai_patrol_request(
    state: PatrolState,
    stripe: u64,
    bytes: &[u8],
) -> PatrolledAnswer
    ensures verdict_value { verdict_fields result.verdict ≡ spread (unflagged (request_numbers (patrol_of state) stripe bytes.now)) }
    ensures stripe_value { result.stripe ≡ stripe_answered (request_numbers (patrol_of state) stripe bytes.now) }
    ensures state_value { patrol_of result.state ≡ patrol_of state }
{
    let patrol = Patrol::from(state);
    patrolled_answer(patrol::request(patrol, stripe, bytes))
}
