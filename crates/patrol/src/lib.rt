// The patrol: at each idle turn it scrubs the next stripe of an array, round and round; at a busy turn it rests. A stripe may also be asked for out
// of turn. A call decides first whether it is refused; a call that is refused hands the state back as it came.
#![tactic(auto)]

ghost use Rattle.std.specs.Prelude.{◌≡◌, ◌<◌, length};
ghost use Rattle.refusal.specs.Refusals.{told};
ghost use Rattle.layout.specs.Arrays.{array_refusal};
ghost use Rattle.stripe.specs.Verdicts.{scrub_refusal};
ghost use Rattle.patrol.specs.Patrols.{
  begin_state,
  following,
  turn_refusal,
  turn_numbers,
  turn_state,
  request_refusal,
  request_numbers,
  scrub_of,
  seen_numbers,
};

use layout::Array;
use refusal::{Refusal, demand};
use verdict::Verdict;

// Where a patrol stands: the array, and the stripe that its next idle turn scrubs.
#[derive(Clone, Copy, Debug, PartialEq, Eq)]
pub struct Patrol {
    pub array: Array,
    pub next: u64,
}

// Whether a patrol begins, and the state to go on with.
#[derive(Clone, Copy, Debug, PartialEq, Eq)]
pub struct Begun {
    pub answer: Result<(), Refusal>,
    pub state: Patrol,
}

// What a turn or a request saw: nothing, at a busy turn, or a stripe, with the full scrub's verdict.
#[derive(Clone, Copy, Debug, PartialEq, Eq)]
pub enum Seen {
    Nothing,
    Stripe { number: u64, verdict: Verdict },
}

// What was seen, and the state to go on with.
#[derive(Clone, Copy, Debug, PartialEq, Eq)]
pub struct Patrolled {
    pub seen: Result<Seen, Refusal>,
    pub state: Patrol,
}

// Begins a patrol at stripe 0; zeros throughout where it is refused.
pub fn begin(array: Array) -> Begun
    ensures refusal_value { told result.answer ≡ array_refusal array }
    ensures state_value { result.state ≡ begin_state array }
{
    match layout::check_array(array) {
        Ok(()) => Begun {
            answer: Ok(()),
            state: Patrol { array, next: 0 },
        },
        Err(refusal) => Begun {
            answer: Err(refusal),
            state: Patrol {
                array: layout::no_array(),
                next: 0,
            },
        },
    }
}

// Whether a turn is refused: by an unfit state; where it is idle, by bytes of another length than a stripe's.
fn check_turn(state: Patrol, idle: bool, length: usize) -> Result<(), Refusal>
    ensures { told result ≡ turn_refusal state idle length }
{
    let array = state.array;
    demand(
        layout::check_stripe(array, state.next).is_ok(),
        Refusal::State,
    )?;
    if !idle {
        return Ok(());
    }
    demand(
        length == format::block_length(array.method) * array.members,
        Refusal::Length,
    )
}

// Whether a request is refused: no such stripe, then as an idle turn.
fn check_request(state: Patrol, stripe: u64, length: usize) -> Result<(), Refusal>
    ensures { told result ≡ request_refusal state stripe length }
{
    demand(stripe < state.array.stripes, Refusal::Place)?;
    check_turn(state, true, length)
}

// The stripe after this one, and after the last the first again.
fn following(array: Array, stripe: u64) -> u64
    requires { stripe < array.stripes }
    ensures { result ≡ following array stripe }
{
    let next = stripe + 1;
    if next == array.stripes { 0 } else { next }
}

// Scrubs a stripe that nothing refuses.
fn look(array: Array, stripe: u64, bytes: &[u8]) -> Result<Seen, Refusal>
    requires { scrub_refusal array stripe (length bytes.now) ≡ 0 }
    ensures { seen_numbers result ≡ scrub_of array stripe bytes.now }
{
    let verdict = stripe::scrub(array, stripe, bytes)?;
    Ok(Seen::Stripe {
        number: stripe,
        verdict,
    })
}

// A turn: idle, it scrubs the lent bytes as the next stripe, and moves on; busy, it looks at no byte and stays.
pub fn turn(state: Patrol, idle: bool, bytes: &[u8]) -> Patrolled
    ensures seen_value { seen_numbers result.seen ≡ turn_numbers state idle bytes.now }
    ensures state_value { result.state ≡ turn_state state idle (length bytes.now) }
{
    if let Err(refusal) = check_turn(state, idle, bytes.len()) {
        return Patrolled {
            seen: Err(refusal),
            state,
        };
    }
    let array = state.array;
    let next = following(array, state.next);
    if !idle {
        let seen = Ok(Seen::Nothing);
        return Patrolled { seen, state };
    }
    let seen = look(array, state.next, bytes);
    let state = Patrol { array, next };
    Patrolled { seen, state }
}

// The scrub of a stripe out of turn.
fn asked(state: Patrol, stripe: u64, bytes: &[u8]) -> Result<Seen, Refusal>
    ensures { seen_numbers result ≡ request_numbers state stripe bytes.now }
{
    check_request(state, stripe, bytes.len())?;
    look(state.array, stripe, bytes)
}

// A stripe out of turn: scrubs the lent bytes as that stripe, and does not move the patrol.
pub fn request(state: Patrol, stripe: u64, bytes: &[u8]) -> Patrolled
    ensures seen_value { seen_numbers result.seen ≡ request_numbers state stripe bytes.now }
    ensures state_value { result.state ≡ state }
{
    let seen = asked(state, stripe, bytes);
    Patrolled { seen, state }
}
