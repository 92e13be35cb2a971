// The repair of an image that comes in pieces. The header, and then each stripe, is held in a lent buffer until it is whole; then it goes on to
// the image that is written, mended if it is a stripe, and the list gets a line for whatever somebody has to look at.
#![tactic(auto)]

mod feeding;
mod header;
mod steps;
mod wholes;

ghost use Rattle.std.specs.Prelude.{◌≡◌, ◌≤◌, List, ℕ, length, take};
ghost use Rattle.refusal.specs.Refusals.{number};
ghost use Rattle.lines.specs.Lines.{line_room};
ghost use Rattle.lines.specs.Stages.{number_of};
ghost use Rattle.repair.specs.Feeding.{Does, holding, entering, over, over_with};

pub use feeding::{close, feed, new};
use layout::Array;
use lines::Stage;
use refusal::Refusal;

// Bytes of room that sixteen blocks of any format have enough of: so long should be the buffer that holds, and the image's. With less, a stripe that
// is longer stops the repair.
pub const ROOM: usize = 65792;

// Where a repair stands between the calls, beside the buffer that holds.
// stage: 0 in the header, 1 in the stripes, 2 behind the last one, 3 when it is over.
// have: how many bytes of the header, or of the stripe, are held.
#[derive(Clone, Copy, Debug, PartialEq, Eq)]
pub struct Repair {
    // Stays: a number, as `feed` and `close` promise their answers in every state, also in one whose number is no stage's.
    pub stage: u8,
    pub have: usize,
    pub array: Array,
    pub stripe: u64,
}

// The state to go on with, how many bytes of the input were used, and how many were written to the image and to the list.
#[derive(Clone, Copy, Debug, PartialEq, Eq)]
pub struct Fed {
    pub state: Repair,
    pub used: usize,
    pub written: usize,
    pub listed: usize,
}

impl Repair {
    // The state at the start of a stage or of a stripe.
    fn entering(stage: Stage, array: Array, stripe: u64) -> Repair
        ensures { result ≡ entering (number_of stage) array stripe }
    {
        Repair {
            stage: stage as u8,
            have: 0,
            array,
            stripe,
        }
    }

    // The state with so many bytes held.
    fn holding(self, have: usize) -> Repair
        ensures { result ≡ holding self have }
    {
        Repair { have, ..self }
    }

    // The state when it is over.
    fn over(self) -> Repair
        ensures { result ≡ over self }
    {
        Repair {
            stage: Stage::Over as u8,
            ..self
        }
    }

    // The bytes that are held.
    fn bytes(self, held: &[u8]) -> &[u8]
        ensures { result.now ≡ take self.have held.now }
    {
        held.get(..self.have).unwrap_or(held)
    }

    // So many bytes are used, and nothing is written.
    fn silent(self, used: usize) -> Fed
        ensures { result ≡ record { state = self; used = used; written = 0; listed = 0 } }
    {
        Fed {
            state: self,
            used,
            written: 0,
            listed: 0,
        }
    }

    // So many bytes are used, and it is over with the line of a refusal.
    fn refused(self, used: usize, refusal: Refusal, list: &mut [u8]) -> Fed
        requires { line_room ≤ length list.old }
        ensures { (held image : List ℕ) → Does (over_with used self held (number refusal)) result held image image list.old list.new }
    {
        let listed = lines::refused_line(list, u8::from(refusal));
        Fed {
            state: self.over(),
            used,
            written: 0,
            listed,
        }
    }
}
