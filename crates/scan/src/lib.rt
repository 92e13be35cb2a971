// The scrub of a stripe that comes in pieces.
#![tactic(auto)]

mod finishing;
mod starting;
mod taking;

ghost use Rattle.std.specs.Prelude.{◌≡◌, ◌*◌, ◌≤◌};
ghost use Rattle.format.specs.Methods.{format_of};
ghost use Rattle.scan.specs.Scans.{fit_by};
ghost use Rattle.scan.specs.Steps.{member_fit, members_fit};

pub use finishing::finish;
use format::MOST_TAGS;
use layout::Array;
use refusal::Refusal;
pub use starting::start;
pub use taking::piece;

// What is held of a stripe between the calls, beside the work buffer: of each member its position in its block, its guard's
// register, with the byte that waits for its pair, and the bytes of its tag.
// Stays: arrays side by side and not one of members, as C has them (`ScanState` of irumbolai), and `Scan` is the form that docs/PROOFS.md names.
#[derive(Clone, Copy)]
pub struct Scan {
    pub array: Array,
    pub stripe: u64,
    pub at: [u16; 16],
    pub register: [u32; 16],
    pub waiting: [u8; 16],
    pub tag: [u8; MOST_TAGS],
}

// Whether a call is done or why it is refused, and the state to go on with.
// Stays: a state beside the answer and not in it, since `start_state` and `piece_state` promise what it is on a refusal too.
#[derive(Clone, Copy)]
pub struct Taken {
    pub answer: Result<(), Refusal>,
    pub state: Scan,
}

// Where a member's tag begins among the tags.
fn tag_at(method: u8, member: usize) -> usize
    requires { member ≤ 16 }
    ensures { result ≡ (format_of method).tag_length * member }
{
    format::tag_length(method) * member
}

// Whether a member may stand at a position with this value and this byte waiting: not past the end of a block, no more bits than a guard has, and
// nothing waits but where a byte can.
fn member_fits(method: u8, position: u16, value: u32, waiting: u8) -> bool
    ensures { result ≡ member_fit (format_of method) position value waiting }
{
    let position = usize::from(position);
    if position > format::block_length(method) {
        return false;
    }
    if value > format::most_value(method) {
        return false;
    }
    waiting == 0 || format::waits(method, position)
}

// Whether the first members all may stand as they do.
fn members_fit(
    method: u8,
    members: usize,
    at: &[u16; 16],
    register: &[u32; 16],
    waiting: &[u8; 16],
) -> bool
    requires { members ≤ 16 }
    ensures { result ≡ members_fit (format_of method) members at.now register.now waiting.now }
{
    (0..members).all(|member| member_fits(method, at[member], register[member], waiting[member]))
}

// Whether a state is fit, by these parts of it: its numbers are in range, its members' positions and values too, and bytes wait only where they
// can.
// Stays: the arrays are lent one by one, measured: a piece of 520 bytes took 9 in a hundred longer with the state lent, and 18 with these five in a struct.
fn fit(array: Array, stripe: u64, at: &[u16; 16], register: &[u32; 16], waiting: &[u8; 16]) -> bool
    ensures { result ≡ fit_by array stripe at.now register.now waiting.now }
{
    layout::check_stripe(array, stripe).is_ok()
        && members_fit(array.method, array.members, at, register, waiting)
}
