// A scan ends in the full scrub's verdict.
ghost use Rattle.std.specs.Prelude.{◌≡◌, ◌*◌, ◌≤◌, ◌<◌, take};
ghost use Rattle.refusal.specs.Refusals.{told};
ghost use Rattle.layout.specs.Places.{seat_of};
ghost use Rattle.tag.specs.Blocks.{format_at};
ghost use Rattle.tag.specs.Tags.{found};
ghost use Rattle.verdict.specs.Verdicts.{scrubbed_numbers};
ghost use Rattle.stripe.specs.Tables.{span};
ghost use Rattle.stripe.specs.Stripes.{left_of};
ghost use Rattle.scan.specs.Scans.{register_at, finish_refusal, finish_numbers};
ghost use Rattle.scan.specs.Rows.{FitState};
ghost use Rattle.scan.specs.Steps.{all_whole, held_standing, standings_held, held_guards};

use crate::{Scan, fit, tag_at};
use format::register_of;
use layout::Seat;
use refusal::{Refusal, demand};
use tag::Fields;
use verdict::Verdict;

impl Scan {
    // Whether all members stand at the end of a block.
    fn all_whole(self) -> bool
        requires { self.array.members ≤ 16 }
        ensures { result ≡ all_whole (format_at self.array) self.array.members self.at }
    {
        let block = format::block_length(self.array.method);
        let at = self.at;
        at[..self.array.members]
            .iter()
            .all(|position| usize::from(*position) == block)
    }

    // Whether a scan can end: the state is fit, the work buffer as long as a block's data, and no member lacks bytes. The arrays are taken out of the
    // state, as in `check_piece`.
    fn check_finish(self, length: usize) -> Result<(), Refusal>
        ensures { told result ≡ finish_refusal self length }
    {
        let at = self.at;
        let register = self.register;
        let waiting = self.waiting;
        let fits = fit(self.array, self.stripe, &at, &register, &waiting);
        demand(fits, Refusal::State)?;
        demand(
            length == format::data_length(self.array.method),
            Refusal::Length,
        )?;
        demand(self.all_whole(), Refusal::Unfinished)
    }

    // The fields of a member's tag, as they are held.
    fn held_fields(&self, member: usize) -> Fields
        requires { member < 16 }
        ensures { result ≡ found (format_at self.now.array) (span ((format_at self.now.array).tag_length * member) (format_at self.now.array).tag_length self.now.tag) }
    {
        let method = self.array.method;
        tag::fields_at(&self.tag, tag_at(method, member), format::quarter(method))
    }

    // How a member stands, by its register, its tag as it is held and what its stripe is found by.
    fn standing(&self, seat: Seat, member: usize) -> u8
        requires fit_state { FitState self.now }
        requires member_bound { member < self.now.array.members }
        requires seat_value { seat ≡ seat_of self.now.array self.now.stripe }
        ensures { result ≡ held_standing self.now.array self.now.stripe member (register_at (format_at self.now.array) self.now member) self.now.tag }
    {
        let method = self.array.method;
        let register = register_of(method, self.register[member], self.waiting[member]) as u32;
        let guard = format::guard_of(method, register);
        let found = self.held_fields(member);
        let owned = layout::owner_beside(self.array.row, seat, member);
        let expected = tag::expected_to(self.array, Some(owned), found, guard);
        tag::standing(method, found, expected)
    }

    // How the members stand, in member order from the front.
    fn standings(&self) -> [u8; 16]
        requires { FitState self.now }
        ensures { take self.now.array.members result ≡ standings_held self.now }
    {
        let seat = layout::seat_of(self.array, self.stripe);
        let mut standing = [0u8; 16];
        for member in 0..self.array.members {
            standing[member] = self.standing(seat, member);
        }
        standing
    }

    // What is left of the guards in the tags held, where the parity carries the data members'.
    fn guards_left(&self) -> u64
        requires { self.now.array.members ≤ 16 }
        ensures { result ≡ left_of (format_at self.now.array) (held_guards (format_at self.now.array) self.now.array.members self.now.tag) }
    {
        if !format::carries(self.array.method) {
            return 0;
        }
        (0..self.array.members).fold(0, |guards, member| guards ^ self.held_fields(member).guard)
    }
}

// Ends a scan: the verdict by what the state and the work buffer hold. It changes nothing, and may be asked again.
pub fn finish(state: Scan, work: &[u8]) -> Result<Verdict, Refusal>
    ensures { scrubbed_numbers result ≡ finish_numbers state work.now }
{
    state.check_finish(work.len())?;
    let members = state.array.members;
    // A copy, so that a state which is refused need not lie in memory whole.
    let held = state;
    let standing = held.standings();
    let left = held.guards_left();
    Ok(verdict::judge(&standing[0..members], work, left))
}
