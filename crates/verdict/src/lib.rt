// The verdict on how a stripe's members stand and on their combined data, and the quick scrub of its stored guards: all of a scrub that looks at no block.
#![tactic(auto)]

mod wide;

ghost use Rattle.std.specs.Prelude.{◌≡◌, [], ◌∷◌, ◌++◌, eqb, ltb, not, ◌||◌, cond, position, count_by};
ghost use Rattle.std.specs.List.{FoldsTo};
ghost use Rattle.refusal.specs.Refusals.{told};
ghost use Rattle.layout.specs.Arrays.{within};
ghost use Rattle.verdict.specs.Verdicts.{
  count,
  lowest,
  nonzero,
  judged_at,
  judged,
  verdict_numbers,
  combined_guards,
  quick_refusal,
  quick_numbers,
  compared_numbers,
};

use refusal::{Refusal, demand};
use std::ops::BitXor;
pub use wide::quick_scrub_wide;

// How members that are not good stand: the range of the bad ones, by the fields that are not those due, and the unchecked ones.
// Stays: how a member stands is a byte, as `judge` and `judge_at` promise an answer for every list of bytes, and a scan keeps one a member in memory that C lends.
const LEAST_BAD: u8 = 1;

const MOST_BAD: u8 = 7;

const UNCHECKED: u8 = 8;

// What a scrub finds in a stripe: every member good and parity right; the lowest of `count` bad members, and which of its fields are not
// those due (4 the guard, 2 the application tag, 1 the reference tag); with none bad, the lowest of `count` unchecked ones; or, with every member good, the lowest place where the members' data do not combine to zero, or the place
// behind them where what the tags hold does not (01 calls such a stripe torn).
#[derive(Clone, Copy, Debug, PartialEq, Eq)]
pub enum Verdict {
    Clean,
    Bad {
        member: usize,
        count: usize,
        faults: u8,
    },
    Torn {
        place: usize,
    },
    Unchecked {
        member: usize,
        count: usize,
    },
}

// What the quick scrub says of stored guards, each a G: they combine to what is due, or to something else.
#[derive(Clone, Copy, Debug, PartialEq, Eq)]
pub enum Compared<G> {
    Fits,
    Differs { combination: G },
}

// Whether no byte differs from zero: the greatest does not.
fn all_zero(bytes: &[u8]) -> bool
    ensures { result ≡ eqb (count (nonzero bytes.now)) 0 }
{
    bytes
        .iter()
        .fold(0, |greatest: u8, byte| greatest.max(*byte))
        == 0
}

// The first place that is not zero, or the length where there is none.
// Stays: the length, not an Option, as its promise names a number for every list of bytes (`lowest`).
// Stays: a loop over the places: with `position` the edit `first_place_passed_over` would be refused for its form alone.
pub fn first_nonzero(bytes: &[u8]) -> usize
    ensures { result ≡ lowest (nonzero bytes.now) }
{
    if all_zero(bytes) {
        return bytes.len();
    }
    for place in 0..bytes.len() {
        if bytes[place] != 0 {
            return place;
        }
    }
    bytes.len()
}

// The lowest member that stands within a range, if any does.
fn lowest_in(least: u8, most: u8, members: &[u8]) -> Option<usize>
    ensures { result ≡ position (within least most) members.now }
{
    members.iter().position(|how| (least..=most).contains(how))
}

// How many members stand within a range.
fn count_in(least: u8, most: u8, members: &[u8]) -> usize
    ensures { result ≡ count_by (within least most) members.now }
{
    members
        .iter()
        .filter(|how| (least..=most).contains(*how))
        .count()
}

// The verdict on a stripe whose members stand so, with combined data of this length that are zero below a place, and behind their last place
// what is left of the guards in the tags.
pub fn judge_at(members: &[u8], place: usize, length: usize, left: u64) -> Verdict
    ensures { verdict_numbers result ≡ judged_at members.now (ltb place length || not (eqb left 0)) place }
{
    if let Some(member) = lowest_in(LEAST_BAD, MOST_BAD, members) {
        return Verdict::Bad {
            member,
            count: count_in(LEAST_BAD, MOST_BAD, members),
            faults: members[member],
        };
    }
    if let Some(member) = lowest_in(UNCHECKED, UNCHECKED, members) {
        return Verdict::Unchecked {
            member,
            count: count_in(UNCHECKED, UNCHECKED, members),
        };
    }
    if place < length {
        return Verdict::Torn { place };
    }
    if left != 0 {
        return Verdict::Torn { place };
    }
    Verdict::Clean
}

// The same, with the first place that is not zero looked for in the combined data.
pub fn judge(members: &[u8], combined: &[u8], left: u64) -> Verdict
    ensures { verdict_numbers result ≡ judged members.now (nonzero (combined.now ++ (left ∷ []))) }
{
    let place = first_nonzero(combined);
    judge_at(members, place, combined.len(), left)
}

// The exclusive-or of guards of any width.
fn combined<G: BitXor<G, Output = G> + Copy + Default>(guards: &[G]) -> G
    requires { (a b : G) → G.can_bitxor a b }
    ensures { (none : G) × G.is_default none × FoldsTo G.bitxor_gives none guards.now result }
{
    guards
        .iter()
        .fold(G::default(), |combined, guard| combined ^ *guard)
}

// The exclusive-or of guards of sixteen bits.
// Stays: docs/PROOFS.md names it and `combined_wide`; each is one call of `combined`.
pub fn combined_guards(guards: &[u16]) -> u16
    ensures { result ≡ combined_guards guards.now }
{
    combined::<u16>(guards)
}

// The same of guards of thirty-two bits.
pub fn combined_wide(guards: &[u32]) -> u32
    ensures { result ≡ combined_guards guards.now }
{
    combined::<u32>(guards)
}

// Whether so many guards can be those of a stripe.
fn check_guards(guards: usize) -> Result<(), Refusal>
    ensures { told result ≡ quick_refusal guards }
{
    demand((3..=16).contains(&guards), Refusal::Members)
}

// A combination of guards compared with the one that is due.
fn compare<G: PartialEq + Copy>(combination: G, due: G) -> Compared<G>
    ensures { result ≡ cond (G.eq combination due) Compared.Fits (Compared.Differs combination) }
{
    if combination == due {
        return Compared::Fits;
    }
    Compared::Differs { combination }
}

// The stored guards of a stripe, each of sixteen bits, compared: they fit where they combine to zero.
pub fn quick_scrub(guards: &[u16]) -> Result<Compared<u16>, Refusal>
    ensures { compared_numbers result ≡ quick_numbers guards.now }
{
    check_guards(guards.len())?;
    Ok(compare(combined_guards(guards), 0))
}
