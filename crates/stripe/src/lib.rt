// The jobs on a whole stripe in memory, over the few steps that they share.
#![tactic(auto)]

mod rebuilding;
mod scrubbing;
mod sealing;
mod searching;
mod serving;
mod updating;

ghost use Rattle.std.specs.Prelude.{◌≡◌, ◌+◌, ◌-◌, ◌*◌, ◌≤◌, ◌<◌, true, cond, length, get_or, set, take, Some, None};
ghost use Rattle.std.specs.Int.Bits.{bit_xor};
ghost use Rattle.std.proofs.lemmas.List.Edits.{sets};
ghost use Rattle.stripe.specs.Tables.{span};
ghost use Rattle.layout.specs.Arrays.{stripe_refusal};
ghost use Rattle.layout.specs.Places.{seat_of, owner_refusal};
ghost use Rattle.format.specs.Formats.{guard, guards_of, settled, piece_length};
ghost use Rattle.format.specs.Methods.{format_of};
ghost use Rattle.tag.specs.Blocks.{format_at, data_of, tag_of};
ghost use Rattle.tag.specs.Tags.{found, standing, expected, standing_at, good, guard_due, due, tag_bytes, tagged_by};
ghost use Rattle.verdict.specs.Verdicts.{combined_guards};
ghost use Rattle.stripe.specs.Stripes.{stripe_length, block_of, good_members, others_good, others_data, stored_guard, others_guards, guards_fit};
ghost use Rattle.stripe.specs.Jobs.{with_block};
ghost use Rattle.stripe.specs.Steps.{fitting};

use copy::put;
use format::PIECE;
use layout::{Array, Seat};
pub use rebuilding::rebuild;
pub use scrubbing::{check_scrub, scrub};
pub use sealing::seal;
pub use searching::first_amiss;
pub use serving::read;
use tag::{Fields, GOOD};
pub use updating::{update, update_in_part};
use verdict::combined_wide;

// Bytes of a row: what stays in registers while the members go by.
const ROW: usize = 128;

// What a verified read says: the block's own data, data rebuilt from the other members, or the data of a block that is not to be checked.
#[derive(Clone, Copy, Debug, PartialEq, Eq)]
pub enum Reading {
    Stored,
    Rebuilt,
    Unchecked,
}

// A stripe of an array, with what it is found by.
#[derive(Clone, Copy)]
struct Stripe {
    array: Array,
    number: u64,
    seat: Seat,
    ghost in_array: { stripe_refusal array number ≡ 0 },
    ghost seated: { seat ≡ seat_of array number },
}

impl Stripe {
    // The array's stripe of this number.
    fn at(array: Array, number: u64) -> Stripe
        requires { stripe_refusal array number ≡ 0 }
        ensures array_kept { result.array ≡ array }
        ensures number_kept { result.number ≡ number }
    {
        Stripe {
            array,
            number,
            seat: layout::seat_of(array, number),
        }
    }

    // How a member's block with these fields and this guard of its data stands.
    fn standing_by(self, member: usize, found: Fields, data_guard: u32) -> u8
        requires { member < self.array.members }
        ensures { result ≡ standing (format_at self.array) found (expected self.array self.number member found data_guard) }
    {
        let owned = layout::owner_beside(self.array.row, self.seat, member);
        let expected = tag::expected_to(self.array, Some(owned), found, data_guard);
        tag::standing(self.array.method, found, expected)
    }

    // Writes the tag due to a member's block, with this guard, behind its data.
    fn write_tag(self, member: usize, guard: u64, bytes: &mut [u8])
        requires member_in { member < self.array.members }
        requires bytes_len { length bytes.old ≡ stripe_length self.array }
        ensures { bytes.new ≡ sets bytes.old ((format_at self.array).block_length * member + (format_at self.array).data_length) (tag_bytes (format_at self.array) (due self.array self.number member guard)) }
    {
        let method = self.array.method;
        let to = block_at(method, member) + format::data_length(method);
        let place = layout::owner_beside(self.array.row, self.seat, member);
        let due = tag::due_to(self.array, Some(place), guard, guard);
        tag::write(due, bytes, to, format::quarter(method));
    }

    // Writes a member's block: the data, and the tag due there with this guard.
    fn write_block(self, member: usize, content: &[u8], guard: u64, bytes: &mut [u8])
        requires member_in { member < self.array.members }
        requires bytes_len { length bytes.old ≡ stripe_length self.array }
        requires content_len { length content.now ≡ (format_at self.array).data_length }
        ensures { bytes.new ≡ with_block (format_at self.array) bytes.old member (tagged_by self.array self.number member guard content.now) }
    {
        put(bytes, block_at(self.array.method, member), content);
        self.write_tag(member, guard, bytes);
    }
}

// A stripe in memory: all its bytes.
#[derive(Clone, Copy)]
struct Held<'a> {
    stripe: Stripe,
    bytes: &'a [u8],
    ghost whole: { length bytes.now ≡ stripe_length stripe.array },
}

impl<'a> Held<'a> {
    // The guards of the members' data, from the front.
    fn guards(&self) -> [u32; 16]
        ensures { result ≡ guards_of (format_at self.now.stripe.array) 16 (format_at self.now.stripe.array).block_length self.now.bytes.now }
    {
        let method = self.stripe.array.method;
        format::guards(method, self.bytes, format::block_length(method))
    }

    // How a member's block stands.
    fn standing(&self, member: usize) -> u8
        requires { member < self.now.stripe.array.members }
        ensures { result ≡ standing_at self.now.stripe.array self.now.stripe.number member (block_of (format_at self.now.stripe.array) self.now.bytes.now member) }
    {
        let method = self.stripe.array.method;
        let from = block_at(method, member);
        let end = from + format::data_length(method);
        let data_guard = format::guard(method, &self.bytes[from..end]);
        let found = stored(method, self.bytes, member);
        self.stripe.standing_by(member, found, data_guard)
    }

    // Whether a member's block is good.
    fn is_good(&self, member: usize) -> bool
        requires { member < self.now.stripe.array.members }
        ensures { result ≡ good self.now.stripe.array self.now.stripe.number member (block_of (format_at self.now.stripe.array) self.now.bytes.now member) }
    {
        self.standing(member) == GOOD
    }

    // Whether a member with this guard of its data is good, or is the one left out.
    fn passes(&self, skip: usize, member: usize, data_guard: u32) -> bool
        requires member_in { member < self.now.stripe.array.members }
        requires data_guard_value { data_guard ≡ guard (format_at self.now.stripe.array) (data_of (format_at self.now.stripe.array) (block_of (format_at self.now.stripe.array) self.now.bytes.now member)) }
        ensures { result ≡ get_or (set (good_members self.now.stripe.array self.now.stripe.number self.now.bytes.now) skip true) member true }
    {
        if member == skip {
            return true;
        }
        let found = stored(self.stripe.array.method, self.bytes, member);
        self.stripe.standing_by(member, found, data_guard) == GOOD
    }

    // Whether every member but `skip` is good, by the guards of the members' data.
    fn others_good(&self, skip: usize, guards: [u32; 16]) -> bool
        requires { guards ≡ guards_of (format_at self.now.stripe.array) 16 (format_at self.now.stripe.array).block_length self.now.bytes.now }
        ensures { result ≡ others_good self.now.stripe.array self.now.stripe.number skip self.now.bytes.now }
    {
        // A copy: with the fields read through `self` in the loop, measured, a rebuild took up to 6 in a hundred longer.
        let held = *self;
        for member in 0..held.stripe.array.members {
            if !held.passes(skip, member, guards[member]) {
                return false;
            }
        }
        true
    }

    // The guard due to data made again for a member, where the parity carries the data members' guards and these data may be taken for those
    // lost: the others' guards tell the parity's, and have to fit a data member's.
    fn made_guard(&self, member: usize, content: &[u8]) -> Option<u64>
        requires { (format_at self.now.stripe.array).carries ≡ true }
        ensures { result ≡ cond (guards_fit self.now.stripe.array self.now.stripe.number member self.now.bytes.now (guard (format_at self.now.stripe.array) content.now)) (Some (guard_due self.now.stripe.array self.now.stripe.number member (others_guards (format_at self.now.stripe.array) self.now.stripe.array.members member self.now.bytes.now) (guard (format_at self.now.stripe.array) content.now))) None }
    {
        let method = self.stripe.array.method;
        let others = stored_combined(method, self.bytes, self.stripe.array.members, member);
        if member == self.stripe.seat.parity {
            return Some(others);
        }
        let own = u64::from(format::guard(method, content));
        if others == own { Some(own) } else { None }
    }

    // The data made again for a member where blocks have one piece and the parity carries the data members' guards; and the guard due to them,
    // where they may be taken for those lost.
    fn made_piece(&self, member: usize, piece: &mut [u8]) -> Option<u64>
        requires carries { (format_at self.now.stripe.array).carries ≡ true }
        requires piece_len { length piece.old ≡ piece_length }
        ensures guard_value { result ≡ cond (fitting self.now.stripe.array self.now.stripe.number member self.now.bytes.now) (Some (guard_due self.now.stripe.array self.now.stripe.number member (others_guards (format_at self.now.stripe.array) self.now.stripe.array.members member self.now.bytes.now) (guard (format_at self.now.stripe.array) (others_data (format_at self.now.stripe.array) self.now.stripe.array.members member self.now.bytes.now)))) None }
        ensures piece_after { piece.new ≡ others_data (format_at self.now.stripe.array) self.now.stripe.array.members member self.now.bytes.now }
    {
        let array = self.stripe.array;
        combined(array.method, self.bytes, array.members, member, 0, piece, 0);
        self.made_guard(member, piece)
    }
}

// Where a member's block begins.
fn block_at(method: u8, member: usize) -> usize
    requires { (format_of method).block_length * member ≤ 18446744073709551615 }
    ensures { result ≡ (format_of method).block_length * member }
{
    format::block_length(method) * member
}

// One row of the combined data of all members but `skip`.
// Stays: here and below the method, the bytes and the members go one by one: they are the arguments of loops over bytes that are lent as `&` in some jobs
// and as `&mut` in others, so no one struct holds them; each asks only that so many blocks lie in the bytes, and that a member is one of the stripe's.
fn row(method: u8, bytes: &[u8], members: usize, skip: usize, at: usize) -> [u8; 128]
    requires members_in_bounds { (format_of method).block_length * members ≤ length bytes.now }
    requires at_bound { at + 128 ≤ (format_of method).data_length }
    ensures { result ≡ span at 128 (others_data (format_of method) members skip bytes.now) }
{
    let mut row = [0u8; 128];
    for member in 0..members {
        if member != skip {
            let from = block_at(method, member) + at;
            let end = from + ROW;
            xor::xor_into(&mut row, &bytes[from..end]);
        }
    }
    row
}

// The piece from a place on of the combined data of all members but `skip`, all of them where there is no such member: one pass over the
// members, row by row. It is put into `out`, from another place on.
fn combined(
    method: u8,
    bytes: &[u8],
    members: usize,
    skip: usize,
    from: usize,
    out: &mut [u8],
    to: usize,
)
    requires members_in_bounds { (format_of method).block_length * members ≤ length bytes.now }
    requires piece_length_bound { from + piece_length ≤ (format_of method).data_length }
    requires piece_length_in_bounds { to + piece_length ≤ length out.old }
    ensures { out.new ≡ sets out.old to (span from piece_length (others_data (format_of method) members skip bytes.now)) }
{
    for k in 0..PIECE / ROW {
        let at = k * ROW;
        let row = row(method, bytes, members, skip, from + at);
        put(out, to + at, &row);
    }
}

// Makes the data of a member in their place, from those of all others, piece by piece.
fn make_data(method: u8, members: usize, member: usize, bytes: &mut [u8])
    requires members_in_bounds { (format_of method).block_length * members ≤ length bytes.old }
    requires member_lt_members { member < members }
    ensures { bytes.new ≡ sets bytes.old ((format_of method).block_length * member) (others_data (format_of method) members member bytes.old) }
{
    let data = format::data_length(method);
    let to = block_at(method, member);
    let mut piece = [0u8; PIECE];
    for k in 0..data / PIECE {
        let from = k * PIECE;
        combined(method, bytes, members, member, from, &mut piece, 0);
        put(bytes, to + from, &piece);
    }
}

// The fields of a member's tag, as they stand.
fn stored(method: u8, bytes: &[u8], member: usize) -> Fields
    requires { (format_of method).block_length * member + (format_of method).block_length ≤ length bytes.now }
    ensures { result ≡ found (format_of method) (tag_of (format_of method) (block_of (format_of method) bytes.now member)) }
{
    let at = block_at(method, member) + format::data_length(method);
    tag::fields_at(bytes, at, format::quarter(method))
}

// The guard in a member's tag, as it stands.
fn stored_guard(method: u8, bytes: &[u8], member: usize) -> u64
    requires { (format_of method).block_length * member + (format_of method).block_length ≤ length bytes.now }
    ensures { result ≡ stored_guard (format_of method) (block_of (format_of method) bytes.now member) }
{
    let found = stored(method, bytes, member);
    found.guard
}

// What the guards in the tags of all members but `skip` combine to, of all of them where there is no such member.
fn stored_combined(method: u8, bytes: &[u8], members: usize, skip: usize) -> u64
    requires { (format_of method).block_length * members ≤ length bytes.now }
    ensures { result ≡ others_guards (format_of method) members skip bytes.now }
{
    let mut guards: u64 = 0;
    for member in 0..members {
        if member != skip {
            guards ^= stored_guard(method, bytes, member);
        }
    }
    guards
}

// The guard of the data made again for a member, by the guards of all members' data: guards of data combine to that of the data.
fn plain_guard(method: u8, members: usize, member: usize, guards: [u32; 16]) -> u64
    requires member_lt_members { member < members }
    requires members_bound { members ≤ 16 }
    ensures { result ≡ bit_xor (bit_xor (combined_guards (take members guards)) (get_or guards member 0)) (settled (format_of method) members) }
{
    let others = combined_wide(&guards[0..members]) ^ guards[member];
    u64::from(others ^ format::settled(method, members))
}
