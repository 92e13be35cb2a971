// A piece of a member's block is taken in.
ghost use Rattle.std.specs.Prelude.{◌≡◌, ℕ, ◌+◌, ◌-◌, ◌*◌, ◌≤◌, ◌<◌, true, cond, eqb, length, get_or, set};
ghost use Rattle.std.proofs.lemmas.List.Edits.{sets};
ghost use Rattle.refusal.specs.Refusals.{told};
ghost use Rattle.format.specs.Formats.{piece_length};
ghost use Rattle.format.specs.Methods.{format_of};
ghost use Rattle.tag.specs.Blocks.{format_at};
ghost use Rattle.scan.specs.Steps.{combined_from, tags_from};
ghost use Rattle.scan.specs.Scans.{fit_by, data_of_piece, buffer, advanced, piece_refusal, piece_state, piece_work};

use crate::{Scan, Taken, fit, tag_at};
use copy::put;
use format::{PIECE, USUAL_TAG, data_room, register_of, tag_place, value_in, waiting_in};
use layout::Array;
use refusal::{Refusal, demand};
use std::array;
use xor::least;

// Whether of all sixteen positions none is past an end.
fn none_past(at: &[u16; 16], end: u16) -> bool
    ensures { result ≡ true → (i : ℕ) → i < 16 → get_or at.now i 0 ≤ end }
{
    at.iter()
        .fold(true, |none, position| none & (*position <= end))
}

// Whether of all sixteen values none is above the most that there may be: told by the bits of all together, if they are no more than that.
fn none_above(register: &[u32; 16], most: u32) -> bool
    ensures { result ≡ true → (i : ℕ) → i < 16 → get_or register.now i 0 ≤ most }
{
    register.iter().fold(0, |all, value| all | *value) <= most
}

// Whether for none of all sixteen a byte waits.
fn none_waits(waiting: &[u8; 16]) -> bool
    ensures { result ≡ true → (i : ℕ) → i < 16 → get_or waiting.now i 0 ≡ 0 }
{
    waiting.iter().fold(true, |none, byte| none & (*byte == 0))
}

// Whether a state is fit: at once where it can be told of all sixteen together, else by its members one by one.
fn fit_at_once(
    array: Array,
    stripe: u64,
    at: &[u16; 16],
    register: &[u32; 16],
    waiting: &[u8; 16],
) -> bool
    ensures { result ≡ fit_by array stripe at.now register.now waiting.now }
{
    let end = format::block_length(array.method) as u16;
    let most = format::most_value(array.method);
    if none_past(at, end) && none_above(register, most) && none_waits(waiting) {
        return layout::check_stripe(array, stripe).is_ok();
    }
    fit(array, stripe, at, register, waiting)
}

// Whether a piece can be taken in: the state is fit, there is such a member, the work buffer is as long as a block's data, and the piece no longer
// than what the member lacks. The arrays are taken out of the state before they are lent or indexed: else it has to lie in memory whole.
fn check_piece(state: Scan, member: usize, count: usize, length: usize) -> Result<(), Refusal>
    ensures { told result ≡ piece_refusal state member count length }
{
    let array = state.array;
    let at = state.at;
    let register = state.register;
    let waiting = state.waiting;
    let method = array.method;
    demand(
        fit_at_once(array, state.stripe, &at, &register, &waiting),
        Refusal::State,
    )?;
    demand(member < array.members, Refusal::Member)?;
    demand(length == format::data_length(method), Refusal::Length)?;
    let position = usize::from(at[member]);
    demand(
        count <= format::block_length(method) - position,
        Refusal::Piece,
    )
}

// Puts tag bytes among the tags from a place on. Most whole tags have a length that the compiler knows, and are stored at once.
fn put_tag(tag: &mut [u8], from: usize, bytes: &[u8])
    ensures { tag.new ≡ sets tag.old from bytes.now }
{
    if bytes.len() == USUAL_TAG {
        put(tag, from, &bytes[0..USUAL_TAG]);
        return;
    }
    put(tag, from, bytes);
}

// Stores tag bytes of a member, the first of which stands at `position` of its block, each at its place of the member's tag.
fn store(method: u8, tag: &mut [u8], member: usize, position: usize, bytes: &[u8])
    requires member_bound { member < 16 }
    requires method_bound { (format_of method).data_length ≤ position }
    requires bytes_bound { position + length bytes.now ≤ (format_of method).block_length }
    ensures { tag.new ≡ sets tag.old ((format_of method).tag_length * member + (position - (format_of method).data_length)) bytes.now }
{
    let from = tag_at(method, member) + tag_place(method, position);
    put_tag(tag, from, bytes);
}

// Sixteen numbers with another at one place. Each is chosen anew: one stored alone among the others would have to be waited for when they are read
// together. The place is cut to sixteen bits, in which the compiler then compares it.
fn replaced<T: Copy>(held: [T; 16], place: u16, value: T) -> [T; 16]
    ensures { result ≡ set held place value }
{
    array::from_fn(
        |i|
            requires { i < 16 }
            ensures { result ≡ cond (eqb i place) value (get_or held i value) }
        {
            if i == usize::from(place) {
                value
            } else {
                held[i]
            }
        },
    )
}

// Sixteen bytes with another at one place. Most often it stands there already, and then they are handed back as they came.
fn replaced_byte(held: [u8; 16], place: u16, value: u8) -> [u8; 16]
    requires { place < 16 }
    ensures { result ≡ set held place value }
{
    if held[usize::from(place)] == value {
        return held;
    }
    let mut next = held;
    next[usize::from(place)] = value;
    next
}

// Passes a piece on, from a position of its block on and with the guard's register there. It is cut once: bytes of data, as far as the block's data
// go, then bytes of tag. Gives the register after it.
// Stays: a struct of what `pass` and its two ways are handed would be made for one call and hold two buffers lent as `&mut`: no plainer.
fn pass_on(
    method: u8,
    member: usize,
    position: usize,
    register: u32,
    bytes: &[u8],
    work: &mut [u8],
    tag: &mut [u8],
) -> u32
    requires member_bound { member < 16 }
    requires bytes_bound { position + length bytes.now ≤ (format_of method).block_length }
    requires work_len { length work.old ≡ (format_of method).data_length }
    ensures value { result ≡ (format_of method).advance position register (data_of_piece (format_of method) position bytes.now) }
    ensures work_after { work.new ≡ combined_from (format_of method) position work.old bytes.now }
    ensures tag_after { tag.new ≡ tags_from (format_of method) position tag.old member bytes.now }
{
    let room = data_room(method, position);
    let cut = least(room, bytes.len());
    let from = format::data_length(method) - room;
    let end = from + cut;
    let head = &bytes[..cut];
    let tail = &bytes[cut..];
    store(method, tag, member, position + room, tail);
    let after = format::advance(method, position, register, head);
    xor::xor_into(&mut work[from..end], head);
    after
}

// The same of a whole block of one piece of data, for which nothing was taken: nothing is cut, no number waits for the state, and the length is one
// that the compiler knows.
// Stays: beside `pass_on`, measured: docs/DECISIONS.md, 178.
fn pass_whole(method: u8, member: usize, bytes: &[u8], work: &mut [u8], tag: &mut [u8]) -> u32
    requires member_bound { member < 16 }
    requires bytes_len { length bytes.now ≡ (format_of method).block_length }
    requires work_len { length work.old ≡ (format_of method).data_length }
    requires method_value { (format_of method).data_length ≡ piece_length }
    ensures value { result ≡ (format_of method).advance 0 (format_of method).start (data_of_piece (format_of method) 0 bytes.now) }
    ensures work_after { work.new ≡ combined_from (format_of method) 0 work.old bytes.now }
    ensures tag_after { tag.new ≡ tags_from (format_of method) 0 tag.old member bytes.now }
{
    let block = format::block_length(method);
    let head = &bytes[0..PIECE];
    put_tag(tag, tag_at(method, member), &bytes[PIECE..block]);
    let after = format::advance(method, 0, format::start(method), head);
    xor::xor_into(work, head);
    after
}

// The same, whichever it is.
fn pass(
    method: u8,
    member: usize,
    position: usize,
    register: u32,
    bytes: &[u8],
    work: &mut [u8],
    tag: &mut [u8],
) -> u32
    requires member_bound { member < 16 }
    requires bytes_bound { position + length bytes.now ≤ (format_of method).block_length }
    requires work_len { length work.old ≡ (format_of method).data_length }
    ensures value { result ≡ (format_of method).advance position register (data_of_piece (format_of method) position bytes.now) }
    ensures work_after { work.new ≡ combined_from (format_of method) position work.old bytes.now }
    ensures tag_after { tag.new ≡ tags_from (format_of method) position tag.old member bytes.now }
{
    if format::data_length(method) == PIECE
        && bytes.len() == format::block_length(method)
        && register == format::start(method)
    {
        return pass_whole(method, member, bytes, work, tag);
    }
    pass_on(method, member, position, register, bytes, work, tag)
}

// Takes in a piece that nothing refuses.
#[tactic(auto, using(crate::proofs::Rows::accepted_few))]
fn take_in(state: Scan, member: usize, bytes: &[u8], work: &mut [u8]) -> Scan
    requires { piece_refusal state member (length bytes.now) (length work.old) ≡ 0 }
    ensures value { result ≡ advanced state member bytes.now }
    ensures work_after { work.new ≡ buffer (format_at state.array) state.at work.old member bytes.now }
{
    let method = state.array.method;
    let positions = state.at;
    let values = state.register;
    let bytes_waiting = state.waiting;
    let mut tag = state.tag;
    let position = usize::from(positions[member]);
    let register = register_of(method, values[member], bytes_waiting[member]) as u32;
    let after = pass(method, member, position, register, bytes, work, &mut tag);
    let place = (member % 65536) as u16;
    let at = replaced(positions, place, (position + bytes.len()) as u16);
    let value = replaced(values, place, value_in(method, after));
    let waiting = replaced_byte(bytes_waiting, place, waiting_in(method, after));
    Scan {
        at,
        register: value,
        waiting,
        tag,
        ..state
    }
}

// The state to go on with: with the piece taken in where it can be, else as it came.
// Stays: by itself, measured: with this test in `piece` the compiler copied the whole state once more, 2 to 5 in a hundred of a piece of 520 bytes.
fn next(done: bool, state: Scan, member: usize, bytes: &[u8], work: &mut [u8]) -> Scan
    requires { done ≡ eqb (piece_refusal state member (length bytes.now) (length work.old)) 0 }
    ensures value { result ≡ piece_state state member bytes.now (length work.old) }
    ensures work_after { work.new ≡ piece_work state member bytes.now work.old }
{
    if !done {
        return state;
    }
    take_in(state, member, bytes, work)
}

// Takes in the next bytes of a member, or hands the state back as it came where they are refused.
pub fn piece(state: Scan, member: usize, bytes: &[u8], work: &mut [u8]) -> Taken
    ensures refusal_value { told result.answer ≡ piece_refusal state member (length bytes.now) (length work.old) }
    ensures state_value { result.state ≡ piece_state state member bytes.now (length work.old) }
    ensures work_after { work.new ≡ piece_work state member bytes.now work.old }
{
    let answer = check_piece(state, member, bytes.len(), work.len());
    let state = next(answer.is_ok(), state, member, bytes, work);
    Taken { answer, state }
}
