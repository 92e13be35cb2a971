// One step of a repair: bytes of the header or of the stripe that comes now, up to its end.
ghost use Rattle.std.specs.Prelude.{◌≡◌, List, ℕ, cond, ◌+◌, ◌≤◌, ◌<◌, eqb, length};
ghost use Rattle.layout.specs.Arrays.{stripe_refusal};
ghost use Rattle.stripe.specs.Stripes.{stripe_length};
ghost use Rattle.lines.specs.Lines.{line_room};
ghost use Rattle.repair.specs.Feeding.{Does, Room, size_now, took, passed, step_of};

use crate::{Fed, Repair};
use layout::Array;
use lines::{ROOM, Stage};
use refusal::Refusal;

// How many bytes a stripe of the array has; 0 for what is no stripe of it.
fn stripe_size(array: Array, stripe: u64) -> usize
    ensures { result ≡ cond (eqb (stripe_refusal array stripe) 0) (stripe_length array) 0 }
{
    match layout::check_stripe(array, stripe) {
        Ok(()) => format::block_length(array.method) * array.members,
        Err(_) => 0,
    }
}

// Stays: the three lent buffers go side by side, as `feed` is lent them; a struct of three `&mut` would want a clause for each that it is still the
// same one.
impl Repair {
    // How many bytes that has which comes now; 0 where nothing more is held.
    fn size_now(self, held: &[u8]) -> usize
        ensures { result ≡ size_now self held.now }
    {
        match Stage::from(self.stage) {
            Stage::Header => lines::header_size(self.bytes(held)),
            Stage::Stripes => stripe_size(self.array, self.stripe),
            Stage::Behind | Stage::Over => 0,
        }
    }

    // Takes bytes of what comes now, no more than it lacks: it is whole with them, or lacks bytes still.
    fn took(self, bytes: &[u8], held: &mut [u8], image: &mut [u8], list: &mut [u8]) -> Fed
        requires lacks_some { self.have < size_now self held.old }
        requires no_more { self.have + length bytes.now ≤ size_now self held.old }
        requires room { Room (size_now self held.old) held.old image.old list.old }
        ensures { Does (took self bytes.now held.old) result held.new image.old image.new list.old list.new }
    {
        let count = bytes.len();
        copy::put(held, self.have, bytes);
        let next = self.holding(self.have + count);
        if next.have < next.size_now(held) {
            return next.silent(count);
        }
        match Stage::from(next.stage) {
            Stage::Header => next.header_whole(count, held, image, list),
            _ => next.stripe_whole(count, held, image, list),
        }
    }

    // Nothing more is held: behind the last stripe a byte is one too many, else all is passed over.
    fn passed(self, count: usize, list: &mut [u8]) -> Fed
        requires { line_room ≤ length list.old }
        ensures { (held image : List ℕ) → Does (passed count self held) result held image image list.old list.new }
    {
        match Stage::from(self.stage) {
            Stage::Behind => self.refused(count, Refusal::Image, list),
            _ => self.silent(count),
        }
    }

    // One step, where there is an input and room for it and for a line; else nothing is done.
    pub(crate) fn step(
        self,
        input: &[u8],
        held: &mut [u8],
        image: &mut [u8],
        list: &mut [u8],
    ) -> Fed
        ensures { Does (step_of self input.now held.old (length image.old) (length list.old)) result held.new image.old image.new list.old list.new }
    {
        if input.is_empty() || list.len() < ROOM {
            return self.silent(0);
        }
        let size = self.size_now(held);
        if self.have >= size {
            return self.passed(input.len(), list);
        }
        if held.len() < size || image.len() < size {
            return self.silent(0);
        }
        let count = (size - self.have).min(input.len());
        self.took(&input[..count], held, image, list)
    }
}
