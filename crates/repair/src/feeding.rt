// A repair that is fed as much as there is room for, and its end.
ghost use Rattle.std.specs.Prelude.{◌≡◌, length};
ghost use Rattle.std.proofs.lemmas.List.Edits.{sets};
ghost use Rattle.repair.specs.Feeding.{Does, fresh_repair, closing};
ghost use Rattle.repair.specs.Feeds.{feed_of};

use crate::{Fed, Repair};
use lines::{ROOM, Stage};
use refusal::Refusal;

// The state of a new repair.
pub fn new() -> Repair
    ensures { result ≡ fresh_repair }
{
    Repair::entering(Stage::Header, layout::no_array(), 0)
}

// Takes steps until one uses nothing: all of the input is used, or there is no room for what comes next. What is written of the image and of the
// list stands at the start of each buffer, one piece behind the other.
pub fn feed(state: Repair, input: &[u8], held: &mut [u8], image: &mut [u8], list: &mut [u8]) -> Fed
    ensures { Does (feed_of state input.now held.old (length image.old) (length list.old)) result held.new image.old image.new list.old list.new }
{
    let mut all = state.silent(0);
    loop {
        let more = all.state.step(
            &input[all.used..],
            held,
            &mut image[all.written..],
            &mut list[all.listed..],
        );
        all = Fed {
            state: more.state,
            used: all.used + more.used,
            written: all.written + more.written,
            listed: all.listed + more.listed,
        };
        if more.used == 0 {
            return all;
        }
    }
}

// Writes the list's last line where the image has ended too early, if there is room for it; answers its length.
pub fn close(state: Repair, list: &mut [u8]) -> usize
    ensures value { result ≡ length (closing state (length list.old)) }
    ensures list_after { list.new ≡ sets list.old 0 (closing state (length list.old)) }
{
    if list.len() < ROOM {
        return 0;
    }
    match Stage::from(state.stage) {
        Stage::Header => lines::refused_line(list, u8::from(Refusal::Header)),
        Stage::Stripes => lines::refused_line(list, u8::from(Refusal::Image)),
        Stage::Behind | Stage::Over => 0,
    }
}
