// A report that is fed as much as there is room for.
ghost use Rattle.std.specs.Prelude.{length};
ghost use Rattle.report.specs.Feeding.{Does};
ghost use Rattle.report.specs.Fills.{fill_step};

use crate::{Fed, Report, feed};

// Feeds until a call uses nothing: all of the input is used, or there is no room for another line. The lines stand one behind the other.
pub fn fill(state: Report, input: &[u8], work: &mut [u8], out: &mut [u8]) -> Fed
    ensures { Does (fill_step state input.now work.old (length out.old)) result work.new out.old out.new }
{
    let mut filled = Fed {
        state,
        used: 0,
        written: 0,
    };
    loop {
        let fed = feed(
            filled.state,
            &input[filled.used..],
            work,
            &mut out[filled.written..],
        );
        filled = Fed {
            state: fed.state,
            used: filled.used + fed.used,
            written: filled.written + fed.written,
        };
        if fed.used == 0 {
            return filled;
        }
    }
}
