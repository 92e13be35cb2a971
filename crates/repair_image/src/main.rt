// Reads an image on standard input, writes the mended image to standard output and the list to standard error.
#![tactic(auto)]

ghost use Rattle.std.specs.Prelude.{◌<◌, ◌≤◌, List, ℕ, length, IfOk, IfSome, OnOk};
ghost use Rattle.std.specs.Io.KnownBytes.{Appends};
ghost use Rattle.format.specs.Formats.{most_stripe};
ghost use Rattle.lines.specs.Lines.{line_room};
ghost use Rattle.repair.specs.Feeding.{closing};
ghost use Rattle.repair.specs.Repairs.{Output, repair_of};
ghost use Rattle.repair.specs.Runs.{Reached};
ghost use Rattle.repair_image.specs.Passes.{Passes};

use repair::{ROOM, Repair};
use std::io;
use std::io::{Read, Write};

// Bytes of one read: few enough that all they give of the image is one write, which a pipe can hold.
const INPUT: usize = 32768;

// Room for the lines of one feed.
const LINES: usize = 4096;

// Why a repair stopped: the image could not be written, or the input not read or the list not written.
#[derive(Drop)]
enum Stop {
    Image,
    Other(io::Error),
}

impl From<io::Error> for Stop {
    fn from(e: io::Error) -> Stop {
        Stop::Other(e)
    }
}

// Writes bytes of the image, and then lines of the list. After an error both may hold a beginning of theirs.
fn put_out<I: Write, L: Write>(
    bytes: &[u8],
    lines: &[u8],
    mended: &mut I,
    list: &mut L,
) -> Result<(), Stop>
    ensures image { OnOk result (Appends (I.contents mended.old) (I.contents mended.new) bytes.now) }
    ensures list { OnOk result (Appends (L.contents list.old) (L.contents list.new) lines.now) }
{
    if mended.write_all(bytes).is_err() {
        return Err(Stop::Image);
    }
    list.write_all(lines)?;
    Ok(())
}

// The bytes that are held, and room for what a feed gives of the image and of the list.
#[derive(Drop)]
struct Buffers {
    held: [u8; ROOM],
    image: [u8; ROOM],
    list: [u8; LINES],
}

// Feeds the repair with a piece of input until it is used up, and writes out what each feed gives. After an error the outputs may hold a beginning of
// theirs, and the buffers anything.
fn pass<I: Write, L: Write>(
    repair: Repair,
    input: &[u8],
    buffers: &mut Buffers,
    mended: &mut I,
    list: &mut L,
) -> Result<Repair, Stop>
    ensures { Reached repair buffers.old.held → IfOk result (λ s. (put : Output) × Passes repair buffers.old.held input.now s buffers.new.held put
        × Appends (I.contents mended.old) (I.contents mended.new) put.image × Appends (L.contents list.old) (L.contents list.new) put.list) }
{
    let mut state = repair;
    let mut rest = input;
    while !rest.is_empty() {
        let fed = repair::feed(
            state,
            rest,
            &mut buffers.held,
            &mut buffers.image,
            &mut buffers.list,
        );
        state = fed.state;
        put_out(
            &buffers.image[..fed.written],
            &buffers.list[..fed.listed],
            mended,
            list,
        )?;
        // Never so, by repair's law feed_goes_on: there is room for a stripe and for a line.
        if fed.used == 0 {
            break;
        }
        rest = &rest[fed.used..];
    }
    Ok(state)
}

// Closes the repair, and writes out the list's last line, or after an error perhaps a beginning of it.
fn end<L: Write>(repair: Repair, lines: &mut [u8], list: &mut L) -> Result<(), Stop>
    ensures { OnOk result (Appends (L.contents list.old) (L.contents list.new) (closing repair (length lines.old))) }
{
    let last = repair::close(repair, lines);
    list.write_all(&lines[..last])?;
    Ok(())
}

// Reads an image to its end, and writes the mended image and the list, or after an error perhaps a beginning of each. The loop has turns for any image: a byte a turn.
fn mend<R: Read, I: Write, L: Write>(
    image: &mut R,
    mended: &mut I,
    list: &mut L,
) -> Result<(), Stop>
    ensures image { OnOk result (IfSome (R.remaining image.old) (λ bytes. length bytes < u64.MAX → Appends (I.contents mended.old) (I.contents mended.new) (repair_of bytes).image)) }
    ensures list { OnOk result (IfSome (R.remaining image.old) (λ bytes. length bytes < u64.MAX → Appends (L.contents list.old) (L.contents list.new) (repair_of bytes).list)) }
{
    let mut input = [0u8; INPUT];
    let mut buffers = Buffers {
        held: [0; ROOM],
        image: [0; ROOM],
        list: [0; LINES],
    };
    let mut state = repair::new();
    for _ in 0..u64::MAX {
        let count = image.read(&mut input)?;
        if count == 0 {
            break;
        }
        state = pass(state, &input[..count], &mut buffers, mended, list)?;
    }
    end(state, &mut buffers.list, list)
}

fn main(rt: HostRuntime) -> io::Result<()> {
    let mut list = rt.stderr();
    match mend(&mut rt.reader(), &mut io::writer(&rt), &mut list) {
        Ok(()) => Ok(()),
        // An image that cannot be written is told in the list.
        Err(Stop::Image) => list.write_all(
            b"repair_image: the image could not be written, and what there is of it is not whole\n",
        ),
        Err(Stop::Other(e)) => Err(e),
    }
}
