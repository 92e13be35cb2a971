// The bytes of a block by their position: what each is, and where it goes.
ghost use Rattle.std.specs.Prelude.{◌≡◌, ◌-◌, min};
ghost use Rattle.format.specs.Positions.{part_at};
ghost use Rattle.format.specs.Methods.{large, format_of};

use crate::{Kind, Part, data_length, kind_of, quarter, tag_length};

// What the byte at a position of a large block is.
// Stays: the ranges as they are named, in a `match` for each length of a block: docs/PROOFS.md, the forms by place; docs/DECISIONS.md, 67.
fn part_at_large(position: usize) -> Part
    ensures { result ≡ part_at large position }
{
    match position {
        0..=4095 => Part::Data { at: position },
        4096..=4099 => Part::Guard {
            at: position - 4096,
        },
        4100..=4103 => Part::Application {
            at: position - 4100,
        },
        4104..=4111 => Part::Reference {
            at: position - 4104,
        },
        _ => Part::Past,
    }
}

// What the byte at a position is.
pub fn part_at(method: u8, position: usize) -> Part
    ensures { result ≡ part_at (format_of method) position }
{
    if let Kind::Large = kind_of(method) {
        return part_at_large(position);
    }
    match position {
        0..=511 => Part::Data { at: position },
        512..=513 => Part::Guard { at: position - 512 },
        514..=515 => Part::Application { at: position - 514 },
        516..=519 => Part::Reference { at: position - 516 },
        _ => Part::Past,
    }
}

// How many data bytes of a block come from a position on.
pub fn data_room(method: u8, position: usize) -> usize
    ensures { result ≡ (format_of method).data_length - position }
{
    let data = data_length(method);
    let part = part_at(method, position);
    match part {
        Part::Data { at } => data - at,
        Part::Guard { at: _ } => 0,
        Part::Application { at: _ } => 0,
        Part::Reference { at: _ } => 0,
        Part::Past => 0,
    }
}

// Where among the bytes of a tag the byte at a position goes; past them for a position past the block.
pub fn tag_place(method: u8, position: usize) -> usize
    ensures { result ≡ min (position - (format_of method).data_length) (format_of method).tag_length }
{
    let quarter = quarter(method);
    let tag = tag_length(method);
    let part = part_at(method, position);
    match part {
        Part::Data { at: _ } => 0,
        Part::Guard { at } => at,
        Part::Application { at } => quarter + at,
        Part::Reference { at } => 2 * quarter + at,
        Part::Past => tag,
    }
}
