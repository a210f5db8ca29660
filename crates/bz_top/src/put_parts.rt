//! The lines of the parts of a split.
ghost use Rattle.std.specs.Prelude.{◌≡◌, ◌≤◌, ◌+◌, length};
ghost use Rattle.bz_model.specs.Parting.{blocks_of};
ghost use Rattle.bz_model.specs.Splits.{IsSplit};
ghost use Rattle.bz_text.specs.Putting.{Puts};
ghost use Rattle.bz_top.specs.Texts.{part_line, parts_text};

use bz_io::{PutFailed, Sink};
use bz_model::Split;
use bz_text::Piece::{Count, Text};
use bz_text::put_pieces;

/// Puts the line of a part.
fn put_part<O: Sink>(out: &mut O, split: &Split, part: u32, rows: u32) -> Result<(), PutFailed>
    requires { part ≤ blocks_of split.now.part }
    ensures { Puts O.taken O.faults out.old out.new (part_line split.now part rows) result }
{
    put_pieces(
        out,
        &[
            Text(b"part "),
            Count(part as usize),
            Text(b" columns "),
            Count(split.columns_of(part).len()),
            Text(b" rows "),
            Count(rows as usize),
            Text(b" inequalities "),
            Count(split.size(part) as usize),
            Text(b"\n"),
        ],
    )
}

/// Puts the lines of the parts, with the number of rows of each, the master's first.
pub(crate) fn put_parts<O: Sink>(out: &mut O, split: &Split, rows: &[u32]) -> Result<(), PutFailed>
    requires split { IsSplit split.now }
    requires rows { length rows.now ≡ blocks_of split.now.part + 1 }
    ensures { Puts O.taken O.faults out.old out.new (parts_text split.now rows.now) result }
{
    for (part, count) in rows.iter().enumerate() {
        put_part(out, split, part as u32, *count)?;
    }
    Ok(())
}
