//! Lines of words and numbers.
ghost use Rattle.std.specs.Prelude.{pos, ◌<ℤ◌, ◌++◌};
ghost use Rattle.bz_text.specs.Putting.{Puts};
ghost use Rattle.bz_text.specs.Texts.{fraction_line, line, numbered, with_numbers};

use crate::pieces::Piece::{Count, Number, Text};
use crate::pieces::put_pieces;
use bz_io::{PutFailed, Sink};

/// Puts a line of two texts.
pub fn put_line<'x, O: Sink>(out: &mut O, front: &'x [u8], name: &'x [u8]) -> Result<(), PutFailed>
    ensures { Puts O.taken O.faults out.old out.new (line (front.now ++ name.now)) result }
{
    put_pieces(out, &[Text(front), Text(name), Text(b"\n")])
}

/// Puts a line of two texts, a blank and a number.
pub fn put_numbered<'x, O: Sink>(
    out: &mut O,
    front: &'x [u8],
    name: &'x [u8],
    number: u32,
) -> Result<(), PutFailed>
    ensures { Puts O.taken O.faults out.old out.new (line (front.now ++ name.now ++ numbered number)) result }
{
    put_pieces(
        out,
        &[
            Text(front),
            Text(name),
            Text(b" "),
            Count(number as usize),
            Text(b"\n"),
        ],
    )
}

/// Puts a line of two texts and two numbers, with a blank before each.
pub fn put_numbered_twice<'x, O: Sink>(
    out: &mut O,
    front: &'x [u8],
    name: &'x [u8],
    first: u32,
    second: u32,
) -> Result<(), PutFailed>
    ensures { Puts O.taken O.faults out.old out.new (line (with_numbers (front.now ++ name.now) first second)) result }
{
    put_pieces(
        out,
        &[
            Text(front),
            Text(name),
            Text(b" "),
            Count(first as usize),
            Text(b" "),
            Count(second as usize),
            Text(b"\n"),
        ],
    )
}

/// Puts a line of a text, a blank and a fraction: `num/den`, or `num` where the denominator is 1.
pub fn put_fraction<'x, O: Sink>(
    out: &mut O,
    name: &'x [u8],
    num: i128,
    den: i128,
) -> Result<(), PutFailed>
    requires { pos 0 <ℤ den }
    ensures { Puts O.taken O.faults out.old out.new (fraction_line name.now num den) result }
{
    if den == 1 {
        return put_pieces(out, &[Text(name), Text(b" "), Number(num), Text(b"\n")]);
    }
    put_pieces(
        out,
        &[
            Text(name),
            Text(b" "),
            Number(num),
            Text(b"/"),
            Number(den),
            Text(b"\n"),
        ],
    )
}
