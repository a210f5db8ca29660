//! Texts that are put piece by piece. None of it takes memory.
ghost use Rattle.bz_text.specs.Pieces.{piece_text, pieces_text};
ghost use Rattle.bz_text.specs.Putting.{Puts};

use bz_io::{PutFailed, Sink, put_all};
use itoa::Buffer;

/// A piece of a text.
#[derive(Clone, Copy)]
pub enum Piece<'a> {
    /// These bytes.
    Text(&'a [u8]),
    /// A whole number in decimal.
    Number(i128),
    /// A count in decimal.
    Count(usize),
}

/// Puts one piece.
fn put_piece<O: Sink>(out: &mut O, piece: Piece) -> Result<(), PutFailed>
    ensures { Puts O.taken O.faults out.old out.new (piece_text piece.entry) result }
{
    match piece {
        Piece::Text(bytes) => put_all(out, bytes),
        Piece::Number(number) => {
            let mut buffer = Buffer::new();
            put_all(out, buffer.format(number).as_bytes())
        },
        Piece::Count(count) => {
            let mut buffer = Buffer::new();
            put_all(out, buffer.format(count).as_bytes())
        },
    }
}

/// Puts the pieces, one after another.
pub fn put_pieces<O: Sink>(out: &mut O, pieces: &[Piece]) -> Result<(), PutFailed>
    ensures { Puts O.taken O.faults out.old out.new (pieces_text pieces.now) result }
{
    for piece in pieces {
        put_piece(out, *piece)?;
    }
    Ok(())
}
