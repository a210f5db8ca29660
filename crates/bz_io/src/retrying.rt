//! One read and one write of the machine, tried again where the system interrupts it.
ghost use Rattle.std.specs.Prelude.{◌≡◌, ◌≢◌, ◌↔◌, IfErr, IsTrue};
ghost use Rattle.std.specs.Io.{ReadsAtMost, WritesAtMost};
ghost use Rattle.std.specs.Io.KnownBytes.{ReadConsumes, WriteAppends};
ghost use Rattle.std.specs.IoError.{error_kind};
ghost use Rattle.bz_io.specs.Trying.{TriesAgain};

use std::io;
use std::io::{ErrorKind, Read, Write};

/// Tries in a row, after which an interrupted call is given up: so each call ends.
const TRIES: u64 = u64::MAX;

/// What reads may be tried of.
trait TryRead {
    ghost use Rattle.std.specs.Prelude.{List, ℕ, Result};
    ghost use Rattle.std.specs.declared.io.Error.{Error};

    /// What a try may do: the reader and the piece before it, its answer, and both after it.
    ghost may_read: { Self × List ℕ → Result ℕ Error → Self × List ℕ → Type 0 };

    /// One try.
    fn try_read(&mut self, piece: &mut [u8]) -> io::Result<usize>
        ensures { may_read (self.old, piece.old) result (self.new, piece.new) };
}

impl<R: Read> TryRead for R {
    ghost may_read = { λ before answer after. ReadsAtMost answer after.1
        × ReadConsumes (R.remaining before.0) (R.remaining after.0) answer after.1 };

    fn try_read(&mut self, piece: &mut [u8]) -> io::Result<usize> {
        self.read(piece)
    }
}

/// What writes may be tried of.
trait TryWrite {
    ghost use Rattle.std.specs.Prelude.{List, ℕ, Result};
    ghost use Rattle.std.specs.declared.io.Error.{Error};

    /// What a try to write the bytes may do: the writer before it, its answer, and the writer after it.
    ghost may_write: { List ℕ → Self → Result ℕ Error → Self → Type 0 };

    /// One try.
    fn try_write(&mut self, bytes: &[u8]) -> io::Result<usize>
        ensures { may_write bytes.now self.old result self.new };
}

impl<W: Write> TryWrite for W {
    ghost may_write = { λ bytes before answer after. WritesAtMost answer bytes
        × WriteAppends (W.contents before) (W.contents after) answer bytes };

    fn try_write(&mut self, bytes: &[u8]) -> io::Result<usize> {
        self.write(bytes)
    }
}

/// One read, tried again as long as it is interrupted.
fn read_again<R: TryRead>(from: &mut R, piece: &mut [u8]) -> io::Result<usize>
    ensures { TriesAgain R.may_read (from.old, piece.old) result (from.new, piece.new) }
{
    let mut tries = 0;
    while tries < TRIES {
        match from.try_read(piece) {
            Ok(count) => return Ok(count),
            Err(error) => {
                if !is_interrupted(&error) {
                    return Err(error);
                }
                tries += 1;
            }
        }
    }
    Err(gives_up())
}

/// One write, tried again as long as it is interrupted.
fn write_again<W: TryWrite>(to: &mut W, bytes: &[u8]) -> io::Result<usize>
    ensures { TriesAgain (W.may_write bytes.now) to.old result to.new }
{
    let mut tries = 0;
    while tries < TRIES {
        match to.try_write(bytes) {
            Ok(count) => return Ok(count),
            Err(error) => {
                if !is_interrupted(&error) {
                    return Err(error);
                }
                tries += 1;
            }
        }
    }
    Err(gives_up())
}

/// One read that is not interrupted.
pub(crate) fn read_once<R: Read>(from: &mut R, piece: &mut [u8]) -> io::Result<usize>
    ensures within { ReadsAtMost result piece.new }
    ensures bytes { ReadConsumes (R.remaining from.old) (R.remaining from.new) result piece.new }
    ensures again { IfErr result (λ error. error_kind error ≢ ErrorKind.Interrupted) }
{
    read_again(from, piece)
}

/// One write that is not interrupted.
pub(crate) fn write_once<W: Write>(to: &mut W, bytes: &[u8]) -> io::Result<usize>
    ensures within { WritesAtMost result bytes.now }
    ensures bytes { WriteAppends (W.contents to.old) (W.contents to.new) result bytes.now }
    ensures again { IfErr result (λ error. error_kind error ≢ ErrorKind.Interrupted) }
{
    write_again(to, bytes)
}

/// Whether the system interrupted the call that gave this error.
fn is_interrupted(error: &io::Error) -> bool
    ensures { IsTrue result ↔ (error_kind error.now ≡ ErrorKind.Interrupted) }
{
    error.kind() == ErrorKind::Interrupted
}

/// The error of a call that was interrupted too often.
fn gives_up() -> io::Error
    ensures { error_kind result ≡ ErrorKind.TimedOut }
{
    io::Error::from(ErrorKind::TimedOut)
}
