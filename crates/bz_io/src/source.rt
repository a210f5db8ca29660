//! A reader that records whether a read has failed.
ghost use Rattle.std.specs.Prelude.{◌≡◌, is_err, false, IsTrue};
ghost use Rattle.std.specs.Io.{ReadsAtMost};
ghost use Rattle.std.specs.Io.KnownBytes.{ReadConsumes};

use crate::retrying::read_once;
use std::io;
use std::io::{ErrorKind, Read};

/// A reader, and whether a read has failed. From the first failure on every read fails.
#[derive(Drop)]
pub(crate) struct Source<R> {
    from: R,
    failed: bool,
}

impl<R: Read> Source<R> {
    /// The reader before the first read.
    pub(crate) fn new(from: R) -> Source<R>
        ensures from { result.from ≡ from }
        ensures failed { result.failed ≡ false }
    {
        Source {
            from,
            failed: false,
        }
    }

    /// Reads the next bytes into the front of the piece, and says how many. There are none only at the end.
    pub(crate) fn read(&mut self, piece: &mut [u8]) -> io::Result<usize>
        ensures within { ReadsAtMost result piece.new }
        ensures bytes { ReadConsumes (R.remaining self.old.from) (R.remaining self.new.from) result piece.new }
        ensures failed { self.new.failed ≡ is_err result }
        ensures stays { IsTrue self.old.failed → IsTrue self.new.failed }
    {
        if self.failed {
            return Err(io::Error::from(ErrorKind::Other));
        }
        let answer = read_once(&mut self.from, piece);
        self.failed = answer.is_err();
        answer
    }
}
