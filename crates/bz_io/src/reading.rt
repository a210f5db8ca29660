//! Reading a whole file within a limit.
ghost use Rattle.std.specs.Prelude.{◌≡◌, ◌≤◌, length, false, IfOk, IfErr, Err};
ghost use Rattle.bz_io.specs.Reading.{ReadsAll, ReadsOpened};

use crate::LoadError;
use crate::source::Source;
use std::alloc::Global;
use std::io;
use std::io::Read;

const CHUNK: usize = 4096;

/// All that the file has left, if that is at most `limit` bytes. A file that could not be opened is a failure.
pub(crate) fn read_opened<R: Read>(
    alloc: Global,
    opened: &mut io::Result<Source<R>>,
    limit: usize,
) -> Result<Vec<u8>, LoadError>
    ensures within { IfOk result (λ bytes. length bytes.items ≤ limit) }
    ensures all { ReadsOpened R.remaining opened.old opened.new limit result }
{
    match opened {
        Ok(from) => read_within(alloc, from, limit),
        Err(_) => Err(LoadError::Failed),
    }
}

/// All that the reader has left, if that is at most `limit` bytes. It reads at most `limit` + 1 bytes.
fn read_within<R: Read>(
    alloc: Global,
    from: &mut Source<R>,
    limit: usize,
) -> Result<Vec<u8>, LoadError>
    ensures within { IfOk result (λ bytes. length bytes.items ≤ limit) }
    ensures all { ReadsAll (R.remaining from.old.from) (R.remaining from.new.from) from.new.failed limit result }
{
    let mut bytes = Vec::new(alloc);
    let mut buffer = [0; CHUNK];
    'chunks: loop {
        let room = limit - bytes.len();
        let piece = &mut buffer[..room.min(CHUNK - 1) + 1];
        let count = match from.read(piece) {
            Ok(count) => count,
            Err(_) => return Err(LoadError::Failed),
        };
        if count == 0 {
            return Ok(bytes);
        }
        if count > room {
            return Err(LoadError::TooLong);
        }
        if bytes.extend_from_slice(&piece[..count]).is_err() {
            return Err(LoadError::OutOfMemory);
        }
    }
}
