//! A writer of the machine, as a file or standard output, as a sink.
ghost use Rattle.std.specs.Prelude.{◌≡◌};
ghost use Rattle.bz_io.specs.Faults.{no_faults};

use crate::retrying::write_once;
use crate::{FaultCount, PutFailed, Sink};
use std::io::Write;

/// A writer as a sink. It tells what the writer holds, where that tells it; a file and standard output don't.
#[derive(Drop)]
pub struct HostSink<W> {
    to: W,
    faults: FaultCount,
}

impl<W: Write> HostSink<W> {
    /// The writer, without a fault so far.
    pub fn new(to: W) -> HostSink<W>
        ensures to { result.to ≡ to }
        ensures faults { result.faults ≡ no_faults }
    {
        HostSink {
            to,
            faults: FaultCount::none(),
        }
    }
}

impl<W: Write> Sink for HostSink<W> {
    ghost taken = { λ sink. W.contents sink.to };

    ghost faults = { λ sink. sink.faults };

    /// A write that fails or takes nothing is a fault.
    fn put(&mut self, bytes: &[u8]) -> Result<usize, PutFailed> {
        let written = write_once(&mut self.to, bytes);
        let count = written.unwrap_or(0);
        self.faults = self.faults.after(count == 0);
        if count == 0 {
            Err(PutFailed)
        } else {
            Ok(count)
        }
    }
}
