//! The machine's files as a desk. No contract says what the file of a name holds, nor that it is the one that is opened:
//! this is trusted. What is done with what was opened or made is exact.
ghost use Rattle.std.specs.Prelude.{◌≡◌, ◌≤◌, length, None, is_err, IfOk};
ghost use Rattle.bz_io.specs.declared.faults.FaultCount.{FaultCount};
ghost use Rattle.bz_io.specs.Faults.{Counts, no_faults};
ghost use Rattle.bz_io.specs.Desk.{is_failed};
ghost use Rattle.bz_io.specs.Reading.{LoadsOpened, LoadsSome};
ghost use Rattle.bz_io.specs.Writing.{SavesMade, SavesSome, WritesMade};

use crate::faults::is_failed;
use crate::reading::read_opened;
use crate::source::Source;
use crate::{Desk, FaultCount, HostSink, LoadError, PutFailed, SaveError, put_all};
use std::alloc::Global;
use std::fs::File;
use std::io;
use std::io::{Read, Write};
use std::marker::Model;
use std::rt::Files;

/// The machine's files, each under its path. It tells no contents. Contracts see it as its count of faults.
#[derive(Drop)]
pub struct HostDesk<'a, R: Files> {
    rt: &'a R,
    faults: FaultCount,
}

impl<'a, R: Files> Model for HostDesk<'a, R> {
    ghost use Rattle.bz_io.specs.declared.faults.FaultCount.{FaultCount};

    ghost Value = { FaultCount };

    ghost view = { λ d. d.faults };
}

impl<'a, R: Files> HostDesk<'a, R> {
    /// The files of this runtime, without a fault so far.
    pub fn new(rt: &'a R) -> HostDesk<'a, R>
        ensures { result ≡ no_faults }
    {
        HostDesk {
            rt,
            faults: FaultCount::none(),
        }
    }
}

impl<'a, R: Files> Desk for HostDesk<'a, R> {
    ghost told = { λ _. None };

    ghost faults = { λ faults. faults };

    /// A file that can't be opened or read is a fault. It reads at most `limit` + 1 bytes.
    fn load(&mut self, alloc: Global, name: &str, limit: usize) -> Result<Vec<u8>, LoadError>
        ensures within { IfOk result (λ bytes. length bytes.items ≤ limit) }
        ensures read { LoadsSome R.File.remaining limit result self.old self.new }
        ensures count { Counts (is_failed result) self.old self.new }
    {
        let mut opened = File::open(self.rt, name).map(Source::new);
        load_opened(alloc, &mut opened, limit, &mut self.faults)
    }

    /// It makes the file anew. A file that can't be made, and a write that fails or takes nothing, is a fault.
    fn save(&mut self, name: &str, bytes: &[u8]) -> Result<(), SaveError>
        ensures written { SavesSome R.File.contents bytes.now result self.old self.new }
        ensures count { Counts (is_err result) self.old self.new }
    {
        let mut made = File::create(self.rt, name).map(HostSink::new);
        save_made(&mut made, bytes, &mut self.faults)
    }
}

/// All of what was opened, within the limit. A failure is counted.
fn load_opened<F: Read>(
    alloc: Global,
    opened: &mut io::Result<Source<F>>,
    limit: usize,
    faults: &mut FaultCount,
) -> Result<Vec<u8>, LoadError>
    ensures within { IfOk result (λ bytes. length bytes.items ≤ limit) }
    ensures loads { LoadsOpened F.remaining opened.old opened.new limit result faults.old faults.new }
{
    let answer = read_opened(alloc, opened, limit);
    *faults = faults.after(is_failed(&answer));
    answer
}

/// Writes all the bytes into what was made. A failure is counted.
fn save_made<F: Write>(
    made: &mut io::Result<HostSink<F>>,
    bytes: &[u8],
    faults: &mut FaultCount,
) -> Result<(), SaveError>
    ensures { SavesMade F.contents made.old made.new bytes.now result faults.old faults.new }
{
    let saved = write_made(made, bytes);
    *faults = faults.after(saved.is_err());
    saved
}

/// Writes all the bytes into what was made. Where it could not be made, it fails.
fn write_made<F: Write>(made: &mut io::Result<HostSink<F>>, bytes: &[u8]) -> Result<(), SaveError>
    ensures { WritesMade F.contents made.old made.new bytes.now result }
{
    match made {
        Ok(out) => match put_all(out, bytes) {
            Ok(()) => Ok(()),
            Err(PutFailed) => Err(SaveError::Failed),
        },
        Err(_) => Err(SaveError::Failed),
    }
}
