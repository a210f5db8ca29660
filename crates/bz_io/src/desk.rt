//! Whole files under names.
ghost use Rattle.std.specs.Prelude.{◌≤◌, length, Option, IfOk, is_err};
ghost use Rattle.bz_io.specs.declared.faults.FaultCount.{FaultCount};
ghost use Rattle.bz_io.specs.Faults.{Counts};
ghost use Rattle.bz_io.specs.Told.{IfTold, KeepsTelling};
ghost use Rattle.bz_io.specs.Desk.{Telling, Loads, IsAfterLoads, is_failed, Saves};

use std::alloc::Global;

/// Why a load has no bytes.
#[derive(Clone, Copy, Debug, PartialEq, Eq)]
pub enum LoadError {
    /// The desk failed, or the name holds nothing.
    Failed,
    /// The name holds more bytes than the limit.
    TooLong,
    /// There is no memory for the bytes.
    OutOfMemory,
}

/// Why a save is not whole.
#[derive(Clone, Copy, Debug, PartialEq, Eq)]
pub enum SaveError {
    /// The desk failed.
    Failed,
}

/// A place that holds bytes under names.
pub trait Desk {
    /// What each name holds and which of the coming calls fail, where the desk tells that.
    ghost told: { Self → Option Telling };

    /// The faults that the desk has had.
    ghost faults: { Self → FaultCount };

    /// The bytes that the name holds, all of them, if they are at most `limit`. Each name holds afterwards what it
    /// held before. A name that holds nothing is a fault of the desk.
    fn load(&mut self, alloc: Global, name: &str, limit: usize) -> Result<Vec<u8>, LoadError>
        ensures answer { IfTold (told self.old) (λ told. Loads told name.now limit result) }
        ensures within { IfOk result (λ bytes. length bytes.items ≤ limit) }
        ensures kept { KeepsTelling (IsAfterLoads 1) (told self.old) (told self.new) }
        ensures count { Counts (is_failed result) (faults self.old) (faults self.new) };

    /// Makes the name hold the bytes. Each other name holds afterwards what it held before. After a failure the name
    /// holds a prefix of the bytes or what it held before.
    fn save(&mut self, name: &str, bytes: &[u8]) -> Result<(), SaveError>
        ensures answer { KeepsTelling (Saves name.now bytes.now result) (told self.old) (told self.new) }
        ensures count { Counts (is_err result) (faults self.old) (faults self.new) };
}
