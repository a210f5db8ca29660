//! The one error of a call whose only want is memory.
use std::alloc::AllocError;

/// A call asked for memory and got none. What it was lent is as before.
#[derive(Clone, Copy, Debug, PartialEq, Eq)]
pub struct OutOfMemory;

impl From<AllocError> for OutOfMemory {
    ghost use Rattle.std.specs.Prelude.{◌≡◌};
    ghost use Rattle.bz_num.specs.declared.memory.OutOfMemory.{OutOfMemory};

    fn from(_error: AllocError) -> OutOfMemory {
        OutOfMemory
    }
}
