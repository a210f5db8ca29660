//! Why a line is not read.
use crate::faults::MpsKind;
use std::alloc::{AllocError, AllocFailed};

/// Why a line is not read.
#[derive(Clone, Copy, Debug)]
pub(crate) enum Refusal {
    /// A test of the line fails, the first one of this kind.
    Fault(MpsKind),
    /// There is no memory.
    OutOfMemory,
}

impl From<MpsKind> for Refusal {
    ghost use Rattle.std.specs.Prelude.{◌≡◌};
    ghost use Rattle.bz_facts.specs.declared.refusals.Refusal.TheVariants.{Fault};

    ghost from_gives = { λ kind r. r ≡ Fault kind };

    fn from(kind: MpsKind) -> Refusal {
        Refusal::Fault(kind)
    }
}

impl From<AllocError> for Refusal {
    ghost use Rattle.std.specs.Prelude.{◌≡◌};
    ghost use Rattle.bz_facts.specs.declared.refusals.Refusal.TheVariants.{OutOfMemory};

    ghost from_gives = { λ _ r. r ≡ OutOfMemory };

    fn from(_error: AllocError) -> Refusal {
        Refusal::OutOfMemory
    }
}

impl<T: Drop> From<AllocFailed<T>> for Refusal {
    ghost use Rattle.std.specs.Prelude.{◌≡◌};
    ghost use Rattle.bz_facts.specs.declared.refusals.Refusal.TheVariants.{OutOfMemory};

    ghost from_gives = { λ _ r. r ≡ OutOfMemory };

    fn from(_error: AllocFailed<T>) -> Refusal {
        Refusal::OutOfMemory
    }
}
