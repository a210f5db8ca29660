//! Counts of faults.
ghost use Rattle.std.specs.Prelude.{◌≡◌};
ghost use Rattle.bz_io.specs.Faults.{faults_after, no_faults};
ghost use Rattle.bz_io.specs.Desk.{is_failed};

use crate::LoadError;

/// The faults that a device has had.
#[derive(Clone, Copy, Debug, PartialEq, Eq)]
pub struct FaultCount {
    /// How many. A fault at the last value leaves it there.
    pub number: u64,
    /// Whether the last call was one.
    pub last_failed: bool,
}

impl FaultCount {
    /// The count before the first call.
    pub(crate) fn none() -> FaultCount
        ensures { result ≡ no_faults }
    {
        FaultCount {
            number: 0,
            last_failed: false,
        }
    }

    /// The count after a call: one more where it failed.
    pub(crate) fn after(self, failed: bool) -> FaultCount
        ensures { result ≡ faults_after self failed }
    {
        let number = if failed {
            self.number.saturating_add(1)
        } else {
            self.number
        };
        FaultCount {
            number,
            last_failed: failed,
        }
    }
}

/// Whether a load ended with `Failed`.
pub(crate) fn is_failed(answer: &Result<Vec<u8>, LoadError>) -> bool
    ensures { result ≡ is_failed answer.now }
{
    match answer {
        Err(LoadError::Failed) => true,
        _ => false,
    }
}
