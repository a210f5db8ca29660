//! Why the text of a partition is refused.
ghost use Rattle.std.specs.Prelude.{◌≡◌};
ghost use Rattle.bz_part.specs.PartKinds.{part_name, part_number};

use bz_lines::LineFault;
use std::alloc::{AllocError, AllocFailed};

/// What is wrong with a partition's text.
#[derive(Clone, Copy, Debug, PartialEq, Eq)]
pub enum PartKind {
    /// The first line is not `cpxBendersPartition` and a number, or there is no line.
    Head,
    /// A later line has not two fields.
    Fields,
    /// No column has the name.
    Unknown,
    /// An earlier line names the column.
    Double,
    /// The number is not in decimal digits without sign and leading zero.
    Value,
    /// The number is above 256.
    Limit,
    /// The least block, from 1 up, that has no column and is below the greatest number of a column.
    Gap {
        /// The block.
        block: u32,
    },
    /// A byte below 32 other than tab.
    NotText,
}

impl PartKind {
    /// The number of the kind.
    pub fn number(self) -> u32
        ensures { result ≡ part_number self }
    {
        match self {
            PartKind::Head => 1,
            PartKind::Fields => 2,
            PartKind::Unknown => 3,
            PartKind::Double => 4,
            PartKind::Value => 5,
            PartKind::Limit => 6,
            PartKind::Gap { .. } => 7,
            PartKind::NotText => 8,
        }
    }

    /// The name of the kind.
    pub fn name(self) -> &'static [u8]
        ensures { result.now ≡ part_name self }
    {
        match self {
            PartKind::Head => b"Head",
            PartKind::Fields => b"Fields",
            PartKind::Unknown => b"Unknown",
            PartKind::Double => b"Double",
            PartKind::Value => b"Value",
            PartKind::Limit => b"Limit",
            PartKind::Gap { .. } => b"Gap",
            PartKind::NotText => b"NotText",
        }
    }
}

/// The first fault of a partition's text.
#[derive(Clone, Copy, Debug, PartialEq, Eq)]
pub struct PartFault {
    /// The line's number, counted from 1, and 0 where the fault is of no line.
    pub line: u32,
    /// What is wrong.
    pub kind: PartKind,
}

/// Why a partition is not read.
#[derive(Clone, Copy, Debug, PartialEq, Eq)]
pub enum PartStop {
    /// The text has a fault.
    Fault(PartFault),
    /// There is no memory.
    OutOfMemory,
}

impl From<AllocError> for PartStop {
    ghost use Rattle.bz_part.specs.declared.faults.PartStop.TheVariants.{OutOfMemory};

    ghost from_gives = { λ _ e. e ≡ OutOfMemory };

    fn from(_error: AllocError) -> PartStop {
        PartStop::OutOfMemory
    }
}

impl<T: Drop> From<AllocFailed<T>> for PartStop {
    ghost use Rattle.bz_part.specs.declared.faults.PartStop.TheVariants.{OutOfMemory};

    ghost from_gives = { λ _ e. e ≡ OutOfMemory };

    fn from(_error: AllocFailed<T>) -> PartStop {
        PartStop::OutOfMemory
    }
}

impl From<LineFault> for PartStop {
    ghost use Rattle.bz_part.specs.PartStops.{stop_of};

    ghost from_gives = { λ fault stop. stop ≡ stop_of fault };

    fn from(fault: LineFault) -> PartStop {
        match fault {
            LineFault::NotText { line } => PartStop::Fault(PartFault {
                line,
                kind: PartKind::NotText,
            }),
            LineFault::OutOfMemory => PartStop::OutOfMemory,
        }
    }
}
