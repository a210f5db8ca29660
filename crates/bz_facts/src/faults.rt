//! Why a model's text is refused.
ghost use Rattle.std.specs.Prelude.{◌≡◌};
ghost use Rattle.bz_facts.specs.MpsKinds.{mps_name, mps_number};

use bz_lines::LineFault;
use bz_num::OutOfMemory;
use std::alloc::{AllocError, AllocFailed};

/// What is wrong with a line of a model's text, or with what all its lines say. docs/FORMATS.md numbers the kinds, from 1
/// in this order, and says where each comes.
#[derive(Clone, Copy, Debug, PartialEq, Eq)]
pub enum MpsKind {
    /// A header's word isn't known, or a data line stands where none may.
    Section,
    /// A section stands too early, twice or too late.
    Order,
    /// COLUMNS begins, and no N row was read.
    NoObjective,
    /// The kind of a row isn't N, L, G or E.
    RowKind,
    /// A row has the name of an earlier one.
    DoubleName,
    /// No row has the name.
    UnknownRow,
    /// No column has the name.
    UnknownColumn,
    /// A column has a second number in a row, or a row a second right side or range.
    DoubleEntry,
    /// A number isn't a decimal, or is infinite to the wrong side.
    Number,
    /// A decimal is outside its limits, or a number of the model is wide.
    TooWide,
    /// The number of fields isn't one of those that the line may have.
    Fields,
    /// A marker line's word is neither `'INTORG'` nor `'INTEND'`.
    Marker,
    /// A marker opens where one is open, closes where none is, or is open at the end of COLUMNS.
    MarkerOpen,
    /// The kind of a bound isn't known.
    BoundKind,
    /// An upper bound is negative, and nothing was said of the lower one.
    NegativeUpper,
    /// A lower bound is above the upper one.
    Crossed,
    /// The text ends before ENDATA.
    NoEnd,
    /// A byte is below 32 and no tab.
    NotText,
    /// There are more columns, rows or entries than are read.
    Limit,
    /// OBJSENSE has another word than it may have, or none.
    Sense,
    /// A column comes again after another one or a marker.
    SplitColumn,
    /// The section is one that is not read.
    SectionOut,
}

impl MpsKind {
    /// The number of the kind.
    pub fn number(self) -> u32
        ensures { result ≡ mps_number self }
    {
        match self {
            MpsKind::Section => 1,
            MpsKind::Order => 2,
            MpsKind::NoObjective => 3,
            MpsKind::RowKind => 4,
            MpsKind::DoubleName => 5,
            MpsKind::UnknownRow => 6,
            MpsKind::UnknownColumn => 7,
            MpsKind::DoubleEntry => 8,
            MpsKind::Number => 9,
            MpsKind::TooWide => 10,
            MpsKind::Fields => 11,
            MpsKind::Marker => 12,
            MpsKind::MarkerOpen => 13,
            MpsKind::BoundKind => 14,
            MpsKind::NegativeUpper => 15,
            MpsKind::Crossed => 16,
            MpsKind::NoEnd => 17,
            MpsKind::NotText => 18,
            MpsKind::Limit => 19,
            MpsKind::Sense => 20,
            MpsKind::SplitColumn => 21,
            MpsKind::SectionOut => 22,
        }
    }

    /// The name of the kind.
    pub fn name(self) -> &'static [u8]
        ensures { result.now ≡ mps_name self }
    {
        match self {
            MpsKind::Section => b"Section",
            MpsKind::Order => b"Order",
            MpsKind::NoObjective => b"NoObjective",
            MpsKind::RowKind => b"RowKind",
            MpsKind::DoubleName => b"DoubleName",
            MpsKind::UnknownRow => b"UnknownRow",
            MpsKind::UnknownColumn => b"UnknownColumn",
            MpsKind::DoubleEntry => b"DoubleEntry",
            MpsKind::Number => b"Number",
            MpsKind::TooWide => b"TooWide",
            MpsKind::Fields => b"Fields",
            MpsKind::Marker => b"Marker",
            MpsKind::MarkerOpen => b"MarkerOpen",
            MpsKind::BoundKind => b"BoundKind",
            MpsKind::NegativeUpper => b"NegativeUpper",
            MpsKind::Crossed => b"Crossed",
            MpsKind::NoEnd => b"NoEnd",
            MpsKind::NotText => b"NotText",
            MpsKind::Limit => b"Limit",
            MpsKind::Sense => b"Sense",
            MpsKind::SplitColumn => b"SplitColumn",
            MpsKind::SectionOut => b"SectionOut",
        }
    }
}

/// The fault of a model's text.
#[derive(Clone, Copy, Debug, PartialEq, Eq)]
pub struct MpsFault {
    /// The line, counted from 1.
    pub line: u32,
    /// What is wrong.
    pub kind: MpsKind,
}

/// Why a model's text is not read.
#[derive(Clone, Copy, Debug, PartialEq, Eq)]
pub enum MpsStop {
    /// It has this fault.
    Fault(MpsFault),
    /// There is no memory.
    OutOfMemory,
}

impl From<AllocError> for MpsStop {
    ghost use Rattle.std.specs.Prelude.{◌≡◌};
    ghost use Rattle.bz_facts.specs.declared.faults.MpsStop.TheVariants.{OutOfMemory};

    ghost from_gives = { λ _ e. e ≡ OutOfMemory };

    fn from(_error: AllocError) -> MpsStop {
        MpsStop::OutOfMemory
    }
}

impl<T: Drop> From<AllocFailed<T>> for MpsStop {
    ghost use Rattle.std.specs.Prelude.{◌≡◌};
    ghost use Rattle.bz_facts.specs.declared.faults.MpsStop.TheVariants.{OutOfMemory};

    ghost from_gives = { λ _ e. e ≡ OutOfMemory };

    fn from(_error: AllocFailed<T>) -> MpsStop {
        MpsStop::OutOfMemory
    }
}

impl From<OutOfMemory> for MpsStop {
    ghost use Rattle.std.specs.Prelude.{◌≡◌};
    ghost use Rattle.bz_facts.specs.declared.faults.MpsStop.TheVariants.{OutOfMemory};

    ghost from_gives = { λ _ e. e ≡ OutOfMemory };

    fn from(_error: OutOfMemory) -> MpsStop {
        MpsStop::OutOfMemory
    }
}

impl From<LineFault> for MpsStop {
    ghost use Rattle.std.specs.Prelude.{◌≡◌};
    ghost use Rattle.bz_facts.specs.LineStops.{stop_by};

    ghost from_gives = { λ fault stop. stop ≡ stop_by fault };

    fn from(fault: LineFault) -> MpsStop {
        match fault {
            LineFault::NotText { line } => MpsStop::Fault(MpsFault {
                line,
                kind: MpsKind::NotText,
            }),
            LineFault::OutOfMemory => MpsStop::OutOfMemory,
        }
    }
}
