//! What is wrong with a text that is no certificate's.
ghost use Rattle.std.specs.Prelude.{◌≡◌};
ghost use Rattle.bz_cert.specs.CertKinds.{cert_name, cert_number};
ghost use Rattle.bz_cert.specs.declared.faults.CertStop.{CertStop};

use std::alloc::{AllocError, AllocFailed};

/// What a text breaks on a line.
#[derive(Clone, Copy, Debug, PartialEq, Eq)]
pub enum CertKind {
    /// The first line is not `bzcert 1`.
    Head,
    /// The second line is none of `verdict optimal`, `verdict infeasible` and `verdict unbounded`.
    Verdict,
    /// The first word, or the number of fields, is not possible here.
    Line,
    /// A field is not a number, or a count or an index is below 0 or above 2^32 - 1.
    Number,
    /// Indexes do not rise, a value of a sparse list is zero, or blocks are not numbered 1, 2 and on.
    Order,
    /// `end` comes before the tree is whole, or a line of the tree comes after it.
    Tree,
    /// The text ends without `end` and its line feed, or goes on after it.
    End,
    /// There are more than 65,535 cuts, or more nodes of the tree.
    Limit,
}

impl CertKind {
    /// The number of the kind.
    pub fn number(self) -> u32
        ensures { result ≡ cert_number self }
    {
        match self {
            CertKind::Head => 1,
            CertKind::Verdict => 2,
            CertKind::Line => 3,
            CertKind::Number => 4,
            CertKind::Order => 5,
            CertKind::Tree => 6,
            CertKind::End => 7,
            CertKind::Limit => 8,
        }
    }

    /// The name of the kind.
    pub fn name(self) -> &'static [u8]
        ensures { result.now ≡ cert_name self }
    {
        match self {
            CertKind::Head => b"Head",
            CertKind::Verdict => b"Verdict",
            CertKind::Line => b"Line",
            CertKind::Number => b"Number",
            CertKind::Order => b"Order",
            CertKind::Tree => b"Tree",
            CertKind::End => b"End",
            CertKind::Limit => b"Limit",
        }
    }
}

/// The first thing wrong with a text.
#[derive(Clone, Copy, Debug, PartialEq, Eq)]
pub struct CertFault {
    /// The number of the line, from 1 up; 0 where the text is empty.
    pub line: u32,
    /// What the line breaks.
    pub kind: CertKind,
}

/// Why a text gave no certificate.
#[derive(Clone, Copy, Debug, PartialEq, Eq)]
pub enum CertStop {
    /// It is no certificate's text.
    Fault(CertFault),
    /// A call asked for memory and got none.
    OutOfMemory,
}

impl From<AllocError> for CertStop {
    ghost use Rattle.std.specs.Prelude.{◌≡◌};
    ghost use Rattle.bz_cert.specs.declared.faults.CertStop.TheVariants.{OutOfMemory};

    ghost from_gives = { λ _ e. e ≡ OutOfMemory };

    fn from(_error: AllocError) -> CertStop {
        CertStop::OutOfMemory
    }
}

impl<T: Drop> From<AllocFailed<T>> for CertStop {
    ghost use Rattle.std.specs.Prelude.{◌≡◌};
    ghost use Rattle.bz_cert.specs.declared.faults.CertStop.TheVariants.{OutOfMemory};

    ghost from_gives = { λ _ e. e ≡ OutOfMemory };

    fn from(_error: AllocFailed<T>) -> CertStop {
        CertStop::OutOfMemory
    }
}

/// The stop at a line that fails.
pub(crate) fn fault(line: u32, kind: CertKind) -> CertStop
    ensures { result ≡ CertStop.Fault (record { line = line; kind = kind }) }
{
    CertStop::Fault(CertFault { line, kind })
}
