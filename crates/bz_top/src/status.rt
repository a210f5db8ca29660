//! How the program ends.
ghost use Rattle.std.specs.Prelude.{◌≡◌};
ghost use Rattle.bz_top.specs.Ends.{number_of};

use bz_cert::CertFault;
use bz_check::CheckFault;
use bz_facts::MpsFault;
use bz_part::PartFault;
use bz_split::Unsplit;

/// How the program ends.
#[derive(Clone, Copy, Debug, PartialEq, Eq)]
pub enum Status {
    /// The certificate holds, or the model has its parts, and what says so is put whole.
    Done,
    /// No verdict was reached.
    Unresolved,
    /// The words are refused.
    Usage,
    /// The model's text is refused.
    Model,
    /// The partition's text, or the decomposition, is refused.
    Part,
    /// A load failed.
    Read,
    /// A put failed.
    Write,
    /// There is no memory.
    Memory,
    /// The certificate's text, or its check, is refused.
    Cert,
    /// A file is longer than its limit.
    TooLong,
}

impl Status {
    /// The number that the program ends with, from 0 to 9 in the order of the variants.
    pub fn number(&self) -> u8
        ensures { result ≡ number_of self.now }
    {
        match self {
            Status::Done => 0,
            Status::Unresolved => 1,
            Status::Usage => 2,
            Status::Model => 3,
            Status::Part => 4,
            Status::Read => 5,
            Status::Write => 6,
            Status::Memory => 7,
            Status::Cert => 8,
            Status::TooLong => 9,
        }
    }
}

/// One of the files of a job.
#[derive(Clone, Copy, Debug, PartialEq, Eq)]
pub(crate) enum File {
    Model,
    Part,
    Cert,
}

/// Why a job ends without what it asks for.
#[derive(Drop)]
pub(crate) enum Refusal {
    /// The model's text has this fault.
    Model(MpsFault),
    /// The partition's text has this fault.
    Part(PartFault),
    /// The model has no split by the partition.
    Split(Unsplit),
    /// The text is no certificate's.
    Cert(CertFault),
    /// The certificate does not pass, or its numbers do not fit.
    Check(CheckFault),
    /// The load of a file failed.
    Read(File),
    /// A file is longer than its limit.
    TooLong(File),
    /// There is no memory.
    Memory,
}

impl Refusal {
    ghost use Rattle.bz_top.specs.Ends.{status_of};

    /// The status that the program ends with.
    pub(crate) fn status(&self) -> Status
        ensures { result ≡ status_of self.now }
    {
        match self {
            Refusal::Model(_) => Status::Model,
            Refusal::Part(_) | Refusal::Split(_) => Status::Part,
            Refusal::Cert(_) | Refusal::Check(_) => Status::Cert,
            Refusal::Read(_) => Status::Read,
            Refusal::TooLong(_) => Status::TooLong,
            Refusal::Memory => Status::Memory,
        }
    }
}
