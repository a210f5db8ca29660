//! What is answered to a worker that gives an answer.

ghost use Rattle.std.specs.Prelude.{◌≡◌};
ghost use Rattle.bz_core.specs.Answering.{taken_as};

use bz_rules::Refused;

/// What became of an answer.
#[derive(Clone, Copy, Debug, PartialEq, Eq)]
pub enum Taken {
    /// It appended so many entries.
    Done { entries: u32 },
    /// What it answers was ended by the entry at this place of the history.
    Late { ended_by: u64 },
    /// It answers no task of this search, or another program than the task's.
    Unfit,
}

/// What is answered where a rule doesn't hold.
pub(crate) fn taken_as(why: Refused) -> Taken
    ensures { result ≡ taken_as why }
{
    match why {
        Refused::Late { ended_by } => Taken::Late { ended_by },
        Refused::Unfit => Taken::Unfit,
    }
}
