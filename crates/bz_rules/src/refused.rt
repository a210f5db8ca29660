//! Why an answer changes nothing.

/// Why an answer changes nothing.
#[derive(Clone, Copy, Debug, PartialEq, Eq)]
pub enum Refused {
    /// What it answers has ended: the place in the history of the entry that ended it.
    Late { ended_by: u64 },
    /// It answers no task of this search, or another program than the task's.
    Unfit,
}
