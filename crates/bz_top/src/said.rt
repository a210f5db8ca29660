//! What a job comes to.
use bz_check::Stated;
use bz_model::Split;
use bz_num::Items;

/// What a certificate that holds says.
#[derive(Clone, Copy, Debug)]
pub(crate) enum Holding {
    /// Its point is optimal, and this is its objective in lowest terms.
    Optimal(Stated),
    /// No point is feasible.
    Infeasible,
    /// For each number some feasible point is better.
    Unbounded,
}

/// What a job comes to that is not refused.
#[derive(Drop)]
pub(crate) enum Said {
    /// The certificate holds.
    Holds(Holding),
    /// The model has these parts, and so many rows in each, the master's first.
    Parts { split: Split, rows: Items<u32> },
}
