//! Linear programs in whole numbers.
ghost use Rattle.bz_algebra.specs.Numbers.{IsNarrow};

use bz_num::{Items, SparseRow};

/// A row of a program: the sum of the terms is at most `rhs`.
#[derive(Drop)]
pub struct LpRow {
    pub terms: SparseRow,
    pub rhs: i128,
    pub ghost rhs_narrow: { IsNarrow rhs },
}

/// Minimise `cost z` over `z >= 0` with `terms z <= rhs` in each row. A relaxed one has a further column s after its
/// own: minimise s with `terms z - s <= rhs` in each row and `s >= 0`.
#[derive(Drop)]
pub struct Lp {
    /// How many columns z has.
    pub columns: u32,
    pub rows: Items<LpRow>,
    pub cost: SparseRow,
}
