//! Sums of inequalities, each times its multiplier.
ghost use Rattle.std.specs.Prelude.{◌≡◌, ◌<◌, ◌≤◌, ℕ, ℤ, length};
ghost use Rattle.bz_algebra.specs.Sums.{coef};
ghost use Rattle.bz_num.specs.Fold.{fold_of, pairs_at};
ghost use Rattle.bz_model.specs.Entries.{width_at};
ghost use Rattle.bz_model.specs.Parting.{blocks_of, inequalities_of};
ghost use Rattle.bz_model.specs.Rows.{rhs_at, terms_at};
ghost use Rattle.bz_cut.specs.Rows.{AreMultipliers};

use bz_model::{Ineq, Split, Terms};
use bz_num::{Numbers, SparseRow, WideSum, sparse_sum, sum_at};

/// The numbers of inequalities at a position.
#[derive(Clone, Copy)]
struct AtPosition<'a> {
    rows: &'a [Ineq],
    terms: Terms,
    position: u32,
}

impl Numbers for AtPosition<'_> {
    ghost count = { λ n. length n.rows.now };

    ghost at = { λ n k. coef (terms_at n.terms n.rows.now k) n.position };

    fn number(&self, place: u32) -> i128 {
        let row = &self.rows[place as usize];
        match self.terms {
            Terms::Own => row.own.at(self.position),
            Terms::Master => row.master.at(self.position),
        }
    }
}

/// The right sides of inequalities.
#[derive(Clone, Copy)]
struct RightSides<'a> {
    rows: &'a [Ineq],
}

impl Numbers for RightSides<'_> {
    ghost count = { λ n. length n.rows.now };

    ghost at = { λ n. rhs_at n.rows.now };

    fn number(&self, place: u32) -> i128 {
        self.rows[place as usize].rhs
    }
}

/// The sum at a position of the inequalities, each times its multiplier, or its first wide place.
pub fn column_sum(
    multipliers: &SparseRow,
    rows: &[Ineq],
    terms: Terms,
    position: u32,
) -> Result<i128, WideSum>
    requires { AreMultipliers (length rows.now) multipliers.now }
    ensures { result ≡ fold_of (pairs_at multipliers.now (λ n. coef (terms_at terms rows.now n) position)) }
{
    let numbers = AtPosition {
        rows,
        terms,
        position,
    };
    sum_at(multipliers, &numbers)
}

/// The same of a part's inequalities, by what a split keeps of them: it goes over those alone that have a number at the
/// position.
pub fn position_sum(
    split: &Split,
    part: u32,
    multipliers: &SparseRow,
    terms: Terms,
    position: u32,
) -> Result<i128, WideSum>
    requires part { part ≤ blocks_of split.now.part }
    requires position { position < width_at terms split.now.part part }
    ensures { result ≡ fold_of (pairs_at multipliers.now
        (λ n. coef (terms_at terms (inequalities_of split.now.model split.now.part part) n) position)) }
{
    sparse_sum(multipliers, split.entries_at(part, terms, position))
}

/// The sum of the right sides of the inequalities, each times its multiplier, or its first wide place.
pub fn rhs_sum(multipliers: &SparseRow, rows: &[Ineq]) -> Result<i128, WideSum>
    requires { AreMultipliers (length rows.now) multipliers.now }
    ensures { result ≡ fold_of (pairs_at multipliers.now (rhs_at rows.now)) }
{
    sum_at(multipliers, &RightSides { rows })
}
