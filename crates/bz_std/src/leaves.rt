//! The leaf that an answer of a node's program makes.
ghost use Rattle.std.specs.Prelude.{◌≡◌, ◌<◌, ◌≤◌, pos, ◌≤ℤ◌, IfErr, IfOk, length, map};
ghost use Rattle.bz_algebra.specs.Sums.{AllBelow};
ghost use Rattle.bz_num.specs.Dense.{entry};
ghost use Rattle.bz_num.specs.Fold.{fold_of, pairs_at};
ghost use Rattle.bz_tableau.specs.Programs.{IsLp};
ghost use Rattle.bz_std.specs.Making.{AreNonnegativeTo, HasNarrowBound, IsLeafOfLines, IsLeafOfProgram, StopsLeaf, StopsLines, WideLeavesDoNotFit};
ghost use Rattle.bz_std.specs.Meanings.{right_at};
ghost use Rattle.bz_std.specs.Posed.{line_of};

use crate::making::MakeStop;
use crate::multipliers::entries_of;
use bz_num::{Numbers, SparseRow, WideSum, narrow_negation, sum_at};
use bz_tableau::{Lp, LpRow};
use bz_tree::Leaf;
use std::alloc::Global;

/// The right sides of a program's rows.
#[derive(Clone, Copy)]
struct RightSides<'a> {
    rows: &'a [LpRow],
}

impl Numbers for RightSides<'_> {
    ghost count = { λ n. length n.rows.now };

    ghost at = { λ n. right_at (map line_of n.rows.now) };

    fn number(&self, place: u32) -> i128 {
        self.rows[place as usize].rhs
    }
}

/// The sum of the right sides, each times its multiplier, or its first wide place.
fn right_sum(lambda: &SparseRow, rows: &[LpRow]) -> Result<i128, WideSum>
    requires { AllBelow (length rows.now) lambda.now }
    ensures { result ≡ fold_of (pairs_at lambda.now (right_at (map line_of rows.now))) }
{
    sum_at(lambda, &RightSides { rows })
}

/// The leaf that the multipliers y of a node's program make over `by`: its lambda is y without zeros, and the bound is
/// minus the sum of the right sides, each times its multiplier. Where that sum is wide there is none.
pub fn made_leaf(alloc: Global, lp: &Lp, y: &[i128], by: i128) -> Result<Leaf, MakeStop>
    requires is_lp { IsLp lp.now }
    requires inside { length lp.now.rows ≤ length y.now }
    requires multipliers { AreNonnegativeTo (length lp.now.rows) (entry y.now) }
    requires nonnegative { pos 0 ≤ℤ by }
    ensures made { IfOk result (IsLeafOfLines (map line_of lp.now.rows) (entry y.now) by) }
    ensures wide { IfErr result (StopsLines (map line_of lp.now.rows) (entry y.now)) }
    ensures leaf { IfOk result (IsLeafOfProgram lp.now (entry y.now) by) }
    ensures narrow { IfOk result (λ leaf. HasNarrowBound lp.now leaf.lambda) }
    ensures stop { IfErr result (StopsLeaf lp.now (entry y.now)) }
{
    let rows = lp.rows.as_slice();
    let lambda = entries_of(alloc, y, rows.len() as u32)?;
    let sum = right_sum(&lambda, rows)?;
    Ok(Leaf {
        lambda,
        delta: by,
        bound: narrow_negation(sum),
    })
}

/// No leaf of a node fits with multipliers for which the sum of its bound is wide.
pub fn wide_leaves_do_not_fit()
    ensures { WideLeavesDoNotFit }
{}
