//! Sums, each with the fault that is answered where it is wide.
ghost use Rattle.std.specs.Prelude.{◌≡◌, ◌<◌, [], ◌∷◌, IfOk, length};
ghost use Rattle.bz_algebra.specs.Sums.{AllBelow, dot};
ghost use Rattle.bz_num.specs.Fold.{IsNarrowSum, products};
ghost use Rattle.bz_model.specs.Points.{coordinate};
ghost use Rattle.bz_first.specs.Tests.{Judges, test};
ghost use Rattle.bz_model.specs.PointSums.{row_pairs};

use crate::faults::CheckFault;
use bz_cut::judge_fold;
use bz_num::{SparseRow, fold, row_sum};

/// The sum of the products, in order, or the fault where it is wide.
pub fn sum_of(pairs: &[(i128, i128)], wide: CheckFault) -> Result<i128, CheckFault>
    ensures judges { Judges (test wide (IsNarrowSum pairs.now) ∷ []) result }
    ensures value { IfOk result (λ sum. sum ≡ products pairs.now) }
{
    fold(pairs).map_err(|_| wide)
}

/// The sum of a row at a point, or the fault where it is wide.
pub fn sum_at(row: &SparseRow, point: &[i128], wide: CheckFault) -> Result<i128, CheckFault>
    requires { AllBelow (length point.now) row.now }
    ensures judges { Judges (test wide (IsNarrowSum (row_pairs row.now point.now)) ∷ []) result }
    ensures value { IfOk result (λ sum. sum ≡ dot row.now (coordinate point.now)) }
{
    judge_fold(row_sum(row, point), wide)
}
