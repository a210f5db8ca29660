//! Tests of sums, with whatever answers: `broken` where the numbers are not as tested, `wide` where a sum or a product
//! that the test needs passes 2^127 - 1 in size. They take no memory.
ghost use Rattle.std.specs.Prelude.{◌≡◌, ◌*ℤ◌, ℤ, List, [], ◌∷◌, Ok, IfOk};
ghost use Rattle.std.proofs.Math.IntN.{neg_ℤ};
ghost use Rattle.bz_algebra.specs.Numbers.{IsNarrow};
ghost use Rattle.bz_num.specs.Fold.{IsNarrowSum, fold_of};
ghost use Rattle.bz_first.specs.Tests.{Judges, test};
ghost use Rattle.bz_cut.specs.SumTests.{JudgesSum, at_most, equation, sum_is};

use bz_first::{judge_equal, judge_order};
use bz_num::{WideSum, narrow_negation, narrow_product};

/// The sum of a fold where no place of it is wide, else the answer.
pub fn judge_fold<F: Copy>(sum: Result<i128, WideSum>, wide: F) -> Result<i128, F>
    ensures judges { (ps : List (ℤ × ℤ)) → sum ≡ fold_of ps → Judges (test wide (IsNarrowSum ps) ∷ []) result }
    ensures sum { IfOk result (λ found. sum ≡ Ok found) }
{
    match sum {
        Ok(found) => Ok(found),
        Err(_) => Err(wide),
    }
}

/// The product where it is not wide, else the answer.
pub fn judge_product<F: Copy>(a: i128, b: i128, wide: F) -> Result<i128, F>
    ensures judges { Judges (test wide (IsNarrow (a *ℤ b)) ∷ []) result }
    ensures product { IfOk result (λ product. product ≡ a *ℤ b) }
{
    narrow_product(a, b).ok_or(wide)
}

/// Tests that the sum of a fold is not wide, and is the number.
pub fn judge_sum<F: Copy>(
    sum: Result<i128, WideSum>,
    number: i128,
    broken: F,
    wide: F,
) -> Result<(), F>
    ensures { JudgesSum sum (λ multipliers f. sum_is broken wide multipliers f number) result }
{
    let found = judge_fold(sum, wide)?;
    judge_equal(found, number, broken)
}

/// Tests that the sum of a fold is not wide, that the product isn't, and that the two are equal.
pub fn judge_equation<F: Copy>(
    sum: Result<i128, WideSum>,
    a: i128,
    b: i128,
    broken: F,
    wide: F,
) -> Result<(), F>
    ensures { JudgesSum sum (λ multipliers f. equation broken wide multipliers f (a *ℤ b) (a *ℤ b)) result }
{
    let found = judge_fold(sum, wide)?;
    let product = judge_product(a, b, wide)?;
    judge_equal(found, product, broken)
}

/// Tests that the sum of a fold is not wide, that the product isn't, and that the sum is the product with the other
/// sign.
pub fn judge_opposite<F: Copy>(
    sum: Result<i128, WideSum>,
    a: i128,
    b: i128,
    broken: F,
    wide: F,
) -> Result<(), F>
    ensures { JudgesSum sum (λ multipliers f. equation broken wide multipliers f (a *ℤ b) (neg_ℤ (a *ℤ b))) result }
{
    let found = judge_fold(sum, wide)?;
    let product = judge_product(a, b, wide)?;
    judge_equal(found, narrow_negation(product), broken)
}

/// Tests that the sum of a fold is not wide, that the product isn't, and that the sum is at most the product.
pub fn judge_at_most<F: Copy>(
    sum: Result<i128, WideSum>,
    a: i128,
    b: i128,
    broken: F,
    wide: F,
) -> Result<(), F>
    ensures { JudgesSum sum (λ multipliers f. at_most broken wide multipliers f (a *ℤ b)) result }
{
    let found = judge_fold(sum, wide)?;
    let product = judge_product(a, b, wide)?;
    judge_order(found, product, broken)
}
