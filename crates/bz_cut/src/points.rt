//! Which points a cut cuts off, and which cuts say the same.
ghost use Rattle.std.specs.Prelude.{◌↔◌, ◌≡◌, ◌<◌, ◌≤◌, ◌∷◌, [], IfErr, IfOk, IsTrue, length};
ghost use Rattle.bz_algebra.specs.Sums.{AllBelow};
ghost use Rattle.bz_num.specs.Fold.{IsFirstWide, IsNarrowSum, fold_from, fold_of};
ghost use Rattle.bz_cut.specs.Points.{AreSame, CutsOff, cutting_pairs};

use crate::records::Cut;
use bz_model::Master;
use bz_num::{SparseRow, WideSum, narrow_negation, narrow_product, narrow_sum, row_sum};

/// The sum with the product of the pair added, or the wide place `at` that this is.
fn with_product(sum: i128, a: i128, b: i128, at: usize) -> Result<i128, WideSum>
    ensures { result ≡ fold_from at sum ((a, b) ∷ []) }
{
    let wide = WideSum { at };
    let product = narrow_product(a, b).ok_or(wide)?;
    narrow_sum(sum, product).ok_or(wide)
}

/// By how much the point's denominator times `alpha x - p0 eta - beta` is above 0, or the first wide place of that sum.
fn excess(cut: &Cut, point: &Master) -> Result<i128, WideSum>
    requires alpha { AllBelow (length point.now.x) cut.now.alpha }
    requires first { 0 < cut.now.block }
    requires last { cut.now.block ≤ length point.now.eta }
    ensures { result ≡ fold_of (cutting_pairs cut.now point.now) }
{
    let eta = point.eta.as_slice()[cut.block as usize - 1];
    let place = cut.alpha.as_slice().len();
    let at_master = row_sum(&cut.alpha, point.x.as_slice())?;
    let at_point = with_product(at_master, narrow_negation(cut.p0), eta, place)?;
    with_product(at_point, narrow_negation(cut.beta), point.den, place + 1)
}

/// Whether the point breaks the cut: `alpha x - p0 eta` of its block is above `beta`. The sum runs over alpha in rising
/// order, then `-p0 eta`, and then `-beta` times the point's denominator; its first wide place is the error. It takes no
/// memory.
pub fn cuts_off(cut: &Cut, point: &Master) -> Result<bool, WideSum>
    requires alpha { AllBelow (length point.now.x) cut.now.alpha }
    requires first { 0 < cut.now.block }
    requires last { cut.now.block ≤ length point.now.eta }
    ensures tells { IfOk result (λ off. IsTrue off ↔ CutsOff cut.now point.now) }
    ensures narrow { IfOk result (λ _. IsNarrowSum (cutting_pairs cut.now point.now)) }
    ensures wide { IfErr result (λ wide. IsFirstWide (cutting_pairs cut.now point.now) wide.at) }
{
    let sum = excess(cut, point)?;
    Ok(sum > 0)
}

/// Whether the numbers are equal.
fn are_equal(a: i128, b: i128) -> bool
    ensures { IsTrue result ↔ (a ≡ b) }
{
    a == b
}

/// Whether the rows have the same pairs.
fn have_same_pairs(a: &SparseRow, b: &SparseRow) -> bool
    ensures { IsTrue result ↔ (a.now ≡ b.now) }
{
    a.as_slice() == b.as_slice()
}

/// Whether the two say the same of the same block, whatever multipliers they come from. It takes no memory.
pub fn same(a: &Cut, b: &Cut) -> bool
    ensures { IsTrue result ↔ AreSame a.now b.now }
{
    a.block == b.block
        && have_same_pairs(&a.alpha, &b.alpha)
        && are_equal(a.p0, b.p0)
        && are_equal(a.beta, b.beta)
}
