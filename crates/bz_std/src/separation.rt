//! The separation program of a block at a point of the master.
ghost use Rattle.std.specs.Prelude.{◌≡◌, ◌<◌, ◌≤◌, ◌++◌, ◌∷◌, [], IfErr, IfOk, length, map, ◌+◌, ◌^◌, ◌+ℤ◌, ◌*ℤ◌, OnOk, is_err};
ghost use Rattle.std.proofs.Math.IntN.{neg_ℤ};
ghost use Rattle.std.specs.List.{AllByRecursion};
ghost use Rattle.bz_algebra.specs.Numbers.{IsNarrow};
ghost use Rattle.bz_algebra.specs.Sums.{AllBelow};
ghost use Rattle.bz_num.specs.Fold.{IsNarrowSum, fold_of, goes_wide};
ghost use Rattle.bz_model.specs.Limits.{list_limit};
ghost use Rattle.bz_model.specs.Parting.{blocks_of, inequalities_of, width_of};
ghost use Rattle.bz_tableau.specs.Programs.{IsLp};
ghost use Rattle.bz_std.specs.Posed.{AreRowsOf, IsRowOf};
ghost use Rattle.bz_std.specs.Stops.{StopsAtRow, StopsBuilding};
ghost use Rattle.bz_std.specs.Tasks.{IsCostAdded, IsMasterOf, IsSeparationLp, cost_line, own_line, right_pairs};

use crate::columns::{push_row, row_over_columns};
use crate::costs::cost_over_columns;
use crate::stops::BuildStop;
use bz_cut::Mode;
use bz_model::{Ineq, Master, Split};
use bz_num::{Folding, Items, OutOfMemory, SparseRow, WideSum, narrow_negation};
use bz_tableau::{Lp, LpRow, WideAt};
use std::alloc::Global;

/// Subtracts the product from a sum.
fn push_less(folding: &mut Folding, number: i128, by: i128) -> Result<(), WideSum>
    requires room { folding.old.count + 1 < 2 ^ 64 }
    requires narrow { IsNarrow number }
    ensures fails { is_err result ≡ goes_wide folding.old.sum (neg_ℤ number, by) }
    ensures sum { OnOk result (folding.new.sum ≡ folding.old.sum +ℤ (neg_ℤ number *ℤ by)) }
    ensures count { OnOk result (folding.new.count ≡ folding.old.count + 1) }
    ensures place { IfErr result (λ wide. wide.at ≡ folding.old.count) }
{
    folding.push(narrow_negation(number), by)
}

/// What is left of the right side of an inequality at the point, times the point's denominator, or the first wide
/// place of that sum.
pub(crate) fn right_side(point: &Master, ineq: &Ineq) -> Result<i128, WideSum>
    requires { AllBelow (length point.now.x) ineq.now.master }
    ensures value { result ≡ fold_of (right_pairs point.now ineq.now) }
    ensures narrow { IfOk result IsNarrow }
{
    let x = point.x.as_slice();
    let mut folding = Folding::new();
    folding.push(point.den, ineq.rhs)?;
    for entry in ineq.master.as_slice() {
        push_less(&mut folding, entry.1, x[entry.0 as usize])?;
    }
    Ok(folding.sum())
}

/// The row of an inequality, which is the one of this number.
fn own_row(alloc: Global, point: &Master, ineq: &Ineq, number: u32) -> Result<LpRow, BuildStop>
    requires own { AllBelow list_limit ineq.now.own }
    requires master { AllBelow (length point.now.x) ineq.now.master }
    ensures row { IfOk result (IsRowOf (own_line point.now ineq.now)) }
    ensures narrow { IfOk result (λ _. IsNarrowSum (right_pairs point.now ineq.now)) }
    ensures stop { IfErr result (StopsAtRow point.now ineq.now number) }
{
    match right_side(point, ineq) {
        Ok(rhs) => {
            let terms = row_over_columns(alloc, &ineq.own)?;
            Ok(LpRow { terms, rhs })
        },
        Err(_) => Err(BuildStop::Wide(WideAt::Build { row: number })),
    }
}

/// The rows of the inequalities.
fn own_rows(alloc: Global, point: &Master, ineqs: &[Ineq]) -> Result<Vec<LpRow>, BuildStop>
    requires own { AllByRecursion (λ i. AllBelow list_limit i.own) ineqs.now }
    requires master { AllByRecursion (λ i. AllBelow (length point.now.x) i.master) ineqs.now }
    requires few { length ineqs.now < list_limit }
    ensures rows { IfOk result (λ rows. AreRowsOf (map (own_line point.now) ineqs.now) rows.items) }
    ensures narrow { IfOk result (λ _. AllByRecursion (λ i. IsNarrowSum (right_pairs point.now i)) ineqs.now) }
    ensures stop { IfErr result (StopsBuilding point.now ineqs.now) }
{
    let mut rows = Vec::new(alloc);
    for (number, ineq) in ineqs.iter().enumerate() {
        let row = own_row(alloc, point, ineq, number as u32)?;
        push_row(&mut rows, row)?;
    }
    Ok(rows)
}

/// The row that holds a block's cost to its eta.
fn cost_row(alloc: Global, split: &Split, block: u32, point: &Master) -> Result<LpRow, OutOfMemory>
    requires first { 0 < block }
    requires last { block ≤ blocks_of split.now.part }
    requires eta { length point.now.eta ≡ blocks_of split.now.part }
    ensures { IfOk result (IsRowOf (cost_line split.now.model split.now.part point.now block)) }
{
    let terms = cost_over_columns(alloc, split, block)?;
    let rhs = point.eta.as_slice()[block as usize - 1];
    Ok(LpRow { terms, rhs })
}

/// Adds the row that holds a block's cost to its eta, in mode Cost.
fn push_cost_row(
    alloc: Global,
    split: &Split,
    block: u32,
    point: &Master,
    mode: Mode,
    rows: &mut Vec<LpRow>,
) -> Result<(), OutOfMemory>
    requires first { 0 < block }
    requires last { block ≤ blocks_of split.now.part }
    requires eta { length point.now.eta ≡ blocks_of split.now.part }
    ensures { OnOk result (IsCostAdded split.now.model split.now.part point.now block mode rows.old.items rows.new.items) }
{
    match mode {
        Mode::Cost => {
            let row = cost_row(alloc, split, block, point)?;
            push_row(rows, row)
        },
        Mode::Point => Ok(()),
    }
}

/// The separation program of a block at the master's point. Where the sum of a right side is wide there is none: the
/// stop names the first such inequality.
pub fn separation_lp(
    alloc: Global,
    split: &Split,
    block: u32,
    point: &Master,
    mode: Mode,
) -> Result<Lp, BuildStop>
    requires first { 0 < block }
    requires last { block ≤ blocks_of split.now.part }
    requires point { IsMasterOf split.now.part point.now }
    ensures program { IfOk result (IsSeparationLp split.now.model split.now.part point.now block mode) }
    ensures is_lp { IfOk result IsLp }
    ensures stop { IfErr result (StopsBuilding point.now (inequalities_of split.now.model split.now.part block)) }
{
    let mut rows = own_rows(alloc, point, split.inequalities(block))?;
    push_cost_row(alloc, split, block, point, mode, &mut rows)?;
    Ok(Lp {
        columns: 2 * split.width(block),
        rows: Items::from_vec(rows),
        cost: SparseRow::from_vec(Vec::new(alloc)),
    })
}
