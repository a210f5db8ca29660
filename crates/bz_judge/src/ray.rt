//! Whether the objective improves without end along a direction.
ghost use Rattle.std.specs.Prelude.{◌≡◌, ◌↔◌, ◌<◌, ◌^◌, pos, ◌≤ℤ◌, [], ◌∷◌, IfSome, IfOk, IsTrue, length};
ghost use Rattle.std.specs.List.{AllByRecursion, enumerate_from};
ghost use Rattle.bz_algebra.specs.Sums.{AllBelow, dot};
ghost use Rattle.bz_num.specs.Fold.{IsNarrowSum, fold_of};
ghost use Rattle.bz_model.specs.Parting.{inner_cost};
ghost use Rattle.bz_model.specs.Points.{coordinate};
ghost use Rattle.bz_first.specs.Tests.{Judges, each_of, test};
ghost use Rattle.bz_judge.specs.RayTests.{KeepsBounds, ray_bound_tests, ray_cost_tests, ray_integer_tests, ray_row_tests, ray_tests};
ghost use Rattle.bz_model.specs.PointSums.{row_pairs};

use crate::faults::{CheckFault, RAY_SUMS, wide_in};
use crate::numbers::sum_at;
use bz_cut::judge_fold;
use bz_first::{ItemTests, judge, judge_each};
use bz_model::{Column, Model, Row, Split, inner_number};
use bz_num::{Folding, WideSum};

/// The tests that integer columns stay where they are.
#[derive(Clone, Copy)]
struct Stays<'a> {
    ray: &'a [i128],
}

impl ItemTests<Column, CheckFault> for Stays<'_> {
    ghost takes = { λ t e. e.0 < length t.ray.now };

    ghost tests = { λ t. ray_integer_tests t.ray.now };

    fn judge(&self, j: u32, column: &Column) -> Result<(), CheckFault> {
        if column.integer && self.ray[j as usize] != 0 {
            return Err(CheckFault::Ray);
        }
        Ok(())
    }
}

/// Tests that the integer columns stay where they are.
fn judge_integers(columns: &[Column], ray: &[i128]) -> Result<(), CheckFault>
    requires few { length columns.now < 2 ^ 32 }
    requires length { length ray.now ≡ length columns.now }
    ensures { Judges (each_of (ray_integer_tests ray.now) (enumerate_from 0 columns.now)) result }
{
    judge_each(columns, 0, &Stays { ray })
}

/// Whether a step keeps the bounds that are there.
fn is_free(lower: bool, upper: bool, step: i128) -> bool
    ensures { IsTrue result ↔ ((IsTrue lower → pos 0 ≤ℤ step) × (IsTrue upper → step ≤ℤ pos 0)) }
{
    (!lower || 0 <= step) && (!upper || step <= 0)
}

/// Whether a step keeps the row's sides.
fn row_allows(row: &Row, step: i128) -> bool
    ensures { IsTrue result ↔ (IfSome row.now.lower (λ l. pos 0 ≤ℤ step) × IfSome row.now.upper (λ u. step ≤ℤ pos 0)) }
{
    is_free(row.lower.is_some(), row.upper.is_some(), step)
}

/// Whether a step keeps the column's bounds.
fn column_allows(column: &Column, step: i128) -> bool
    ensures { IsTrue result ↔ KeepsBounds column.now step }
{
    is_free(column.lower.is_some(), column.upper.is_some(), step)
}

/// The tests that the direction keeps the sides of rows, whose sums along it are not wide.
#[derive(Clone, Copy)]
struct Rows<'a> {
    ray: &'a [i128],
}

impl ItemTests<Row, CheckFault> for Rows<'_> {
    ghost takes = { λ t e. AllBelow (length t.ray.now) e.1.terms };

    ghost tests = { λ t. ray_row_tests t.ray.now };

    fn judge(&self, r: u32, row: &Row) -> Result<(), CheckFault> {
        let sum = sum_at(&row.terms, self.ray, wide_in(RAY_SUMS, r))?;
        judge(row_allows(row, sum), CheckFault::Ray)
    }
}

/// Tests that the direction keeps the sides of all rows.
pub fn judge_ray_rows(rows: &[Row], ray: &[i128]) -> Result<(), CheckFault>
    requires few { length rows.now < 2 ^ 32 }
    requires within { AllByRecursion (λ row. AllBelow (length ray.now) row.terms) rows.now }
    ensures { Judges (each_of (ray_row_tests ray.now) (enumerate_from 0 rows.now)) result }
{
    judge_each(rows, 0, &Rows { ray })
}

/// The tests that the direction keeps the bounds of columns.
#[derive(Clone, Copy)]
struct Bounds<'a> {
    ray: &'a [i128],
}

impl ItemTests<Column, CheckFault> for Bounds<'_> {
    ghost takes = { λ t e. e.0 < length t.ray.now };

    ghost tests = { λ t. ray_bound_tests t.ray.now };

    fn judge(&self, j: u32, column: &Column) -> Result<(), CheckFault> {
        judge(column_allows(column, self.ray[j as usize]), CheckFault::Ray)
    }
}

/// Tests that the direction keeps the bounds of all columns.
fn judge_bounds(columns: &[Column], ray: &[i128]) -> Result<(), CheckFault>
    requires few { length columns.now < 2 ^ 32 }
    requires length { length ray.now ≡ length columns.now }
    ensures { Judges (each_of (ray_bound_tests ray.now) (enumerate_from 0 columns.now)) result }
{
    judge_each(columns, 0, &Bounds { ray })
}

/// The inner cost along the direction, or its first wide place.
fn ray_cost(model: &Model, ray: &[i128]) -> Result<i128, WideSum>
    requires { AllBelow (length ray.now) model.now.cost }
    ensures { result ≡ fold_of (row_pairs (inner_cost model.now) ray.now) }
{
    let mut folding = Folding::new();
    for entry in model.cost.as_slice() {
        let number = inner_number(model.maximise, entry.1);
        folding.push(number, ray[entry.0 as usize])?;
    }
    Ok(folding.sum())
}

/// The inner cost along the direction, or the fault where it is wide.
fn cost_along(model: &Model, ray: &[i128], wide: CheckFault) -> Result<i128, CheckFault>
    requires { AllBelow (length ray.now) model.now.cost }
    ensures judges { Judges (test wide (IsNarrowSum (row_pairs (inner_cost model.now) ray.now)) ∷ []) result }
    ensures value { IfOk result (λ sum. sum ≡ dot (inner_cost model.now) (coordinate ray.now)) }
{
    judge_fold(ray_cost(model, ray), wide)
}

/// Tests that the inner cost along the direction is not wide, and falls.
fn judge_ray_cost(model: &Model, ray: &[i128]) -> Result<(), CheckFault>
    requires few { length model.now.rows < 2 ^ 32 }
    requires within { AllBelow (length ray.now) model.now.cost }
    ensures { Judges (ray_cost_tests model.now ray.now) result }
{
    let at = model.rows.as_slice().len() as u32;
    let cost = cost_along(model, ray, wide_in(RAY_SUMS, at))?;
    if cost >= 0 {
        return Err(CheckFault::Ray);
    }
    Ok(())
}

/// Tests that the objective improves without end along the direction.
pub fn judge_ray(split: &Split, ray: &[i128]) -> Result<(), CheckFault>
    requires { length ray.now ≡ length split.now.model.columns }
    ensures { Judges (ray_tests split.now.model ray.now) result }
{
    let model = split.model();
    let columns = model.columns.as_slice();
    judge_integers(columns, ray)?;
    judge_ray_rows(model.rows.as_slice(), ray)?;
    judge_bounds(columns, ray)?;
    judge_ray_cost(model, ray)
}
