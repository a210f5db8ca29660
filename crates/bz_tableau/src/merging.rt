//! A row cleared in a column by another: two sparse rows met column by column.
ghost use Rattle.std.specs.Prelude.{◌≡◌, ◌<◌, ◌≤◌, suc, SomeIff, IfOk, MatchOption, length};
ghost use Rattle.bz_algebra.specs.Sums.{coef};
ghost use Rattle.bz_num.specs.Row.{IsSparse};
ghost use Rattle.bz_tableau.specs.Sparse.{HasWideColumn, IsMerged, IsNextColumn, IsPlaceOf, column_of};

use crate::steps::cleared;
use bz_num::{OutOfMemory, SparseRow};
use std::alloc::Global;

// The column at a place of the row, none past its end.
fn column_at(row: &[(u32, i128)], i: usize) -> Option<u32>
    ensures { SomeIff result (i < length row.now) (column_of row.now i) }
{
    if i < row.len() { Some(row[i].0) } else { None }
}

// The least of the columns that the rows have at these places, none past both ends.
fn next_column(row: &[(u32, i128)], i: usize, other: &[(u32, i128)], k: usize) -> Option<u32>
    ensures { MatchOption result
        ((length row.now ≤ i) × (length other.now ≤ k))
        (λ c. IsNextColumn row.now i other.now k c) }
{
    match (column_at(row, i), column_at(other, k)) {
        (Some(here), Some(there)) => Some(here.min(there)),
        (Some(here), None) => Some(here),
        (None, there) => there,
    }
}

// The number in the column, whose place is i.
fn number_at(row: &[(u32, i128)], i: usize, column: u32) -> i128
    requires sparse { IsSparse row.now }
    requires place { IsPlaceOf row.now i column }
    ensures { result ≡ coef row.now column }
{
    if i < row.len() && row[i].0 == column {
        row[i].1
    } else {
        0
    }
}

// The place of the next column, where that of this column is i.
fn place_after(row: &[(u32, i128)], i: usize, column: u32) -> usize
    requires sparse { IsSparse row.now }
    requires place { IsPlaceOf row.now i column }
    ensures place { IsPlaceOf row.now result (suc column) }
    ensures rises { i ≤ result }
    ensures passed { i < length row.now → column_of row.now i ≡ column → i < result }
{
    if i < row.len() && row[i].0 == column {
        i + 1
    } else {
        i
    }
}

/// `kept row - taken pivot`, where no step is wide.
pub fn combine(
    alloc: Global,
    kept: i128,
    row: &[(u32, i128)],
    taken: i128,
    pivot: &[(u32, i128)],
) -> Result<Option<SparseRow>, OutOfMemory>
    requires row { IsSparse row.now }
    requires pivot { IsSparse pivot.now }
    ensures { IfOk result (λ outcome. MatchOption outcome
        (HasWideColumn kept row.now taken pivot.now)
        (λ new. IsMerged kept row.now taken pivot.now new)) }
{
    let mut new = SparseRow::from_vec(Vec::with_capacity(alloc, row.len())?);
    let mut i = 0;
    let mut k = 0;
    while let Some(column) = next_column(row, i, pivot, k) {
        let here = number_at(row, i, column);
        let there = number_at(pivot, k, column);
        match cleared(kept, here, taken, there) {
            Some(number) => new.push(column, number)?,
            None => return Ok(None),
        }
        i = place_after(row, i, column);
        k = place_after(pivot, k, column);
    }
    Ok(Some(new))
}
