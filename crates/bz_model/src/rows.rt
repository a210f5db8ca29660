//! The inequalities of all rows and columns, part by part.
ghost use Rattle.std.specs.Prelude.{◌≡◌, ◌<◌, ◌∷◌, [], IfOk, length, pos, ◌<ℤ◌};
ghost use Rattle.std.specs.List.{AllByRecursion};
ghost use Rattle.bz_algebra.specs.Numbers.{IsNarrow};
ghost use Rattle.bz_algebra.specs.Sums.{AllBelow};
ghost use Rattle.bz_model.specs.Limits.{list_limit};
ghost use Rattle.bz_model.specs.Parting.{blocks_of, homes_of, lower_bound, sides_of_row, upper_bound};
ghost use Rattle.bz_model.specs.PartLists.{AreInequalityLists, AreJoined, ArePositions, Gains, bounds_at, bounds_of, sides_of_rows};
ghost use Rattle.bz_model.specs.Strict.{HasItsColumns, IsPartition};

use crate::growing::{Growing, empty_lists};
use crate::records::{Column, Ineq, Model, Row};
use crate::sides::{push_lower, push_upper};
use bz_num::{Frac, SparseRow};
use std::alloc::{AllocError, Global};

/// Adds the sides of a row of part `b` to the list of the part.
pub fn push_row(
    alloc: Global,
    part: &[u32],
    positions: &[u32],
    b: u32,
    row: &Row,
    lists: &mut Vec<Growing<Ineq>>,
) -> Result<(), AllocError>
    requires columns { AllBelow (length part.now) row.now.terms }
    requires places { ArePositions part.now positions.now }
    requires room { b < length lists.old.items }
    ensures { IfOk result (λ _. Gains lists.old.items lists.new.items b (sides_of_row part.now b row.now)) }
{
    push_upper(alloc, part, positions, b, &row.terms, row.upper, lists)?;
    push_lower(alloc, part, positions, b, &row.terms, row.lower, lists)
}

/// One term: the number at the column.
pub fn single(alloc: Global, column: u32, number: i128) -> Result<SparseRow, AllocError>
    requires positive { pos 0 <ℤ number }
    requires narrow { IsNarrow number }
    ensures { IfOk result (λ row. row ≡ (column, number) ∷ []) }
{
    let mut entries = Vec::new(alloc);
    entries.push((column, number))?;
    Ok(SparseRow::from_vec(entries))
}

/// Adds the upper bound of a column of part `b` to the list of the part, where there is one.
pub fn push_upper_bound(
    alloc: Global,
    part: &[u32],
    positions: &[u32],
    b: u32,
    column: u32,
    upper: Option<Frac>,
    lists: &mut Vec<Growing<Ineq>>,
) -> Result<(), AllocError>
    requires column { column < length part.now }
    requires places { ArePositions part.now positions.now }
    requires room { b < length lists.old.items }
    ensures { IfOk result (λ _. Gains lists.old.items lists.new.items b (upper_bound part.now b column upper)) }
{
    match upper {
        Some(bound) => {
            let terms = single(alloc, column, bound.den)?;
            push_upper(alloc, part, positions, b, &terms, Some(bound.num), lists)
        },
        None => Ok(()),
    }
}

/// Adds the lower bound of a column of part `b` to the list of the part, where there is one.
pub fn push_lower_bound(
    alloc: Global,
    part: &[u32],
    positions: &[u32],
    b: u32,
    column: u32,
    lower: Option<Frac>,
    lists: &mut Vec<Growing<Ineq>>,
) -> Result<(), AllocError>
    requires column { column < length part.now }
    requires places { ArePositions part.now positions.now }
    requires room { b < length lists.old.items }
    ensures { IfOk result (λ _. Gains lists.old.items lists.new.items b (lower_bound part.now b column lower)) }
{
    match lower {
        Some(bound) => {
            let terms = single(alloc, column, bound.den)?;
            push_lower(alloc, part, positions, b, &terms, Some(bound.num), lists)
        },
        None => Ok(()),
    }
}

/// Adds the bounds of a column to the list of its part, where the column is no integer.
pub fn push_bounds(
    alloc: Global,
    part: &[u32],
    positions: &[u32],
    number: u32,
    column: &Column,
    lists: &mut Vec<Growing<Ineq>>,
) -> Result<(), AllocError>
    requires column { number < length part.now }
    requires places { ArePositions part.now positions.now }
    requires room { blocks_of part.now < length lists.old.items }
    ensures { IfOk result (λ _. AreJoined lists.old.items lists.new.items (bounds_at part.now (number, column.now))) }
{
    if column.integer {
        return Ok(());
    }
    let b = part[number as usize];
    push_upper_bound(alloc, part, positions, b, number, column.upper, lists)?;
    push_lower_bound(alloc, part, positions, b, number, column.lower, lists)
}

/// Adds the sides of all rows to the lists of their parts.
pub fn push_rows(
    alloc: Global,
    part: &[u32],
    positions: &[u32],
    homes: &[u32],
    rows: &[Row],
    lists: &mut Vec<Growing<Ineq>>,
) -> Result<(), AllocError>
    requires columns { AllByRecursion (λ row. AllBelow (length part.now) row.terms) rows.now }
    requires places { ArePositions part.now positions.now }
    requires homes { homes.now ≡ homes_of part.now rows.now }
    requires room { blocks_of part.now < length lists.old.items }
    ensures { IfOk result (λ _. AreJoined lists.old.items lists.new.items (sides_of_rows part.now rows.now)) }
{
    for (i, row) in rows.iter().enumerate() {
        push_row(alloc, part, positions, homes[i], row, lists)?;
    }
    Ok(())
}

/// Adds the bounds of all columns that are no integers to the lists of their parts.
pub fn push_columns(
    alloc: Global,
    part: &[u32],
    positions: &[u32],
    columns: &[Column],
    lists: &mut Vec<Growing<Ineq>>,
) -> Result<(), AllocError>
    requires numbers { length part.now ≡ length columns.now }
    requires few { length columns.now < list_limit }
    requires places { ArePositions part.now positions.now }
    requires room { blocks_of part.now < length lists.old.items }
    ensures { IfOk result (λ _. AreJoined lists.old.items lists.new.items (bounds_of part.now columns.now)) }
{
    for (number, column) in columns.iter().enumerate() {
        push_bounds(alloc, part, positions, number as u32, column, lists)?;
    }
    Ok(())
}

/// The inequalities of each part.
pub fn inequality_lists(
    alloc: Global,
    model: &Model,
    part: &[u32],
    positions: &[u32],
    homes: &[u32],
    blocks: u32,
) -> Result<Vec<Growing<Ineq>>, AllocError>
    requires indexes { HasItsColumns model.now }
    requires partition { IsPartition model.now part.now }
    requires places { ArePositions part.now positions.now }
    requires homes { homes.now ≡ homes_of part.now model.now.rows }
    requires blocks { blocks ≡ blocks_of part.now }
    ensures { IfOk result (λ lists. AreInequalityLists model.now part.now lists.items) }
{
    let mut lists = empty_lists(alloc, blocks as usize + 1)?;
    push_rows(
        alloc,
        part,
        positions,
        homes,
        model.rows.as_slice(),
        &mut lists,
    )?;
    push_columns(alloc, part, positions, model.columns.as_slice(), &mut lists)?;
    Ok(lists)
}
