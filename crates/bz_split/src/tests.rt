//! Small models by hand: open x, serve y and z by it, with x in the master, y in block 2 and z in block 1.
ghost use Rattle.std.specs.Prelude.{◌≡◌, ◌+◌, ◌<◌, ◌≤◌, ◌^◌, IfOk, length};
ghost use Rattle.std.specs.List.{AllByRecursion};
ghost use Rattle.bz_algebra.specs.Sums.{AllBelow};
ghost use Rattle.bz_model.specs.Strict.{HasItsColumns};

use crate::{SplitFault, rows_by_part, split};
use bz_model::{Column, Model, Row};
use bz_num::{Frac, Items, Name, OutOfMemory, SparseRow};
use std::alloc::Global;
use std::test::Fail;

/// A column of at least 0 and, where it is bounded, at most 1.
fn column(alloc: Global, integer: bool, bounded: bool) -> Result<Column, OutOfMemory> {
    Ok(Column {
        name: Name::from_vec(Vec::from_slice(alloc, b"column")?),
        integer,
        lower: Some(Frac { num: 0, den: 1 }),
        upper: if bounded {
            Some(Frac { num: 1, den: 1 })
        } else {
            None
        },
    })
}

/// The columns x, y and z.
fn columns(alloc: Global, x: Column, y: Column) -> Result<Items<Column>, OutOfMemory>
    ensures { IfOk result (λ columns. length columns ≡ 3) }
{
    let z = column(alloc, false, false)?;
    let mut columns = Vec::with_capacity(alloc, 3)?;
    columns.push(x).map_err(|_| OutOfMemory)?;
    columns.push(y).map_err(|_| OutOfMemory)?;
    columns.push(z).map_err(|_| OutOfMemory)?;
    Ok(Items::from_vec(columns))
}

/// Adds a row of these terms with a lower side alone.
fn push_row(alloc: Global, rows: &mut Vec<Row>, terms: SparseRow) -> Result<(), OutOfMemory>
    requires { AllBelow 3 terms }
    ensures columns { IfOk result (λ _. AllByRecursion (λ row. AllBelow 3 row.terms) rows.old.items
        → AllByRecursion (λ row. AllBelow 3 row.terms) rows.new.items) }
    ensures count { IfOk result (λ _. length rows.new.items ≡ length rows.old.items + 1) }
{
    let row = Row {
        name: Name::from_vec(Vec::from_slice(alloc, b"row")?),
        terms,
        lower: Some(0),
        upper: None,
    };
    rows.push(row).map_err(|_| OutOfMemory)
}

/// The rows x + y, x + z and, where it joins the blocks, y + z, and then so many rows of x.
fn rows(alloc: Global, joins: bool, of_x: usize) -> Result<Items<Row>, OutOfMemory>
    ensures columns { IfOk result (AllByRecursion (λ row. AllBelow 3 row.terms)) }
    ensures count { IfOk result (λ rows. length rows ≤ 3 + of_x) }
{
    let mut rows = Vec::new(alloc);
    push_row(
        alloc,
        &mut rows,
        SparseRow::from_pairs(alloc, &[(0, 1), (1, 1)])?,
    )?;
    push_row(
        alloc,
        &mut rows,
        SparseRow::from_pairs(alloc, &[(0, 1), (2, 1)])?,
    )?;
    if joins {
        push_row(
            alloc,
            &mut rows,
            SparseRow::from_pairs(alloc, &[(1, 1), (2, 1)])?,
        )?;
    }
    for _ in 0..of_x {
        push_row(alloc, &mut rows, SparseRow::from_pairs(alloc, &[(0, 1)])?)?;
    }
    Ok(Items::from_vec(rows))
}

fn model(
    alloc: Global,
    x: Column,
    y: Column,
    joins: bool,
    of_x: usize,
) -> Result<Model, OutOfMemory>
    requires { of_x < 2 ^ 16 }
    ensures indexes { IfOk result HasItsColumns }
    ensures columns { IfOk result (λ model. length model.columns ≡ 3) }
    ensures rows { IfOk result (λ model. length model.rows ≤ 3 + of_x) }
{
    Ok(Model {
        columns: columns(alloc, x, y)?,
        rows: rows(alloc, joins, of_x)?,
        objective: Name::from_vec(Vec::from_slice(alloc, b"cost")?),
        cost: SparseRow::from_pairs(alloc, &[(0, 1), (1, 1), (2, 1)])?,
        constant: 0,
        scale: 1,
        maximise: false,
    })
}

/// Why the model of these columns and rows is not split, where it is not.
fn fault_of(
    alloc: Global,
    x: Column,
    y: Column,
    joins: bool,
    of_x: usize,
) -> Result<Option<SplitFault>, OutOfMemory>
    requires { of_x < 2 ^ 16 }
{
    let model = model(alloc, x, y, joins, of_x)?;
    let part = Items::from_vec(Vec::from_slice(alloc, &[0, 2, 1])?);
    match split(alloc, model, part) {
        Ok(_) => Ok(None),
        Err(unsplit) => match unsplit.fault {
            SplitFault::OutOfMemory => Err(OutOfMemory),
            fault => Ok(Some(fault)),
        },
    }
}

#[test]
fn splits_a_strict_partition(rt: HostRuntime) -> Result<(), Fail> {
    let alloc = rt.alloc();
    let x = column(alloc, true, true)?;
    let y = column(alloc, false, false)?;
    assert!(rt; fault_of(alloc, x, y, false, 1022)?.is_none());
    Ok(())
}

#[test]
fn names_the_first_row_that_joins_blocks(rt: HostRuntime) -> Result<(), Fail> {
    let alloc = rt.alloc();
    let x = column(alloc, true, false)?;
    let y = column(alloc, true, true)?;
    let fault = SplitFault::Joins { row: 2, a: 2, b: 1 };
    assert_eq!(rt; fault_of(alloc, x, y, true, 2000)?, Some(fault));
    Ok(())
}

#[test]
fn names_an_integer_column_in_a_block(rt: HostRuntime) -> Result<(), Fail> {
    let alloc = rt.alloc();
    let x = column(alloc, true, true)?;
    let y = column(alloc, true, true)?;
    let fault = SplitFault::IntegerInBlock { column: 1 };
    assert_eq!(rt; fault_of(alloc, x, y, false, 2000)?, Some(fault));
    Ok(())
}

#[test]
fn names_an_integer_column_that_lacks_a_bound(rt: HostRuntime) -> Result<(), Fail> {
    let alloc = rt.alloc();
    let x = column(alloc, true, false)?;
    let y = column(alloc, true, true)?;
    let fault = SplitFault::IntegerOpen { column: 0 };
    assert_eq!(rt; fault_of(alloc, x, y, false, 0)?, Some(fault));
    Ok(())
}

#[test]
fn names_a_master_column_that_lacks_a_bound(rt: HostRuntime) -> Result<(), Fail> {
    let alloc = rt.alloc();
    let x = column(alloc, false, false)?;
    let y = column(alloc, false, false)?;
    let fault = SplitFault::OpenMaster { column: 0 };
    assert_eq!(rt; fault_of(alloc, x, y, false, 0)?, Some(fault));
    Ok(())
}

#[test]
fn counts_the_box_of_an_integer_column(rt: HostRuntime) -> Result<(), Fail> {
    let alloc = rt.alloc();
    let x = column(alloc, true, true)?;
    let y = column(alloc, false, false)?;
    let fault = SplitFault::TooLarge {
        part: 0,
        count: 1025,
    };
    assert_eq!(rt; fault_of(alloc, x, y, false, 1023)?, Some(fault));
    Ok(())
}

/// How many rows the master, block 1 and block 2 have in the split of the model with so many rows of x, where there are
/// three numbers.
fn counts_of(alloc: Global, of_x: usize) -> Result<Option<[u32; 3]>, OutOfMemory>
    requires { of_x < 2 ^ 16 }
{
    let x = column(alloc, true, true)?;
    let y = column(alloc, false, false)?;
    let model = model(alloc, x, y, false, of_x)?;
    let part = Items::from_vec(Vec::from_slice(alloc, &[0, 2, 1])?);
    let Ok(split) = split(alloc, model, part) else {
        return Ok(None);
    };
    let counts = rows_by_part(alloc, &split)?;
    match counts.as_slice() {
        [master, first, second] => Ok(Some([*master, *first, *second])),
        _ => Ok(None),
    }
}

#[test]
fn counts_rows_by_part(rt: HostRuntime) -> Result<(), Fail> {
    let alloc = rt.alloc();
    assert_eq!(rt; counts_of(alloc, 0)?, Some([0, 1, 1]));
    assert_eq!(rt; counts_of(alloc, 3)?, Some([3, 1, 1]));
    Ok(())
}
