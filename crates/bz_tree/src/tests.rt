//! The boxes of two models of two columns: one with fractional bounds, and examples/one.mps, whose certificate has a
//! tree of two leaves.
ghost use Rattle.std.specs.Prelude.{◌≡◌, ◌∷◌, [], IfOk, pos};
ghost use Rattle.bz_model.specs.Worked.{AreWorkedColumns, AreWorkedRows};

use crate::{NodeBox, root_box, split_box};
use bz_model::{Column, Model, Row, Split};
use bz_num::{Frac, Items, Name, OutOfMemory, SparseRow};
use std::alloc::Global;
use std::test::Fail;

fn columns(alloc: Global, lower: Frac, upper: Frac) -> Result<Items<Column>, OutOfMemory>
    ensures { IfOk result (λ columns. AreWorkedColumns columns) }
{
    let x = Column {
        name: Name::from_vec(Vec::from_slice(alloc, b"x")?),
        integer: true,
        lower: Some(lower),
        upper: Some(upper),
    };
    let y = Column {
        name: Name::from_vec(Vec::from_slice(alloc, b"y")?),
        integer: false,
        lower: Some(Frac { num: 0, den: 1 }),
        upper: None,
    };
    let mut columns = Vec::with_capacity(alloc, 2)?;
    columns.push(x).map_err(|_| OutOfMemory)?;
    columns.push(y).map_err(|_| OutOfMemory)?;
    Ok(Items::from_vec(columns))
}

fn rows(alloc: Global) -> Result<Items<Row>, OutOfMemory>
    ensures { IfOk result (λ rows. AreWorkedRows rows) }
{
    let link = Row {
        name: Name::from_vec(Vec::from_slice(alloc, b"LINK")?),
        terms: SparseRow::from_pairs(alloc, &[(0, 1), (1, 1)])?,
        lower: Some(1),
        upper: None,
    };
    let mut rows = Vec::with_capacity(alloc, 1)?;
    rows.push(link).map_err(|_| OutOfMemory)?;
    Ok(Items::from_vec(rows))
}

fn model(alloc: Global, lower: Frac, upper: Frac) -> Result<Model, OutOfMemory>
    ensures columns { IfOk result (λ model. AreWorkedColumns model.columns) }
    ensures rows { IfOk result (λ model. AreWorkedRows model.rows) }
    ensures cost { IfOk result (λ model. model.cost ≡ (0, pos 1) ∷ (1, pos 2) ∷ []) }
{
    Ok(Model {
        columns: columns(alloc, lower, upper)?,
        rows: rows(alloc)?,
        objective: Name::from_vec(Vec::from_slice(alloc, b"COST")?),
        cost: SparseRow::from_pairs(alloc, &[(0, 1), (1, 2)])?,
        constant: 0,
        scale: 1,
        maximise: false,
    })
}

/// The split of a model whose integer column has these bounds.
fn split(alloc: Global, lower: Frac, upper: Frac) -> Result<Split, OutOfMemory> {
    let model = model(alloc, lower, upper)?;
    let part = Items::from_vec(Vec::from_slice(alloc, &[0, 1])?);
    match Split::new(alloc, model, part) {
        Ok(split) => Ok(split),
        Err(_) => Err(OutOfMemory),
    }
}

/// Whether the box has these ends of its one integer column.
fn has_ends(b: &NodeBox, lower: i128, upper: i128) -> bool {
    b.lower.as_slice() == [lower].as_slice() && b.upper.as_slice() == [upper].as_slice()
}

/// The two sides of a box of one integer column, where the value is between its ends.
fn sides(
    alloc: Global,
    b: &NodeBox,
    value: i128,
) -> Result<Option<(NodeBox, NodeBox)>, OutOfMemory> {
    match (b.lower.as_slice().first(), b.upper.as_slice().first()) {
        (Some(lower), Some(upper)) if *lower <= value && value < *upper => Ok(Some(split_box(
            alloc, b, 0, value,
        )?)),
        _ => Ok(None),
    }
}

#[test]
fn fractional_bounds_are_rounded_inward(rt: HostRuntime) -> Result<(), Fail> {
    let split = split(
        rt.alloc(),
        Frac { num: -7, den: 2 },
        Frac { num: 7, den: 3 },
    )?;
    let root = root_box(rt.alloc(), &split)?;
    assert!(rt; has_ends(&root, -3, 2));
    match sides(rt.alloc(), &root, -1)? {
        Some((left, right)) => {
            assert!(rt; has_ends(&left, -3, -1));
            assert!(rt; has_ends(&right, 0, 2));
        }
        None => assert!(rt; false),
    }
    Ok(())
}

#[test]
fn whole_bounds_stand(rt: HostRuntime) -> Result<(), Fail> {
    let split = split(
        rt.alloc(),
        Frac { num: -6, den: 2 },
        Frac { num: 9, den: 3 },
    )?;
    let root = root_box(rt.alloc(), &split)?;
    assert!(rt; has_ends(&root, -3, 3));
    Ok(())
}

#[test]
fn ends_may_cross(rt: HostRuntime) -> Result<(), Fail> {
    let split = split(rt.alloc(), Frac { num: 1, den: 3 }, Frac { num: 2, den: 3 })?;
    let root = root_box(rt.alloc(), &split)?;
    assert!(rt; has_ends(&root, 1, 0));
    Ok(())
}

/// In examples/one.mps x is an integer from 0 to 1, and examples/one.cert splits it at 0 and 1.
#[test]
fn the_tree_of_the_second_example_has_its_boxes(rt: HostRuntime) -> Result<(), Fail> {
    let split = split(rt.alloc(), Frac { num: 0, den: 1 }, Frac { num: 1, den: 1 })?;
    let root = root_box(rt.alloc(), &split)?;
    assert!(rt; has_ends(&root, 0, 1));
    match sides(rt.alloc(), &root, 0)? {
        Some((left, right)) => {
            assert!(rt; has_ends(&left, 0, 0));
            assert!(rt; has_ends(&right, 1, 1));
        }
        None => assert!(rt; false),
    }
    Ok(())
}
