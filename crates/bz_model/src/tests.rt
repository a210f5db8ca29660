//! The worked model: minimise x + 2 y with x + y >= 1, x an integer from 0 to 1, y at least 0, and y in block 1.
ghost use Rattle.std.specs.Prelude.{◌≡◌, ◌∷◌, [], IfOk, pos};
ghost use Rattle.bz_model.specs.Worked.{AreWorkedColumns, AreWorkedRows};

use crate::{Column, Model, Row, Split};
use bz_num::{Frac, Items, Name, OutOfMemory, SparseRow};
use std::alloc::Global;
use std::test::Fail;

fn columns(alloc: Global) -> Result<Items<Column>, OutOfMemory>
    ensures { IfOk result (λ columns. AreWorkedColumns columns) }
{
    let x = Column {
        name: Name::from_vec(Vec::from_slice(alloc, b"x")?),
        integer: true,
        lower: Some(Frac { num: 0, den: 1 }),
        upper: Some(Frac { num: 1, den: 1 }),
    };
    let y = Column {
        name: Name::from_vec(Vec::from_slice(alloc, b"y")?),
        integer: false,
        lower: Some(Frac { num: 0, den: 1 }),
        upper: None,
    };
    let mut columns = Vec::with_capacity(alloc, 2)?;
    columns.push(x).map_err(|_| OutOfMemory)?;
    columns.push(y).map_err(|_| OutOfMemory)?;
    Ok(Items::from_vec(columns))
}

fn rows(alloc: Global) -> Result<Items<Row>, OutOfMemory>
    ensures { IfOk result (λ rows. AreWorkedRows rows) }
{
    let link = Row {
        name: Name::from_vec(Vec::from_slice(alloc, b"LINK")?),
        terms: SparseRow::from_pairs(alloc, &[(0, 1), (1, 1)])?,
        lower: Some(1),
        upper: None,
    };
    let mut rows = Vec::with_capacity(alloc, 1)?;
    rows.push(link).map_err(|_| OutOfMemory)?;
    Ok(Items::from_vec(rows))
}

fn worked(alloc: Global) -> Result<Model, OutOfMemory>
    ensures columns { IfOk result (λ model. AreWorkedColumns model.columns) }
    ensures rows { IfOk result (λ model. AreWorkedRows model.rows) }
    ensures cost { IfOk result (λ model. model.cost ≡ (0, pos 1) ∷ (1, pos 2) ∷ []) }
{
    Ok(Model {
        columns: columns(alloc)?,
        rows: rows(alloc)?,
        objective: Name::from_vec(Vec::from_slice(alloc, b"COST")?),
        cost: SparseRow::from_pairs(alloc, &[(0, 1), (1, 2)])?,
        constant: 0,
        scale: 1,
        maximise: false,
    })
}

fn split(alloc: Global) -> Result<Split, OutOfMemory> {
    let model = worked(alloc)?;
    let part = Items::from_vec(Vec::from_slice(alloc, &[0, 1])?);
    match Split::new(alloc, model, part) {
        Ok(split) => Ok(split),
        Err(_) => Err(OutOfMemory),
    }
}

#[test]
fn splits_the_worked_model(rt: HostRuntime) -> Result<(), Fail> {
    let split = split(rt.alloc())?;
    assert_eq!(rt; split.model().columns.as_slice().len(), 2);
    assert_eq!(rt; split.blocks(), 1);
    assert_eq!(rt; split.columns_of(0), [0].as_slice());
    assert_eq!(rt; split.columns_of(1), [1].as_slice());
    assert_eq!(rt; split.inequalities(0).len(), 0);
    let sides = split.inequalities(1);
    assert_eq!(rt; sides.len(), 2);
    let wanted = [(-1, -1, -1), (-1, 0, 0)];
    for (side, (own, master, rhs)) in sides.iter().zip(wanted) {
        assert_eq!(rt; side.own.as_slice(), [(0, own)].as_slice());
        assert_eq!(rt; side.master.at(0), master);
        assert_eq!(rt; side.rhs, rhs);
    }
    Ok(())
}
