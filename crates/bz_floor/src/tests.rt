//! A floor that is a cut, and one that is a direction. The model has an integer x from 0 to 1 in the master and a free y
//! in block 1, with the row `2 x + y >= 1` and the cost `2 x + 3 y`, which is minimised or maximised. More worked answers
//! stand in bz_cases.
ghost use Rattle.std.specs.Prelude.{◌≡◌, ◌∷◌, [], IfOk, pos};
ghost use Rattle.bz_model.specs.Worked.{AreWorkedColumns};
ghost use Rattle.bz_cut.specs.Worked.{AreLinked};

use crate::floor;
use bz_event::FloorAnswer;
use bz_model::{Column, Model, Row, Split};
use bz_num::{Frac, Items, Name, OutOfMemory, SparseRow};
use std::alloc::Global;
use std::test::Fail;

fn columns(alloc: Global) -> Result<Items<Column>, OutOfMemory>
    ensures { IfOk result (λ columns. AreWorkedColumns columns) }
{
    let x = Column {
        name: Name::from_vec(Vec::from_slice(alloc, b"x")?),
        integer: true,
        lower: Some(Frac { num: 0, den: 1 }),
        upper: Some(Frac { num: 1, den: 1 }),
    };
    let y = Column {
        name: Name::from_vec(Vec::from_slice(alloc, b"y")?),
        integer: false,
        lower: None,
        upper: None,
    };
    let mut columns = Vec::with_capacity(alloc, 2)?;
    columns.push(x).map_err(|_| OutOfMemory)?;
    columns.push(y).map_err(|_| OutOfMemory)?;
    Ok(Items::from_vec(columns))
}

fn rows(alloc: Global) -> Result<Items<Row>, OutOfMemory>
    ensures { IfOk result (λ rows. AreLinked (pos 2) rows) }
{
    let row = Row {
        name: Name::from_vec(Vec::from_slice(alloc, b"LINK")?),
        terms: SparseRow::from_pairs(alloc, &[(0, 2), (1, 1)])?,
        lower: Some(1),
        upper: None,
    };
    let mut rows = Vec::with_capacity(alloc, 1)?;
    rows.push(row).map_err(|_| OutOfMemory)?;
    Ok(Items::from_vec(rows))
}

fn model(alloc: Global, maximise: bool) -> Result<Model, OutOfMemory>
    ensures columns { IfOk result (λ model. AreWorkedColumns model.columns) }
    ensures rows { IfOk result (λ model. AreLinked (pos 2) model.rows) }
    ensures cost { IfOk result (λ model. model.cost ≡ (0, pos 2) ∷ (1, pos 3) ∷ []) }
{
    Ok(Model {
        columns: columns(alloc)?,
        rows: rows(alloc)?,
        objective: Name::from_vec(Vec::from_slice(alloc, b"COST")?),
        cost: SparseRow::from_pairs(alloc, &[(0, 2), (1, 3)])?,
        constant: 0,
        scale: 1,
        maximise,
    })
}

fn split(alloc: Global, maximise: bool) -> Result<Split, OutOfMemory>
    ensures { IfOk result (λ split. split.part ≡ 0 ∷ 1 ∷ []) }
{
    let model = model(alloc, maximise)?;
    let part = Items::from_vec(Vec::from_slice(alloc, &[0, 1])?);
    match Split::new(alloc, model, part) {
        Ok(split) => Ok(split),
        Err(_) => Err(OutOfMemory),
    }
}

/// What the floor of block 1 comes to.
fn answer(alloc: Global, maximise: bool) -> Result<FloorAnswer, OutOfMemory> {
    let split = split(alloc, maximise)?;
    match floor(alloc, &split, 1) {
        Ok(solved) => Ok(solved.answer),
        Err(_) => Err(OutOfMemory),
    }
}

/// Three times the row, `-6 x - 3 y <= -3`, holds the cost of y.
#[test]
fn a_row_holds_a_free_column(rt: HostRuntime) -> Result<(), Fail> {
    match answer(rt.alloc(), false)? {
        FloorAnswer::Floor { cut, .. } => {
            assert_eq!(rt; cut.alpha.as_slice(), [(0, -6)].as_slice());
            assert_eq!(rt; (cut.p0, cut.beta, cut.gcd), (1, -3, 1));
            assert_eq!(rt; cut.mu.as_slice(), [(0, 3)].as_slice());
        },
        FloorAnswer::Ray { .. } => return Err(Fail::from("it is a ray")),
    }
    Ok(())
}

#[test]
fn a_ray_goes_where_the_cost_falls(rt: HostRuntime) -> Result<(), Fail> {
    match answer(rt.alloc(), true)? {
        FloorAnswer::Ray { d } => assert_eq!(rt; d.as_slice(), [1].as_slice()),
        FloorAnswer::Floor { .. } => return Err(Fail::from("it is a floor")),
    }
    Ok(())
}
