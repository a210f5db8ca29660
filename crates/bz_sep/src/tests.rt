//! A separation that is a cut, and one that is a completion. The model has an integer x from 0 to 1 in the master and a
//! y at 0 in block 1, with the row `x + y >= 1`: the block's inequalities are the row's lower side and then y's upper and
//! lower bound. More worked answers stand in bz_cases.
ghost use Rattle.std.specs.Prelude.{◌≡◌, ◌∷◌, [], IfOk, pos};
ghost use Rattle.bz_algebra.specs.Numbers.{IsNarrow};
ghost use Rattle.bz_model.specs.Worked.{AreWorkedColumns};
ghost use Rattle.bz_cut.specs.Worked.{AreLinked};
ghost use Rattle.bz_std.specs.Tasks.{IsMasterOf};

use crate::separate;
use bz_cut::Mode;
use bz_event::{SepAnswer, SepTask};
use bz_model::{Column, Master, Model, Row, Split};
use bz_num::{Frac, Items, Name, OutOfMemory, SparseRow};
use std::alloc::Global;
use std::test::Fail;

fn columns(alloc: Global) -> Result<Items<Column>, OutOfMemory>
    ensures { IfOk result (λ columns. AreWorkedColumns columns) }
{
    let x = Column {
        name: Name::from_vec(Vec::from_slice(alloc, b"x")?),
        integer: true,
        lower: Some(Frac { num: 0, den: 1 }),
        upper: Some(Frac { num: 1, den: 1 }),
    };
    let y = Column {
        name: Name::from_vec(Vec::from_slice(alloc, b"y")?),
        integer: false,
        lower: Some(Frac { num: 0, den: 1 }),
        upper: Some(Frac { num: 0, den: 1 }),
    };
    let mut columns = Vec::with_capacity(alloc, 2)?;
    columns.push(x).map_err(|_| OutOfMemory)?;
    columns.push(y).map_err(|_| OutOfMemory)?;
    Ok(Items::from_vec(columns))
}

fn rows(alloc: Global) -> Result<Items<Row>, OutOfMemory>
    ensures { IfOk result (λ rows. AreLinked (pos 1) rows) }
{
    let gate = Row {
        name: Name::from_vec(Vec::from_slice(alloc, b"GATE")?),
        terms: SparseRow::from_pairs(alloc, &[(0, 1), (1, 1)])?,
        lower: Some(1),
        upper: None,
    };
    let mut rows = Vec::with_capacity(alloc, 1)?;
    rows.push(gate).map_err(|_| OutOfMemory)?;
    Ok(Items::from_vec(rows))
}

fn model(alloc: Global) -> Result<Model, OutOfMemory>
    ensures columns { IfOk result (λ model. AreWorkedColumns model.columns) }
    ensures rows { IfOk result (λ model. AreLinked (pos 1) model.rows) }
    ensures cost { IfOk result (λ model. model.cost ≡ (0, pos 2) ∷ (1, pos 3) ∷ []) }
{
    Ok(Model {
        columns: columns(alloc)?,
        rows: rows(alloc)?,
        objective: Name::from_vec(Vec::from_slice(alloc, b"COST")?),
        cost: SparseRow::from_pairs(alloc, &[(0, 2), (1, 3)])?,
        constant: 0,
        scale: 1,
        maximise: false,
    })
}

fn split(alloc: Global) -> Result<Split, OutOfMemory>
    ensures { IfOk result (λ split. split.part ≡ 0 ∷ 1 ∷ []) }
{
    let model = model(alloc)?;
    let part = Items::from_vec(Vec::from_slice(alloc, &[0, 1])?);
    match Split::new(alloc, model, part) {
        Ok(split) => Ok(split),
        Err(_) => Err(OutOfMemory),
    }
}

/// The point x of the master with the eta 100.
fn point(alloc: Global, x: i128) -> Result<Master, OutOfMemory>
    requires { IsNarrow x }
    ensures { IfOk result (λ point. IsMasterOf (0 ∷ 1 ∷ []) point) }
{
    Ok(Master {
        den: 1,
        x: Items::from_vec(Vec::from_slice(alloc, &[x])?),
        eta: Items::from_vec(Vec::from_slice(alloc, &[100])?),
    })
}

/// What the separation of block 1 at x comes to.
fn answer(alloc: Global, x: i128) -> Result<SepAnswer, OutOfMemory>
    requires { IsNarrow x }
{
    let split = split(alloc)?;
    let task = SepTask {
        post: 7,
        block: 1,
        point: point(alloc, x)?,
        mode: Mode::Cost,
    };
    match separate(alloc, &split, &task) {
        Ok(solved) => Ok(solved.answer),
        Err(_) => Err(OutOfMemory),
    }
}

#[test]
fn a_closed_gate_is_cut_off(rt: HostRuntime) -> Result<(), Fail> {
    match answer(rt.alloc(), 0)? {
        SepAnswer::Cut { cut, .. } => {
            assert_eq!(rt; cut.alpha.as_slice(), [(0, -1)].as_slice());
            assert_eq!(rt; (cut.p0, cut.beta, cut.gcd), (0, -1, 1));
            assert_eq!(rt; cut.mu.as_slice(), [(0, 1), (1, 1)].as_slice());
        },
        SepAnswer::Fill { .. } => return Err(Fail::from("it is a completion")),
    }
    Ok(())
}

#[test]
fn an_open_gate_is_completed(rt: HostRuntime) -> Result<(), Fail> {
    match answer(rt.alloc(), 1)? {
        SepAnswer::Fill { y } => {
            assert_eq!(rt; y.times, 1);
            assert_eq!(rt; y.y.as_slice(), [0].as_slice());
        },
        SepAnswer::Cut { .. } => return Err(Fail::from("it is a cut")),
    }
    Ok(())
}
