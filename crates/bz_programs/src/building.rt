//! The programs of examples/one.mps: an integer x from 0 to 1 in the master and a y that is at least 0 in block 1, with
//! the row `2 x + y >= 1` and the cost `2 x + 3 y`. The inequalities of block 1 are the row's, `-2 x - y <= -1`, and the
//! bound's, `-y <= 0`. A variable v has two columns: it is the first less the second.
ghost use Rattle.std.specs.Prelude.{◌≡◌, ◌+ℤ◌, ◌<ℤ◌, ◌∷◌, [], IfOk, length, pos};
ghost use Rattle.std.specs.List.{AllByRecursion};
ghost use Rattle.bz_algebra.specs.Numbers.{IsNarrow};
ghost use Rattle.bz_model.specs.Worked.{AreWorkedColumns};
ghost use Rattle.bz_cut.specs.Worked.{AreLinked};
ghost use Rattle.bz_std.specs.Tasks.{IsCutOfSplit, IsMasterOf};

use bz_cut::{Cut, Mode};
use bz_model::{Column, Master, Model, Row, Split};
use bz_num::{Frac, Items, Name, OutOfMemory, SparseRow};
use bz_std::{
    BuildStop, floor_lp, is_floor_lp, is_node_lp, is_separation_lp, node_lp, separation_lp,
};
use bz_tableau::{Lp, WideAt};
use bz_tree::root_box;
use std::alloc::Global;
use std::test::Fail;

fn columns(alloc: Global) -> Result<Items<Column>, OutOfMemory>
    ensures { IfOk result (λ columns. AreWorkedColumns columns) }
{
    let x = Column {
        name: Name::from_vec(Vec::from_slice(alloc, b"x")?),
        integer: true,
        lower: Some(Frac { num: 0, den: 1 }),
        upper: Some(Frac { num: 1, den: 1 }),
    };
    let y = Column {
        name: Name::from_vec(Vec::from_slice(alloc, b"y")?),
        integer: false,
        lower: Some(Frac { num: 0, den: 1 }),
        upper: None,
    };
    let mut columns = Vec::with_capacity(alloc, 2)?;
    columns.push(x).map_err(|_| OutOfMemory)?;
    columns.push(y).map_err(|_| OutOfMemory)?;
    Ok(Items::from_vec(columns))
}

fn rows(alloc: Global) -> Result<Items<Row>, OutOfMemory>
    ensures { IfOk result (λ rows. AreLinked (pos 2) rows) }
{
    let link = Row {
        name: Name::from_vec(Vec::from_slice(alloc, b"LINK")?),
        terms: SparseRow::from_pairs(alloc, &[(0, 2), (1, 1)])?,
        lower: Some(1),
        upper: None,
    };
    let mut rows = Vec::with_capacity(alloc, 1)?;
    rows.push(link).map_err(|_| OutOfMemory)?;
    Ok(Items::from_vec(rows))
}

fn model(alloc: Global) -> Result<Model, OutOfMemory>
    ensures columns { IfOk result (λ model. AreWorkedColumns model.columns) }
    ensures rows { IfOk result (λ model. AreLinked (pos 2) model.rows) }
    ensures cost { IfOk result (λ model. model.cost ≡ (0, pos 2) ∷ (1, pos 3) ∷ []) }
{
    Ok(Model {
        columns: columns(alloc)?,
        rows: rows(alloc)?,
        objective: Name::from_vec(Vec::from_slice(alloc, b"COST")?),
        cost: SparseRow::from_pairs(alloc, &[(0, 2), (1, 3)])?,
        constant: 0,
        scale: 1,
        maximise: false,
    })
}

fn split(alloc: Global) -> Result<Split, OutOfMemory>
    ensures { IfOk result (λ split. split.part ≡ 0 ∷ 1 ∷ []) }
{
    let model = model(alloc)?;
    let part = Items::from_vec(Vec::from_slice(alloc, &[0, 1])?);
    match Split::new(alloc, model, part) {
        Ok(split) => Ok(split),
        Err(_) => Err(OutOfMemory),
    }
}

/// The point `x / 2` of the master with the eta `5 / 2`.
fn point(alloc: Global, x: i128) -> Result<Master, OutOfMemory>
    requires { IsNarrow x }
    ensures shape { IfOk result (λ point. IsMasterOf (0 ∷ 1 ∷ []) point) }
{
    Ok(Master {
        den: 2,
        x: Items::from_vec(Vec::from_slice(alloc, &[x])?),
        eta: Items::from_vec(Vec::from_slice(alloc, &[5])?),
    })
}

/// The cut `-eta <= 0`.
fn floor_cut(alloc: Global) -> Result<Cut, OutOfMemory>
    ensures { IfOk result (IsCutOfSplit (0 ∷ 1 ∷ [])) }
{
    Ok(Cut {
        block: 1,
        mu: SparseRow::from_pairs(alloc, &[(1, 3)])?,
        gcd: 1,
        alpha: SparseRow::from_vec(Vec::new(alloc)),
        p0: 1,
        beta: 0,
    })
}

/// The cut `-6 x - eta <= beta`.
fn cut(alloc: Global, beta: i128) -> Result<Cut, OutOfMemory>
    requires { IsNarrow beta }
    ensures { IfOk result (IsCutOfSplit (0 ∷ 1 ∷ [])) }
{
    Ok(Cut {
        block: 1,
        mu: SparseRow::from_pairs(alloc, &[(0, 3)])?,
        gcd: 1,
        alpha: SparseRow::from_pairs(alloc, &[(0, -6)])?,
        p0: 1,
        beta,
    })
}

/// Both cuts.
fn cuts(alloc: Global, beta: i128) -> Result<Items<Cut>, OutOfMemory>
    requires { IsNarrow beta }
    ensures fit { IfOk result (λ cuts. AllByRecursion (IsCutOfSplit (0 ∷ 1 ∷ [])) cuts) }
    ensures count { IfOk result (λ cuts. length cuts ≡ 2) }
{
    let mut cuts = Vec::with_capacity(alloc, 2)?;
    cuts.push(floor_cut(alloc)?).map_err(|_| OutOfMemory)?;
    cuts.push(cut(alloc, beta)?).map_err(|_| OutOfMemory)?;
    Ok(Items::from_vec(cuts))
}

/// The terms and the right side of a row of the program, none past its last.
fn row_of(lp: &Lp, number: usize) -> Option<(&[(u32, i128)], i128)> {
    let row = lp.rows.as_slice().get(number)?;
    Some((row.terms.as_slice(), row.rhs))
}

/// The program, where there is one.
fn built(lp: Result<Lp, BuildStop>) -> Result<Lp, OutOfMemory> {
    lp.map_err(|_| OutOfMemory)
}

/// Whether a right side is wide, and that of the row.
fn is_wide_at(lp: &Result<Lp, BuildStop>, number: u32) -> bool {
    match lp {
        Err(BuildStop::Wide(WideAt::Build { row })) => *row == number,
        _ => false,
    }
}

const MOST: i128 = 170141183460469231731687303715884105727; // 2^127 - 1

#[test]
fn a_floor_has_right_sides_0_and_the_cost(rt: HostRuntime) -> Result<(), Fail> {
    let split = split(rt.alloc())?;
    let lp = floor_lp(rt.alloc(), &split, 1)?;
    assert_eq!(rt; lp.columns, 2);
    assert_eq!(rt; row_of(&lp, 0), Some(([(0, -1), (1, 1)].as_slice(), 0)));
    assert_eq!(rt; row_of(&lp, 1), Some(([(0, -1), (1, 1)].as_slice(), 0)));
    assert_eq!(rt; row_of(&lp, 2), None);
    assert_eq!(rt; lp.cost.as_slice(), [(0, 3), (1, -3)].as_slice());
    Ok(())
}

/// At x = 3/2 the row leaves `-y <= 2`, which is 4 over the denominator 2.
#[test]
fn a_separation_is_over_the_point(rt: HostRuntime) -> Result<(), Fail> {
    let split = split(rt.alloc())?;
    let point = point(rt.alloc(), 3)?;
    for mode in [Mode::Cost, Mode::Point] {
        let lp = built(separation_lp(rt.alloc(), &split, 1, &point, mode))?;
        assert_eq!(rt; lp.columns, 2);
        assert_eq!(rt; row_of(&lp, 0), Some(([(0, -1), (1, 1)].as_slice(), 4)));
        assert_eq!(rt; row_of(&lp, 1), Some(([(0, -1), (1, 1)].as_slice(), 0)));
        let cost = match mode {
            Mode::Cost => Some(([(0, 3), (1, -3)].as_slice(), 5)),
            Mode::Point => None,
        };
        assert_eq!(rt; row_of(&lp, 2), cost);
        assert_eq!(rt; lp.cost.as_slice(), [].as_slice());
    }
    Ok(())
}

/// `-2 x` is wide at the greatest x, in the first row.
#[test]
fn a_wide_right_side_is_named(rt: HostRuntime) -> Result<(), Fail> {
    let split = split(rt.alloc())?;
    let point = point(rt.alloc(), MOST)?;
    let stopped = separation_lp(rt.alloc(), &split, 1, &point, Mode::Cost);
    assert!(rt; is_wide_at(&stopped, 0));
    Ok(())
}

/// The node's variables are x and the eta of block 1: columns 0 and 1, and 2 and 3.
#[test]
fn a_node_has_the_box_and_the_cuts(rt: HostRuntime) -> Result<(), Fail> {
    let split = split(rt.alloc())?;
    let region = root_box(rt.alloc(), &split)?;
    let cuts = cuts(rt.alloc(), -3)?;
    for mode in [Mode::Cost, Mode::Point] {
        let lp = node_lp(rt.alloc(), &split, &region, cuts.as_slice(), mode)?;
        assert_eq!(rt; lp.columns, 4);
        assert_eq!(rt; row_of(&lp, 0), Some(([(0, 1), (1, -1)].as_slice(), 1)));
        assert_eq!(rt; row_of(&lp, 1), Some(([(0, -1), (1, 1)].as_slice(), 0)));
        assert_eq!(rt; row_of(&lp, 2), Some(([(2, -1), (3, 1)].as_slice(), 0)));
        let last = [(0, -6), (1, 6), (2, -1), (3, 1)];
        assert_eq!(rt; row_of(&lp, 3), Some((last.as_slice(), -3)));
        assert_eq!(rt; row_of(&lp, 4), None);
        let cost = match mode {
            Mode::Cost => [(0, 2), (1, -2), (2, 1), (3, -1)].as_slice(),
            Mode::Point => [].as_slice(),
        };
        assert_eq!(rt; lp.cost.as_slice(), cost);
    }
    Ok(())
}

/// With another right side of a cut, or in another mode, it is another node.
#[test]
fn a_node_is_told_by_its_program(rt: HostRuntime) -> Result<(), Fail> {
    let split = split(rt.alloc())?;
    let region = root_box(rt.alloc(), &split)?;
    let built = cuts(rt.alloc(), -3)?;
    let other = cuts(rt.alloc(), -2)?;
    let lp = node_lp(rt.alloc(), &split, &region, built.as_slice(), Mode::Cost)?;
    assert!(rt; is_node_lp(&split, &region, built.as_slice(), Mode::Cost, &lp));
    assert!(rt; !is_node_lp(&split, &region, other.as_slice(), Mode::Cost, &lp));
    assert!(rt; !is_node_lp(&split, &region, built.as_slice(), Mode::Point, &lp));
    Ok(())
}

/// At another x, or in another mode, it is another separation.
#[test]
fn a_separation_is_told_by_its_program(rt: HostRuntime) -> Result<(), Fail> {
    let split = split(rt.alloc())?;
    let at = point(rt.alloc(), 3)?;
    let other = point(rt.alloc(), 1)?;
    let lp = built(separation_lp(rt.alloc(), &split, 1, &at, Mode::Cost))?;
    assert!(rt; is_separation_lp(&split, 1, &at, Mode::Cost, &lp));
    assert!(rt; !is_separation_lp(&split, 1, &other, Mode::Cost, &lp));
    assert!(rt; !is_separation_lp(&split, 1, &at, Mode::Point, &lp));
    Ok(())
}

/// With another cost it is no floor.
#[test]
fn a_floor_is_told_by_its_program(rt: HostRuntime) -> Result<(), Fail> {
    let split = split(rt.alloc())?;
    let lp = floor_lp(rt.alloc(), &split, 1)?;
    assert!(rt; is_floor_lp(&split, 1, &lp));
    let costly = Lp {
        columns: lp.columns,
        rows: lp.rows,
        cost: SparseRow::from_pairs(rt.alloc(), &[(0, 3), (1, -2)])?,
    };
    assert!(rt; !is_floor_lp(&split, 1, &costly));
    Ok(())
}
