//! Nodes of examples/one.mps: an integer x in the master and a y that is at least 0 in block 1, with the row
//! `2 x + y >= 1` and the cost `2 x + 3 y`, over the floor `-eta <= 0` and a second cut. Rows of the program, by which
//! a leaf's multipliers are numbered: the upper end of x, its lower end, the floor, the second cut. More
//! worked answers stand in bz_cases.
ghost use Rattle.std.specs.Prelude.{◌≡◌, ◌≢◌, ◌+ℤ◌, ◌<ℤ◌, ◌∷◌, [], IfOk, length, pos};
ghost use Rattle.bz_algebra.specs.Numbers.{IsNarrow};
ghost use Rattle.bz_model.specs.Worked.{AreWorkedColumns};
ghost use Rattle.bz_cut.specs.Worked.{AreLinked};
ghost use Rattle.bz_cut.specs.declared.Mode.TheVariants as mode;
ghost use Rattle.bz_node.specs.Worked.{AreTestCuts, IsSecondCut, IsTestTask};

use crate::solve_node;
use bz_cut::{Cut, Mode};
use bz_event::{NodeAnswer, NodeTask};
use bz_model::{Column, Model, Row, Split};
use bz_num::{Frac, Items, Name, OutOfMemory, SparseRow};
use bz_tree::{Leaf, NodeBox};
use std::alloc::Global;
use std::test::Fail;

fn columns(alloc: Global) -> Result<Items<Column>, OutOfMemory>
    ensures { IfOk result (λ columns. AreWorkedColumns columns) }
{
    let x = Column {
        name: Name::from_vec(Vec::from_slice(alloc, b"x")?),
        integer: true,
        lower: Some(Frac { num: 0, den: 1 }),
        upper: Some(Frac { num: 1, den: 1 }),
    };
    let y = Column {
        name: Name::from_vec(Vec::from_slice(alloc, b"y")?),
        integer: false,
        lower: Some(Frac { num: 0, den: 1 }),
        upper: None,
    };
    let mut columns = Vec::with_capacity(alloc, 2)?;
    columns.push(x).map_err(|_| OutOfMemory)?;
    columns.push(y).map_err(|_| OutOfMemory)?;
    Ok(Items::from_vec(columns))
}

fn rows(alloc: Global) -> Result<Items<Row>, OutOfMemory>
    ensures { IfOk result (λ rows. AreLinked (pos 2) rows) }
{
    let link = Row {
        name: Name::from_vec(Vec::from_slice(alloc, b"LINK")?),
        terms: SparseRow::from_pairs(alloc, &[(0, 2), (1, 1)])?,
        lower: Some(1),
        upper: None,
    };
    let mut rows = Vec::with_capacity(alloc, 1)?;
    rows.push(link).map_err(|_| OutOfMemory)?;
    Ok(Items::from_vec(rows))
}

fn model(alloc: Global) -> Result<Model, OutOfMemory>
    ensures columns { IfOk result (λ model. AreWorkedColumns model.columns) }
    ensures rows { IfOk result (λ model. AreLinked (pos 2) model.rows) }
    ensures cost { IfOk result (λ model. model.cost ≡ (0, pos 2) ∷ (1, pos 3) ∷ []) }
{
    Ok(Model {
        columns: columns(alloc)?,
        rows: rows(alloc)?,
        objective: Name::from_vec(Vec::from_slice(alloc, b"COST")?),
        cost: SparseRow::from_pairs(alloc, &[(0, 2), (1, 3)])?,
        constant: 0,
        scale: 1,
        maximise: false,
    })
}

fn split(alloc: Global) -> Result<Split, OutOfMemory>
    ensures part { IfOk result (λ split. split.part ≡ 0 ∷ 1 ∷ []) }
    ensures columns { IfOk result (λ split. AreWorkedColumns split.model.columns) }
{
    let model = model(alloc)?;
    let part = Items::from_vec(Vec::from_slice(alloc, &[0, 1])?);
    match Split::new(alloc, model, part) {
        Ok(split) => Ok(split),
        Err(_) => Err(OutOfMemory),
    }
}

/// The floor `-eta <= 0`.
fn floor(alloc: Global) -> Cut
    ensures block { result.block ≡ 1 }
    ensures eta { result.p0 ≡ pos 1 }
    ensures alpha { result.alpha ≡ [] }
{
    Cut {
        block: 1,
        mu: SparseRow::from_vec(Vec::new(alloc)),
        gcd: 1,
        alpha: SparseRow::from_vec(Vec::new(alloc)),
        p0: 1,
        beta: 0,
    }
}

/// The cut `a x - p0 eta <= beta`, by these three numbers.
fn cut(alloc: Global, numbers: (i128, i128, i128)) -> Result<Cut, OutOfMemory>
    requires some { numbers.0 ≢ pos 0 }
    requires alpha { IsNarrow numbers.0 }
    requires p0 { IsNarrow numbers.1 }
    requires beta { IsNarrow numbers.2 }
    ensures { IfOk result IsSecondCut }
{
    let (a, p0, beta) = numbers;
    Ok(Cut {
        block: 1,
        mu: SparseRow::from_vec(Vec::new(alloc)),
        gcd: 1,
        alpha: SparseRow::from_pairs(alloc, &[(0, a)])?,
        p0,
        beta,
    })
}

/// The floor and a second cut.
fn cuts(alloc: Global, second: Cut) -> Result<Items<Cut>, OutOfMemory>
    requires { IsSecondCut second }
    ensures { IfOk result AreTestCuts }
{
    let mut cuts = Vec::with_capacity(alloc, 2)?;
    cuts.push(floor(alloc)).map_err(|_| OutOfMemory)?;
    cuts.push(second).map_err(|_| OutOfMemory)?;
    Ok(Items::from_vec(cuts))
}

/// The box in which x lies between the ends.
fn ends(alloc: Global, lower: i128, upper: i128) -> Result<NodeBox, OutOfMemory>
    requires lower { IsNarrow lower }
    requires upper { IsNarrow upper }
    ensures lower { IfOk result (λ region. length region.lower ≡ 1) }
    ensures upper { IfOk result (λ region. length region.upper ≡ 1) }
{
    Ok(NodeBox {
        lower: Items::from_vec(Vec::from_slice(alloc, &[lower])?),
        upper: Items::from_vec(Vec::from_slice(alloc, &[upper])?),
    })
}

/// The node of a box over the cuts.
fn task(region: NodeBox, cuts: Items<Cut>, mode: Mode) -> NodeTask
    requires lower { length region.lower ≡ 1 }
    requires upper { length region.upper ≡ 1 }
    requires cuts { AreTestCuts cuts }
    ensures { IsTestTask result }
{
    NodeTask {
        node: 0,
        front: 2,
        region,
        cuts,
        mode,
    }
}

/// What the node of the box with these ends of x comes to, over the floor and the cut of three numbers.
fn answer(
    alloc: Global,
    lower: i128,
    upper: i128,
    numbers: (i128, i128, i128),
    mode: Mode,
) -> Result<NodeAnswer, OutOfMemory>
    requires lower { IsNarrow lower }
    requires upper { IsNarrow upper }
    requires some { numbers.0 ≢ pos 0 }
    requires alpha { IsNarrow numbers.0 }
    requires p0 { IsNarrow numbers.1 }
    requires beta { IsNarrow numbers.2 }
{
    let split = split(alloc)?;
    let region = ends(alloc, lower, upper)?;
    let cuts = cuts(alloc, cut(alloc, numbers)?)?;
    let task = task(region, cuts, mode);
    match solve_node(alloc, &split, &task) {
        Ok(solved) => Ok(solved.answer),
        Err(_) => Err(OutOfMemory),
    }
}

/// The position and the number of a split.
fn split_at(answer: &NodeAnswer) -> Option<(u32, i128)> {
    match answer {
        NodeAnswer::Split {
            position,
            value,
            ..
        } => Some((*position, *value)),
        _ => None,
    }
}

/// The denominator, the numbers and the etas of a point.
fn point(answer: &NodeAnswer) -> Option<(i128, &[i128], &[i128])> {
    match answer {
        NodeAnswer::Point { point, .. } => {
            Some((point.den, point.x.as_slice(), point.eta.as_slice()))
        },
        _ => None,
    }
}

/// The multipliers, the delta and the bound of a leaf.
fn numbers_of(leaf: &Leaf) -> (&[(u32, i128)], i128, i128) {
    (leaf.lambda.as_slice(), leaf.delta, leaf.bound)
}

/// Those of the answer's leaf, where it has one.
fn leaf(answer: &NodeAnswer) -> Option<(&[(u32, i128)], i128, i128)> {
    match answer {
        NodeAnswer::Split { leaf, .. } | NodeAnswer::Point { leaf, .. } => {
            leaf.as_ref().map(numbers_of)
        },
        NodeAnswer::Empty { leaf } => Some(numbers_of(leaf)),
    }
}

/// Over `-6 x - eta <= -3` the least of `2 x + eta` is 1, at x = 1/2: the floor twice and the cut once bound three times
/// as much.
#[test]
fn a_root_is_split_at_the_fractional_column(rt: HostRuntime) -> Result<(), Fail> {
    let answer = answer(rt.alloc(), 0, 1, (-6, 1, -3), Mode::Cost)?;
    assert_eq!(rt; split_at(&answer), Some((0, 0)));
    assert_eq!(rt; leaf(&answer), Some(([(2, 2), (3, 1)].as_slice(), 3, 3)));
    Ok(())
}

/// Over the same cut x = 0 costs 3 with the eta 3, and x = 1 costs 2.
#[test]
fn a_whole_point_comes_with_the_leaf_of_its_cost(rt: HostRuntime) -> Result<(), Fail> {
    let table = [(0, 3, [(0, 4), (3, 1)], 3), (1, 0, [(1, 2), (2, 1)], 2)];
    for (x, eta, multipliers, cost) in table {
        let answer = answer(rt.alloc(), x, x, (-6, 1, -3), Mode::Cost)?;
        assert_eq!(rt; point(&answer), Some((1, [x].as_slice(), [eta].as_slice())));
        assert_eq!(rt; leaf(&answer), Some((multipliers.as_slice(), 1, cost)));
    }
    Ok(())
}
