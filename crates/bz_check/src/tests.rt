//! Certificates of two models of an integer x from 0 to 1 in the master and a y that is at least 0 in block 1:
//! examples/first.mps has the row `x + y >= 1` and the cost `x + 2 y`, and examples/one.mps the row `2 x + y >= 1` and the
//! cost `2 x + 3 y`. The inequalities of block 1 are the row's, `-a x - y <= -1`, and the bound's, `-y <= 0`. The sides of
//! the root box are `x <= 1` and `-x <= 0`.
ghost use Rattle.std.specs.Prelude.{◌≡◌, ◌+ℤ◌, ◌<ℤ◌, ◌∷◌, [], IfOk, pos, length};
ghost use Rattle.std.specs.List.{AllByRecursion};
ghost use Rattle.bz_algebra.specs.Numbers.{IsNarrow};
ghost use Rattle.bz_model.specs.Worked.{AreWorkedColumns};
ghost use Rattle.bz_cut.specs.Worked.{AreLinked};
ghost use Rattle.bz_cert.specs.Shapes.{AreCuts, AreNodes, IsShaped};

use crate::{CheckFault, check, stated_of};
use bz_cert::{Certificate, Verdict};
use bz_cut::Cut;
use bz_model::{BlockPart, Column, Master, Model, Parts, Row, Split};
use bz_num::{Frac, Items, Name, OutOfMemory, SparseRow};
use bz_tree::{Leaf, TreeNode};
use std::alloc::Global;
use std::test::Fail;

fn columns(alloc: Global) -> Result<Items<Column>, OutOfMemory>
    ensures { IfOk result (λ columns. AreWorkedColumns columns) }
{
    let x = Column {
        name: Name::from_vec(Vec::from_slice(alloc, b"x")?),
        integer: true,
        lower: Some(Frac { num: 0, den: 1 }),
        upper: Some(Frac { num: 1, den: 1 }),
    };
    let y = Column {
        name: Name::from_vec(Vec::from_slice(alloc, b"y")?),
        integer: false,
        lower: Some(Frac { num: 0, den: 1 }),
        upper: None,
    };
    let mut columns = Vec::with_capacity(alloc, 2)?;
    columns.push(x).map_err(|_| OutOfMemory)?;
    columns.push(y).map_err(|_| OutOfMemory)?;
    Ok(Items::from_vec(columns))
}

/// The row `a x + y >= 1`.
fn rows(alloc: Global, a: i128) -> Result<Items<Row>, OutOfMemory>
    requires some { pos 0 <ℤ a }
    requires few { a <ℤ pos 100 }
    ensures { IfOk result (λ rows. AreLinked a rows) }
{
    let link = Row {
        name: Name::from_vec(Vec::from_slice(alloc, b"LINK")?),
        terms: SparseRow::from_pairs(alloc, &[(0, a), (1, 1)])?,
        lower: Some(1),
        upper: None,
    };
    let mut rows = Vec::with_capacity(alloc, 1)?;
    rows.push(link).map_err(|_| OutOfMemory)?;
    Ok(Items::from_vec(rows))
}

/// Which model, and its objective.
#[derive(Clone, Copy)]
pub(crate) enum Of {
    First,
    One,
    /// examples/first.mps, its objective maximised.
    Greatest,
    /// examples/first.mps with the constant 1.
    OneMore,
    /// examples/first.mps with the scale 2.
    Halved,
}

/// How often the row has x.
fn factor(of: Of) -> i128
    ensures some { pos 0 <ℤ result }
    ensures few { result <ℤ pos 100 }
{
    match of {
        Of::One => 2,
        _ => 1,
    }
}

fn constant(of: Of) -> i128
    ensures { IsNarrow result }
{
    match of {
        Of::OneMore => 1,
        _ => 0,
    }
}

fn scale(of: Of) -> i128
    ensures { pos 0 <ℤ result }
{
    match of {
        Of::Halved => 2,
        _ => 1,
    }
}

/// The model with the row `a x + y >= 1`, where x costs `a` and y costs `a + 1`.
fn model(alloc: Global, of: Of, a: i128) -> Result<Model, OutOfMemory>
    requires some { pos 0 <ℤ a }
    requires few { a <ℤ pos 100 }
    ensures columns { IfOk result (λ model. AreWorkedColumns model.columns) }
    ensures rows { IfOk result (λ model. AreLinked a model.rows) }
    ensures cost { IfOk result (λ model. model.cost ≡ (0, a) ∷ (1, a +ℤ pos 1) ∷ []) }
{
    Ok(Model {
        columns: columns(alloc)?,
        rows: rows(alloc, a)?,
        objective: Name::from_vec(Vec::from_slice(alloc, b"COST")?),
        cost: SparseRow::from_pairs(alloc, &[(0, a), (1, a + 1)])?,
        constant: constant(of),
        scale: scale(of),
        maximise: matches!(of, Of::Greatest),
    })
}

/// The split model.
pub(crate) fn split(alloc: Global, of: Of, a: i128) -> Result<Split, OutOfMemory>
    requires some { pos 0 <ℤ a }
    requires few { a <ℤ pos 100 }
    ensures { IfOk result (λ split. length split.model.rows ≡ 1) }
{
    let model = model(alloc, of, a)?;
    let part = Items::from_vec(Vec::from_slice(alloc, &[0, 1])?);
    match Split::new(alloc, model, part) {
        Ok(split) => Ok(split),
        Err(_) => Err(OutOfMemory),
    }
}

const MOST: i128 = 170141183460469231731687303715884105727; // 2^127 - 1

const HALF: i128 = 85070591730234615865843651857942052864; // 2^126

/// Numbers of a certificate. Its point is x `x / den`, with y over `den times`. Its cut has the multipliers `mu` of the
/// block's inequalities, its leaf `upper` times the upper side of the root box and `often` times the cut. Its direction is
/// `ray`.
#[derive(Clone, Copy)]
struct Numbers {
    den: i128,
    x: i128,
    eta: i128,
    times: i128,
    y: i128,
    value: i128,
    mu: (i128, i128),
    p0: i128,
    upper: i128,
    often: i128,
    bound: i128,
    ray: (i128, i128),
}

/// examples/first.cert: the point x 1 and y 0, twice the row as the cut `-2 x - eta <= -2`, and that with `x <= 1` as the
/// leaf `-x - eta <= -1`. Its direction, which it hasn't, raises y alone.
const FIRST: Numbers = Numbers {
    den: 1,
    x: 1,
    eta: 0,
    times: 1,
    y: 0,
    value: 1,
    mu: (2, 0),
    p0: 1,
    upper: 1,
    often: 1,
    bound: 1,
    ray: (0, 1),
};

/// The number, or 0 where it is no number of a certificate.
fn narrow(number: i128) -> i128
    ensures { IsNarrow result }
{
    if number == i128::MIN { 0 } else { number }
}

/// The row of a number at one place; the empty row where it is 0 or has no size.
fn single(alloc: Global, place: u32, number: i128) -> Result<SparseRow, OutOfMemory> {
    if number == 0 || number == i128::MIN {
        return SparseRow::from_pairs(alloc, &[]);
    }
    SparseRow::from_pairs(alloc, &[(place, number)])
}

/// The row of a number at place 0 and one at a later place, without zeros.
fn pair(alloc: Global, first: i128, place: u32, second: i128) -> Result<SparseRow, OutOfMemory> {
    if place == 0 || first == 0 || first == i128::MIN {
        return single(alloc, place, second);
    }
    if second == 0 || second == i128::MIN {
        return single(alloc, 0, first);
    }
    SparseRow::from_pairs(alloc, &[(0, first), (place, second)])
}

fn cut(
    alloc: Global,
    mu: (i128, i128),
    alpha: i128,
    p0: i128,
    beta: i128,
) -> Result<Cut, OutOfMemory> {
    Ok(Cut {
        block: 1,
        mu: pair(alloc, mu.0, 1, mu.1)?,
        gcd: 1,
        alpha: single(alloc, 0, alpha)?,
        p0: narrow(p0),
        beta: narrow(beta),
    })
}

fn leaf(lambda: SparseRow, bound: i128) -> Leaf {
    Leaf {
        lambda,
        delta: 1,
        bound: narrow(bound),
    }
}

fn one_cut(alloc: Global, numbers: &Numbers) -> Result<Items<Cut>, OutOfMemory>
    ensures { IfOk result AreCuts }
{
    let mut cuts = Vec::with_capacity(alloc, 1)?;
    cuts.push(cut(alloc, numbers.mu, -2, numbers.p0, -2)?)
        .map_err(|_| OutOfMemory)?;
    Ok(Items::from_vec(cuts))
}

fn one_leaf(alloc: Global, numbers: &Numbers) -> Result<Items<TreeNode>, OutOfMemory>
    ensures { IfOk result AreNodes }
{
    let lambda = pair(alloc, numbers.upper, 2, numbers.often)?;
    let mut nodes = Vec::with_capacity(alloc, 1)?;
    nodes
        .push(TreeNode::Leaf(leaf(lambda, numbers.bound)))
        .map_err(|_| OutOfMemory)?;
    Ok(Items::from_vec(nodes))
}

fn one_number(alloc: Global, number: i128) -> Result<Items<i128>, OutOfMemory>
    ensures { IfOk result (AllByRecursion IsNarrow) }
{
    Ok(Items::from_vec(Vec::from_slice(alloc, &[narrow(number)])?))
}

fn blocks(alloc: Global, numbers: &Numbers) -> Result<Items<BlockPart>, OutOfMemory> {
    let block = BlockPart {
        times: narrow(numbers.times),
        y: one_number(alloc, numbers.y)?,
    };
    let mut blocks = Vec::with_capacity(alloc, 1)?;
    blocks.push(block).map_err(|_| OutOfMemory)?;
    Ok(Items::from_vec(blocks))
}

fn parts(alloc: Global, numbers: &Numbers, eta: Items<i128>) -> Result<Parts, OutOfMemory>
    requires { AllByRecursion IsNarrow eta }
    ensures { IfOk result (λ parts. parts.master.eta ≡ eta) }
{
    let master = Master {
        den: narrow(numbers.den),
        x: one_number(alloc, numbers.x)?,
        eta,
    };
    Ok(Parts {
        master,
        blocks: blocks(alloc, numbers)?,
    })
}

fn optimal(alloc: Global, numbers: &Numbers) -> Result<Certificate, OutOfMemory>
    ensures { IfOk result IsShaped }
{
    let eta = one_number(alloc, numbers.eta)?;
    Ok(Certificate {
        verdict: Verdict::Optimal,
        parts: Some(parts(alloc, numbers, eta)?),
        value: narrow(numbers.value),
        ray: Items::from_vec(Vec::new(alloc)),
        cuts: one_cut(alloc, numbers)?,
        tree: one_leaf(alloc, numbers)?,
    })
}

fn infeasible(alloc: Global, numbers: &Numbers) -> Result<Certificate, OutOfMemory>
    ensures { IfOk result IsShaped }
{
    Ok(Certificate {
        verdict: Verdict::Infeasible,
        parts: None,
        value: 0,
        ray: Items::from_vec(Vec::new(alloc)),
        cuts: one_cut(alloc, numbers)?,
        tree: one_leaf(alloc, numbers)?,
    })
}

fn unbounded(alloc: Global, numbers: &Numbers) -> Result<Certificate, OutOfMemory>
    ensures { IfOk result IsShaped }
{
    let ray = [narrow(numbers.ray.0), narrow(numbers.ray.1)];
    Ok(Certificate {
        verdict: Verdict::Unbounded,
        parts: Some(parts(alloc, numbers, Items::from_vec(Vec::new(alloc)))?),
        value: 0,
        ray: Items::from_vec(Vec::from_slice(alloc, &ray)?),
        cuts: Items::from_vec(Vec::new(alloc)),
        tree: Items::from_vec(Vec::new(alloc)),
    })
}

/// The two cuts of examples/one.cert: three times the bound, `-3 y <= 0`, and three times the row, `-6 x - 3 y <= -3`.
fn two_cuts(alloc: Global) -> Result<Items<Cut>, OutOfMemory>
    ensures { IfOk result AreCuts }
{
    let mut cuts = Vec::with_capacity(alloc, 2)?;
    cuts.push(cut(alloc, (0, 3), 0, 1, 0)?)
        .map_err(|_| OutOfMemory)?;
    cuts.push(cut(alloc, (3, 0), -6, 1, -3)?)
        .map_err(|_| OutOfMemory)?;
    Ok(Items::from_vec(cuts))
}

/// The tree of examples/one.cert, with another number in its split and in its first leaf.
fn two_leaves(alloc: Global, right: i128, upper: i128) -> Result<Items<TreeNode>, OutOfMemory>
    ensures { IfOk result AreNodes }
{
    let below = leaf(pair(alloc, upper, 3, 1)?, 3);
    let above = leaf(SparseRow::from_pairs(alloc, &[(1, 2), (2, 1)])?, 2);
    let mut nodes = Vec::with_capacity(alloc, 3)?;
    nodes
        .push(TreeNode::Split {
            position: 0,
            left: 0,
            right: narrow(right),
        })
        .map_err(|_| OutOfMemory)?;
    nodes.push(TreeNode::Leaf(below)).map_err(|_| OutOfMemory)?;
    nodes.push(TreeNode::Leaf(above)).map_err(|_| OutOfMemory)?;
    Ok(Items::from_vec(nodes))
}

/// examples/one.cert, with another number in its split and in its first leaf.
fn certificate_of_one(alloc: Global, right: i128, upper: i128) -> Result<Certificate, OutOfMemory>
    ensures { IfOk result IsShaped }
{
    let eta = one_number(alloc, 0)?;
    Ok(Certificate {
        verdict: Verdict::Optimal,
        parts: Some(parts(alloc, &FIRST, eta)?),
        value: 2,
        ray: Items::from_vec(Vec::new(alloc)),
        cuts: two_cuts(alloc)?,
        tree: two_leaves(alloc, right, upper)?,
    })
}

#[test]
fn a_tree_of_two_leaves_is_checked(rt: HostRuntime) -> Result<(), Fail> {
    let split = split(rt.alloc(), Of::One, 2)?;
    let table = [
        (1, 4, Ok(())),
        (1, 3, Err(CheckFault::Leaf { node: 1 })),
        (2, 4, Err(CheckFault::Cover { node: 0 })),
    ];
    for (right, upper, wanted) in table {
        let certificate = certificate_of_one(rt.alloc(), right, upper)?;
        assert_eq!(rt; check(rt.alloc(), &split, &certificate), wanted);
    }
    Ok(())
}

#[test]
fn the_first_fault_is_answered(rt: HostRuntime) -> Result<(), Fail> {
    let table = [
        (Of::First, FIRST, Ok(())),
        (
            Of::First,
            Numbers { den: 0, ..FIRST },
            Err(CheckFault::Shape),
        ),
        (
            Of::First,
            Numbers { times: 0, ..FIRST },
            Err(CheckFault::Shape),
        ),
        // x 1/2, 2 and -1
        (
            Of::First,
            Numbers { den: 2, ..FIRST },
            Err(CheckFault::Point { part: 0, at: 0 }),
        ),
        (
            Of::First,
            Numbers { x: 2, ..FIRST },
            Err(CheckFault::Point { part: 0, at: 0 }),
        ),
        (
            Of::First,
            Numbers { x: -1, ..FIRST },
            Err(CheckFault::Point { part: 0, at: 1 }),
        ),
        (
            Of::First,
            Numbers { x: 0, ..FIRST },
            Err(CheckFault::Point { part: 1, at: 0 }),
        ),
        (
            Of::One,
            Numbers { y: -1, ..FIRST },
            Err(CheckFault::Point { part: 1, at: 1 }),
        ),
        (
            Of::First,
            Numbers { y: 1, ..FIRST },
            Err(CheckFault::Cost { block: 1 }),
        ),
        (
            Of::First,
            Numbers { value: 0, ..FIRST },
            Err(CheckFault::Value),
        ),
        (
            Of::First,
            Numbers { p0: -1, ..FIRST },
            Err(CheckFault::Cut { i: 0 }),
        ),
        (
            Of::First,
            Numbers { bound: 2, ..FIRST },
            Err(CheckFault::Leaf { node: 0 }),
        ),
        // a sum of 1 and 2^127 - 1, or a product that is 2^127
        (
            Of::First,
            Numbers { eta: MOST, ..FIRST },
            Err(CheckFault::Wide { list: 1, at: 0 }),
        ),
        (
            Of::OneMore,
            Numbers {
                eta: MOST - 1,
                value: MOST,
                ..FIRST
            },
            Err(CheckFault::Wide { list: 2, at: 0 }),
        ),
        (
            Of::Halved,
            Numbers {
                den: HALF,
                x: HALF,
                value: HALF,
                ..FIRST
            },
            Err(CheckFault::Wide { list: 2, at: 1 }),
        ),
        (
            Of::First,
            Numbers {
                den: 2,
                x: 2,
                times: HALF,
                ..FIRST
            },
            Err(CheckFault::Wide { list: 4, at: 1 }),
        ),
        (
            Of::First,
            Numbers { y: MOST, ..FIRST },
            Err(CheckFault::Wide { list: 5, at: 0 }),
        ),
        (
            Of::First,
            Numbers { y: HALF, ..FIRST },
            Err(CheckFault::Wide { list: 6, at: 1 }),
        ),
        (
            Of::First,
            Numbers {
                mu: (MOST, 1),
                ..FIRST
            },
            Err(CheckFault::Wide { list: 7, at: 0 }),
        ),
        (
            Of::First,
            Numbers {
                often: MOST,
                ..FIRST
            },
            Err(CheckFault::Wide { list: 8, at: 0 }),
        ),
    ];
    for (of, numbers, wanted) in table {
        let split = split(rt.alloc(), of, factor(of))?;
        let certificate = optimal(rt.alloc(), &numbers)?;
        assert_eq!(rt; check(rt.alloc(), &split, &certificate), wanted);
    }
    Ok(())
}

#[test]
fn directions_are_checked(rt: HostRuntime) -> Result<(), Fail> {
    let table = [
        (Of::Greatest, (0, 1), Ok(())),
        (Of::First, (0, 1), Err(CheckFault::Ray)),
        (Of::Greatest, (1, 0), Err(CheckFault::Ray)),
        (Of::Greatest, (0, 0), Err(CheckFault::Ray)),
        (Of::Greatest, (0, -1), Err(CheckFault::Ray)),
        (
            Of::Greatest,
            (0, MOST),
            Err(CheckFault::Wide { list: 9, at: 1 }),
        ),
    ];
    for (of, ray, wanted) in table {
        let split = split(rt.alloc(), of, 1)?;
        let certificate = unbounded(rt.alloc(), &Numbers { ray, ..FIRST })?;
        assert_eq!(rt; check(rt.alloc(), &split, &certificate), wanted);
    }
    Ok(())
}

#[test]
fn a_leaf_with_a_bound_shows_no_infeasible_model(rt: HostRuntime) -> Result<(), Fail> {
    let split = split(rt.alloc(), Of::First, 1)?;
    let certificate = infeasible(rt.alloc(), &FIRST)?;
    assert_eq!(rt;
        check(rt.alloc(), &split, &certificate),
        Err(CheckFault::Leaf { node: 0 })
    );
    Ok(())
}

fn at_least_one(number: i128) -> i128
    ensures { pos 0 <ℤ result }
{
    if number < 1 { 1 } else { number }
}

#[test]
fn states_the_objective(rt: HostRuntime) -> Result<(), Fail> {
    let table = [
        (Of::First, 1, 1, Some((1, 1))),
        (Of::First, 6, 4, Some((3, 2))),
        (Of::First, MOST, 1, Some((MOST, 1))),
        (Of::Greatest, 3, 2, Some((-3, 2))),
        (Of::Halved, 3, 2, Some((3, 4))),
        (Of::OneMore, MOST - 1, 1, Some((MOST, 1))),
        (Of::OneMore, MOST, 1, None),
        (Of::Halved, 1, HALF, None),
    ];
    for (of, value, den, wanted) in table {
        let model = model(rt.alloc(), of, 1)?;
        let stated = stated_of(&model, value, at_least_one(den));
        assert_eq!(rt; stated.map(|stated| (stated.num, stated.den)), wanted);
    }
    Ok(())
}
