//! The trees of examples/one.cert and of wrong and of deep variants of it. The model is: minimise 2 x + 3 y with
//! 2 x + y >= 1, x an integer from 0 to 1 in the master, y at least 0 in block 1. The sides of a leaf are `x <= upper`,
//! `-x <= -lower`, and the cuts `-eta <= 0` and `-6 x - eta <= -3`.
ghost use Rattle.std.specs.Prelude.{IfOk};
ghost use Rattle.std.specs.List.{AllByRecursion};
ghost use Rattle.bz_algebra.specs.Numbers.{IsNarrow};
ghost use Rattle.bz_num.specs.Row.{IsSparse};
ghost use Rattle.bz_cert.specs.Shapes.{IsNarrowNode};
ghost use Rattle.bz_check.specs.TreeGoals.{HasPositiveDen};

use crate::tests::{Of, split};
use crate::tree_goals::Goal;
use crate::tree_walk::judge_tree;
use bz_cut::Cut;
use bz_judge::CheckFault;
use bz_model::Split;
use bz_num::{OutOfMemory, SparseRow};
use bz_tree::{Leaf, TreeNode, integer_positions, root_box};
use std::alloc::Global;
use std::test::Fail;

/// The cut `alpha x - eta <= beta` of block 1, from three times one of its inequalities.
fn cut_of(
    alloc: Global,
    alpha: &[(u32, i128)],
    beta: i128,
    inequality: u32,
) -> Result<Cut, OutOfMemory>
    requires alpha { IsSparse alpha.now }
    requires beta { IsNarrow beta }
{
    Ok(Cut {
        block: 1,
        mu: SparseRow::from_pairs(alloc, &[(inequality, 3)])?,
        gcd: 1,
        alpha: SparseRow::from_pairs(alloc, alpha)?,
        p0: 1,
        beta,
    })
}

fn cuts(alloc: Global) -> Result<Vec<Cut>, OutOfMemory> {
    let mut cuts = Vec::with_capacity(alloc, 2)?;
    cuts.push(cut_of(alloc, &[], 0, 1)?)
        .map_err(|_| OutOfMemory)?;
    cuts.push(cut_of(alloc, &[(0, -6)], -3, 0)?)
        .map_err(|_| OutOfMemory)?;
    Ok(cuts)
}

/// A split of the integer column at a position.
fn fork_at(position: u32, left: i64, right: i64) -> TreeNode
    ensures { IsNarrowNode result }
{
    TreeNode::Split {
        position,
        left: i128::from(left),
        right: i128::from(right),
    }
}

fn leaf_of(
    alloc: Global,
    lambda: &[(u32, i128)],
    delta: i128,
    bound: i128,
) -> Result<TreeNode, OutOfMemory>
    requires lambda { IsSparse lambda.now }
    requires delta { IsNarrow delta }
    requires bound { IsNarrow bound }
    ensures { IfOk result (λ node. IsNarrowNode node) }
{
    Ok(TreeNode::Leaf(Leaf {
        lambda: SparseRow::from_pairs(alloc, lambda)?,
        delta,
        bound,
    }))
}

/// A leaf of a box whose ends cross by 1.
fn empty_leaf(alloc: Global) -> Result<TreeNode, OutOfMemory>
    ensures { IfOk result (λ node. IsNarrowNode node) }
{
    leaf_of(alloc, &[(0, 1), (1, 1)], 0, 1)
}

/// Adds a node.
fn add(nodes: &mut Vec<TreeNode>, node: TreeNode) -> Result<(), OutOfMemory>
    requires nodes { AllByRecursion IsNarrowNode nodes.old.items }
    requires node { IsNarrowNode node }
    ensures { IfOk result (λ _. AllByRecursion IsNarrowNode nodes.new.items) }
{
    nodes.push(node).map_err(|_| OutOfMemory)
}

/// The first leaf of a split.
#[derive(Clone, Copy)]
enum First {
    /// It adds `x <= 0` four times and the second cut once.
    Right,
    /// It adds `x <= 0` once too seldom.
    Wrong,
    /// Its delta is -(2^127 - 1), and it adds nothing.
    Negative,
}

/// A split of the column at a position and its two leaves: the first of the side at most 0, and the one of the side at
/// least 1, which adds the first cut.
#[derive(Clone, Copy)]
struct Case {
    position: u32,
    left: i64,
    right: i64,
    first: First,
}

const ONE: Case = Case {
    position: 0,
    left: 0,
    right: 1,
    first: First::Right,
};

/// The first leaf of a case.
fn first_leaf(alloc: Global, first: First) -> Result<TreeNode, OutOfMemory>
    ensures { IfOk result (λ node. IsNarrowNode node) }
{
    match first {
        First::Right => leaf_of(alloc, &[(0, 4), (3, 1)], 1, 3),
        First::Wrong => leaf_of(alloc, &[(0, 3), (3, 1)], 1, 3),
        First::Negative => leaf_of(alloc, &[], -170141183460469231731687303715884105727, 0),
    }
}

/// Adds the split and its leaves.
fn add_case(alloc: Global, nodes: &mut Vec<TreeNode>, case: Case) -> Result<(), OutOfMemory>
    requires { AllByRecursion IsNarrowNode nodes.old.items }
    ensures { IfOk result (λ _. AllByRecursion IsNarrowNode nodes.new.items) }
{
    add(nodes, fork_at(case.position, case.left, case.right))?;
    add(nodes, first_leaf(alloc, case.first)?)?;
    add(nodes, leaf_of(alloc, &[(1, 2), (2, 1)], 1, 2)?)
}

/// Adds splits of which each stands in the first side of the one before, and the second side is empty.
fn add_first_sides(nodes: &mut Vec<TreeNode>, depth: u32) -> Result<(), OutOfMemory>
    requires { AllByRecursion IsNarrowNode nodes.old.items }
    ensures { IfOk result (λ _. AllByRecursion IsNarrowNode nodes.new.items) }
{
    for _ in 0..depth {
        add(nodes, fork_at(0, 1, 2))?;
    }
    Ok(())
}

/// Adds splits of which each stands in the second side of the one before, and the first side is empty.
fn add_second_sides(alloc: Global, nodes: &mut Vec<TreeNode>, depth: u32) -> Result<(), OutOfMemory>
    requires { AllByRecursion IsNarrowNode nodes.old.items }
    ensures { IfOk result (λ _. AllByRecursion IsNarrowNode nodes.new.items) }
{
    for _ in 0..depth {
        add(nodes, fork_at(0, -1, 0))?;
        add(nodes, empty_leaf(alloc)?)?;
    }
    Ok(())
}

/// Adds the empty leaves of second sides.
fn add_empty_leaves(alloc: Global, nodes: &mut Vec<TreeNode>, depth: u32) -> Result<(), OutOfMemory>
    requires { AllByRecursion IsNarrowNode nodes.old.items }
    ensures { IfOk result (λ _. AllByRecursion IsNarrowNode nodes.new.items) }
{
    for _ in 0..depth {
        add(nodes, empty_leaf(alloc)?)?;
    }
    Ok(())
}

/// The nodes of a tree that ends in the case: so many first sides deep, and then so many second sides.
fn tree(alloc: Global, depth: u32, case: Case) -> Result<Vec<TreeNode>, OutOfMemory>
    ensures { IfOk result (λ nodes. AllByRecursion IsNarrowNode nodes.items) }
{
    let mut nodes = Vec::new(alloc);
    add_first_sides(&mut nodes, depth)?;
    add_second_sides(alloc, &mut nodes, depth)?;
    add_case(alloc, &mut nodes, case)?;
    add_empty_leaves(alloc, &mut nodes, depth)?;
    Ok(nodes)
}

/// What is found of such a tree.
fn found(
    alloc: Global,
    split: &Split,
    depth: u32,
    case: Case,
    goal: Goal,
) -> Result<Result<(), CheckFault>, OutOfMemory>
    requires { HasPositiveDen goal }
{
    let root = root_box(alloc, split)?;
    let cuts = cuts(alloc)?;
    let nodes = tree(alloc, depth, case)?;
    if nodes.len() > 65535 {
        return Err(OutOfMemory);
    }
    let positions = integer_positions(alloc, split)?;
    Ok(judge_tree(
        alloc,
        split,
        cuts.as_slice(),
        root,
        positions.as_slice(),
        nodes.as_slice(),
        goal,
    ))
}

const TWO: Goal = Goal::Reaches { value: 2, den: 1 };

#[test]
fn the_tree_of_the_second_example_holds_and_others_do_not(rt: HostRuntime) -> Result<(), Fail> {
    let split = split(rt.alloc(), Of::One, 2)?;
    let table = [
        (ONE, Ok(()), "as it is"),
        (
            Case {
                first: First::Wrong,
                ..ONE
            },
            Err(CheckFault::Leaf { node: 1 }),
            "3 in place of 4",
        ),
        (
            Case {
                first: First::Negative,
                ..ONE
            },
            Err(CheckFault::Leaf { node: 1 }),
            "delta is tested before its product with the cost, which is wide",
        ),
        (
            Case { right: 2, ..ONE },
            Err(CheckFault::Cover { node: 0 }),
            "split 0 0 2",
        ),
        (
            Case {
                right: 2,
                first: First::Wrong,
                ..ONE
            },
            Err(CheckFault::Cover { node: 0 }),
            "the split stands before its leaves",
        ),
        (
            Case { position: 1, ..ONE },
            Err(CheckFault::Cover { node: 0 }),
            "no column stands at position 1",
        ),
        (
            Case {
                left: 1,
                right: 2,
                ..ONE
            },
            Err(CheckFault::Leaf { node: 1 }),
            "the first leaf bounds by -1 where x is at most 1",
        ),
    ];
    for (case, wanted, what) in table {
        assert_eq!(rt; found(rt.alloc(), &split, 0, case, TWO)?, wanted, "{what}");
    }
    Ok(())
}

#[test]
fn bounds_are_compared_exactly(rt: HostRuntime) -> Result<(), Fail> {
    let split = split(rt.alloc(), Of::One, 2)?;
    // The leaves bound by 3 and by 2.
    let table = [
        (4, 2, Ok(())),
        (5, 2, Err(CheckFault::Leaf { node: 2 })),
        (7, 2, Err(CheckFault::Leaf { node: 1 })),
    ];
    for (value, den, wanted) in table {
        let goal = Goal::Reaches { value, den };
        assert_eq!(rt;
            found(rt.alloc(), &split, 0, ONE, goal)?,
            wanted,
            "{value} / {den}"
        );
    }
    assert_eq!(rt;
        found(rt.alloc(), &split, 0, ONE, Goal::Empty)?,
        Err(CheckFault::Leaf { node: 1 }),
        "no leaf is empty"
    );
    Ok(())
}

#[test]
fn ends_are_put_back_in_deep_trees(rt: HostRuntime) -> Result<(), Fail> {
    let split = split(rt.alloc(), Of::One, 2)?;
    assert_eq!(rt; found(rt.alloc(), &split, 1000, ONE, TWO)?, Ok(()));
    let wrong = Case {
        first: First::Wrong,
        ..ONE
    };
    assert_eq!(rt;
        found(rt.alloc(), &split, 1000, wrong, TWO)?,
        Err(CheckFault::Leaf { node: 3001 }),
        "behind 1,000 splits, 1,000 splits with a leaf each, and one split"
    );
    Ok(())
}
