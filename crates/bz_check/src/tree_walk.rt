//! Whether a tree of branch and bound holds over the box of the whole model.
ghost use Rattle.std.specs.Prelude.{◌≡◌, ◌↔◌, ◌<◌, ◌≤◌, ◌+ℤ◌, pos, length, IfOk, IsTrue};
ghost use Rattle.std.specs.List.{AllByRecursion};
ghost use Rattle.bz_algebra.specs.Numbers.{IsNarrow};
ghost use Rattle.bz_first.specs.Tests.{Judges};
ghost use Rattle.bz_tree.specs.Boxes.{IsRootBox};
ghost use Rattle.bz_tree.specs.Ends.{box_of};
ghost use Rattle.bz_cert.specs.Shapes.{IsNarrowNode};
ghost use Rattle.bz_tree.specs.Integers.{positions_of};
ghost use Rattle.bz_check.specs.CheckTests.{split_tests, tree_tests};
ghost use Rattle.bz_check.specs.Checking.{JudgesInMemory, JudgesTree};
ghost use Rattle.bz_check.specs.TreeGoals.{HasPositiveDen, bounds_of};
ghost use Rattle.bz_check.specs.Walks.{Enters, GoesOn, IsWalk, OfPositions, VisitsNode, here_tests, place_of};

use crate::open_splits::{Walk, enter, go_on};
use crate::tree_goals::{Goal, judge_goal};
use crate::trial::Trial;
use bz_cut::Cut;
use bz_judge::{CheckFault, judge_leaf};
use bz_model::{Split, Terms};
use bz_tree::{Leaf, NodeBox, Sides, TreeNode, integer_column};
use std::alloc::Global;

/// Whether the second number is the next after the first. The greatest number has none.
fn is_next(left: i128, right: i128) -> bool
    ensures { IsTrue result ↔ (right ≡ left +ℤ pos 1) }
{
    left.checked_add(1) == Some(right)
}

/// Tests that the node splits an integer column, into two sides that meet. Answers the column's place.
fn judge_split(
    positions: &[u32],
    node: u32,
    position: u32,
    left: i128,
    right: i128,
) -> Result<usize, CheckFault>
    ensures judges { OfPositions positions.now (λ m part. Judges (split_tests m part node position left right) result) }
    ensures place { IfOk result (λ place. place ≡ place_of positions.now position) }
    ensures within { IfOk result (λ place. place < length positions.now) }
{
    if !is_next(left, right) {
        return Err(CheckFault::Cover { node });
    }
    integer_column(positions, position).ok_or(CheckFault::Cover { node })
}

/// Tests a split, and goes to its first side.
fn visit_split(
    positions: &[u32],
    node: u32,
    position: u32,
    left: i128,
    right: i128,
    walk: &mut Walk,
) -> Result<(), CheckFault>
    requires walk { IsWalk (length positions.now) walk.old }
    requires narrow { IsNarrow right }
    ensures judges { OfPositions positions.now (λ m part.
        JudgesInMemory (split_tests m part node position left right) result) }
    ensures entered { IfOk result (λ _. Enters (place_of positions.now position) left right walk.old walk.new) }
    ensures kept { IfOk result (λ _. IsWalk (length positions.now) walk.new) }
{
    let place = judge_split(positions, node, position, left, right)?;
    enter(walk, place, left, right)?;
    Ok(())
}

/// Tests a leaf over the box that the walk has come to.
fn judge_leaf_here(trial: &Trial<'_>, node: u32, leaf: &Leaf, walk: &Walk) -> Result<(), CheckFault>
    requires walk { IsWalk (length trial.now.positions.now) walk.now }
    requires goal { HasPositiveDen trial.now.goal }
    ensures { Judges (here_tests trial.now walk.now node leaf.now) result }
{
    let sides = Sides {
        rows: trial.split.inequalities(0),
        entries: trial.split.entries(0, Terms::Own),
        positions: trial.positions,
        lower: walk.lower.as_slice(),
        upper: walk.upper.as_slice(),
        cuts: trial.cuts,
    };
    judge_leaf(trial.split, &sides, node, leaf)?;
    judge_goal(trial.goal, node, leaf)
}

/// Tests a leaf, and goes on to the next tree that is to come.
fn visit_leaf(trial: &Trial<'_>, node: u32, leaf: &Leaf, walk: &mut Walk) -> Result<(), CheckFault>
    requires walk { IsWalk (length trial.now.positions.now) walk.old }
    requires goal { HasPositiveDen trial.now.goal }
    ensures judges { JudgesInMemory (here_tests trial.now walk.old node leaf.now) result }
    ensures next { IfOk result (λ _. GoesOn walk.old walk.new) }
    ensures kept { IfOk result (λ _. IsWalk (length trial.now.positions.now) walk.new) }
{
    judge_leaf_here(trial, node, leaf, walk)?;
    go_on(walk)?;
    Ok(())
}

/// Tests a node, and goes on to the next.
fn visit(trial: &Trial<'_>, node: u32, entry: &TreeNode, walk: &mut Walk) -> Result<(), CheckFault>
    requires walk { IsWalk (length trial.now.positions.now) walk.old }
    requires entry { IsNarrowNode entry.now }
    requires goal { HasPositiveDen trial.now.goal }
    ensures visits { VisitsNode trial.now node entry.now walk.old walk.new result }
    ensures kept { IfOk result (λ _. IsWalk (length trial.now.positions.now) walk.new) }
{
    match entry {
        TreeNode::Split {
            position,
            left,
            right,
        } => visit_split(trial.positions, node, *position, *left, *right, walk),
        TreeNode::Leaf(leaf) => visit_leaf(trial, node, leaf, walk),
    }
}

/// Whether each split of the tree is one of an integer column, and each leaf holds over its box and shows the goal: the
/// first fault by the order of the nodes. The box is that of the whole model, and the positions are those of the integer
/// columns in the master. It takes a few words for each split that is open at once.
pub fn judge_tree(
    alloc: Global,
    split: &Split,
    cuts: &[Cut],
    root: NodeBox,
    positions: &[u32],
    nodes: &[TreeNode],
    goal: Goal,
) -> Result<(), CheckFault>
    requires root { IsRootBox split.now.model (box_of root) }
    requires positions { positions.now ≡ positions_of split.now.model split.now.part }
    requires nodes { AllByRecursion IsNarrowNode nodes.now }
    requires few { length nodes.now ≤ 65535 }
    requires goal { HasPositiveDen goal }
    ensures { JudgesTree nodes.now
        (tree_tests split.now.model split.now.part cuts.now (bounds_of goal) (box_of root) 0) result }
{
    let trial = Trial {
        split,
        cuts,
        positions,
        goal,
    };
    let mut walk = Walk::new(alloc, root);
    for (node, entry) in nodes.iter().enumerate() {
        visit(&trial, node as u32, entry, &mut walk)?;
    }
    Ok(())
}
