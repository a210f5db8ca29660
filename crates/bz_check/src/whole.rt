//! The check of a whole certificate.
ghost use Rattle.std.specs.Prelude.{◌≡◌, ◌⊎◌, Ok, Err, IfErr, IfOk};
ghost use Rattle.bz_model.specs.Splits.{IsSplit};
ghost use Rattle.bz_first.specs.Tests.{Judges};
ghost use Rattle.bz_tree.specs.Boxes.{IsRootBox};
ghost use Rattle.bz_tree.specs.Ends.{box_of};
ghost use Rattle.bz_tree.specs.Integers.{positions_of};
ghost use Rattle.bz_cert.specs.Fits.{Fits};
ghost use Rattle.bz_cert.specs.Passing.{Passes};
ghost use Rattle.bz_cert.specs.Shapes.{AreCuts, AreNodes, IsShaped};
ghost use Rattle.bz_judge.specs.declared.CheckFault.{CheckFault};
ghost use Rattle.bz_judge.specs.declared.CheckFault.TheVariants as fault;
ghost use Rattle.bz_check.specs.CheckTests.{IsCheckFault, bound_tests, check_tests, infeasible_tests, optimal_tests, unbounded_tests, value_of_point_tests};
ghost use Rattle.bz_check.specs.Checking.{IsDue, JudgesCertificate, JudgesTree, Settles};
ghost use Rattle.bz_check.specs.TreeGoals.{HasPositiveDen, bounds_of};

use crate::cut_list::judge_cuts;
use crate::shape::{judge_ray_shape, judge_shape};
use crate::tree_goals::Goal;
use crate::tree_walk::judge_tree;
use bz_cert::{Certificate, Verdict};
use bz_cut::Cut;
use bz_judge::{CheckFault, judge_costs, judge_point, judge_ray, judge_value};
use bz_model::{Parts, Split};
use bz_tree::{NodeBox, TreeNode, integer_positions, root_box};
use std::alloc::Global;

/// Tests that the parts are a feasible point, and that its blocks cost at most their etas and the value is theirs with
/// the master's inner cost.
fn judge_value_of_point(
    split: &Split,
    root: &NodeBox,
    positions: &[u32],
    parts: &Parts,
    value: i128,
) -> Result<(), CheckFault>
    requires root { IsRootBox split.now.model (box_of root.now) }
    requires positions { positions.now ≡ positions_of split.now.model split.now.part }
    ensures { Judges (value_of_point_tests split.now.model split.now.part (box_of root.now) parts.now value) result }
{
    judge_shape(split, parts)?;
    judge_point(split, root, positions, parts)?;
    judge_costs(split, &parts.master, parts.blocks.as_slice())?;
    judge_value(split, &parts.master, value)
}

/// Tests that the cuts are valid, and that the tree holds over the box and each leaf shows the goal. It takes memory.
fn judge_bound(
    alloc: Global,
    split: &Split,
    root: NodeBox,
    positions: &[u32],
    cuts: &[Cut],
    nodes: &[TreeNode],
    goal: Goal,
) -> Result<(), CheckFault>
    requires root { IsRootBox split.now.model (box_of root) }
    requires positions { positions.now ≡ positions_of split.now.model split.now.part }
    requires cuts { AreCuts cuts.now }
    requires nodes { AreNodes nodes.now }
    requires goal { HasPositiveDen goal }
    ensures { JudgesTree nodes.now
        (bound_tests split.now.model split.now.part cuts.now (bounds_of goal) (box_of root)) result }
{
    judge_cuts(split, cuts)?;
    judge_tree(alloc, split, cuts, root, positions, nodes, goal)
}

/// Tests a certificate of an optimum. It takes memory.
fn judge_optimal(
    alloc: Global,
    split: &Split,
    root: NodeBox,
    positions: &[u32],
    parts: &Parts,
    c: &Certificate,
) -> Result<(), CheckFault>
    requires root { IsRootBox split.now.model (box_of root) }
    requires positions { positions.now ≡ positions_of split.now.model split.now.part }
    requires cuts { AreCuts c.now.cuts }
    requires nodes { AreNodes c.now.tree }
    ensures { JudgesTree c.now.tree (λ t.
        optimal_tests split.now.model split.now.part (box_of root) t parts.now c.now) result }
{
    judge_value_of_point(split, &root, positions, parts, c.value)?;
    let goal = Goal::Reaches {
        value: c.value,
        den: parts.master.den,
    };
    judge_bound(
        alloc,
        split,
        root,
        positions,
        c.cuts.as_slice(),
        c.tree.as_slice(),
        goal,
    )
}

/// Tests a certificate of an infeasible model. It takes memory.
fn judge_infeasible(
    alloc: Global,
    split: &Split,
    root: NodeBox,
    positions: &[u32],
    c: &Certificate,
) -> Result<(), CheckFault>
    requires root { IsRootBox split.now.model (box_of root) }
    requires positions { positions.now ≡ positions_of split.now.model split.now.part }
    requires cuts { AreCuts c.now.cuts }
    requires nodes { AreNodes c.now.tree }
    ensures { JudgesTree c.now.tree (λ t.
        infeasible_tests split.now.model split.now.part (box_of root) t c.now) result }
{
    judge_bound(
        alloc,
        split,
        root,
        positions,
        c.cuts.as_slice(),
        c.tree.as_slice(),
        Goal::Empty,
    )
}

/// Tests a certificate of an unbounded model.
fn judge_unbounded(
    split: &Split,
    root: &NodeBox,
    positions: &[u32],
    parts: &Parts,
    c: &Certificate,
) -> Result<(), CheckFault>
    requires root { IsRootBox split.now.model (box_of root.now) }
    requires positions { positions.now ≡ positions_of split.now.model split.now.part }
    ensures { Judges (unbounded_tests split.now.model split.now.part (box_of root.now) parts.now c.now) result }
{
    let ray = c.ray.as_slice();
    judge_ray_shape(split, parts, ray)?;
    judge_point(split, root, positions, parts)?;
    judge_ray(split, ray)
}

/// Tests what the certificate's verdict needs, over the box of the whole model. It takes memory.
fn judge_over(
    alloc: Global,
    split: &Split,
    root: NodeBox,
    positions: &[u32],
    c: &Certificate,
) -> Result<(), CheckFault>
    requires shaped { IsShaped c.now }
    requires root { IsRootBox split.now.model (box_of root) }
    requires positions { positions.now ≡ positions_of split.now.model split.now.part }
    ensures { JudgesCertificate c.now (λ t. check_tests split.now.model split.now.part (box_of root) t c.now) result }
{
    match (c.verdict, &c.parts) {
        (Verdict::Optimal, Some(parts)) => judge_optimal(alloc, split, root, positions, parts, c),
        (Verdict::Infeasible, _) => judge_infeasible(alloc, split, root, positions, c),
        (Verdict::Unbounded, Some(parts)) => judge_unbounded(split, &root, positions, parts, c),
        _ => Err(CheckFault::Shape),
    }
}

/// Tests what the certificate's verdict needs. It takes memory.
fn judge_certificate(alloc: Global, split: &Split, c: &Certificate) -> Result<(), CheckFault>
    requires { IsShaped c.now }
    ensures { Settles split.now c.now result }
{
    let root = root_box(alloc, split)?;
    let positions = integer_positions(alloc, split)?;
    judge_over(alloc, split, root, positions.as_slice(), c)
}

/// Checks a certificate against a split: `Ok` exactly where it passes and no sum or product that tells so is wide, and
/// else its first fault. It takes memory, a few numbers for each integer column of the model and for each split of the
/// tree that is open at once, and answers `OutOfMemory` for want of it.
pub fn check(alloc: Global, split: &Split, c: &Certificate) -> Result<(), CheckFault>
    requires { IsShaped c.now }
    ensures passes { IfOk result (λ _. Passes split.now.model split.now.part c.now) }
    ensures fits { IfOk result (λ _. Fits split.now.model split.now.part c.now) }
    ensures split { IfOk result (λ _. IsSplit split.now) }
    ensures fault { IfErr result (λ f. (f ≡ fault.OutOfMemory) ⊎ IsCheckFault split.now.model split.now.part c.now f) }
    ensures holds { Passes split.now.model split.now.part c.now →
        Fits split.now.model split.now.part c.now → IsDue (Ok tt) result }
    ensures first { (f : CheckFault) → IsCheckFault split.now.model split.now.part c.now f → IsDue (Err f) result }
{
    judge_certificate(alloc, split, c)
}
