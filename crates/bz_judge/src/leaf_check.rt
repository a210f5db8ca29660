//! Whether a leaf holds over the sides of a box.
ghost use Rattle.std.specs.Prelude.{◌≡◌, ◌<◌, ◌<ℤ◌, ◌↔◌, pos, length, IsTrue};
ghost use Rattle.bz_model.specs.Parting.{width_of};
ghost use Rattle.bz_cut.specs.Rows.{AreMultipliers};
ghost use Rattle.bz_first.specs.Tests.{Judges};
ghost use Rattle.bz_judge.specs.LeafTests.{leaf_bound_tests, leaf_eta_tests, leaf_etas_tests, leaf_form_tests, leaf_master_tests, leaf_masters_tests, leaf_rhs_tests, leaf_tests};
ghost use Rattle.bz_tree.specs.LeafSides.{AreSides, sides_in};

use crate::faults::{CheckFault, LEAF_SUMS, wide_in};
use crate::leaf_sums::{Place, position_sum, side_sum};
use bz_cut::{are_multipliers, judge_opposite, judge_sum};
use bz_first::{PlaceTests, judge, judge_below, judge_order};
use bz_model::Split;
use bz_num::narrow_negation;
use bz_tree::{Leaf, Sides};

/// Tests that the multipliers are positive numbers at places of the sides, and that delta isn't negative.
fn judge_form(sides: &Sides, node: u32, leaf: &Leaf) -> Result<(), CheckFault>
    requires { AreSides sides.now }
    ensures { Judges (leaf_form_tests (sides_in sides.now) node leaf.now) result }
{
    let broken = CheckFault::Leaf { node };
    judge(are_multipliers(&leaf.lambda, sides.count()), broken)?;
    judge_order(0, leaf.delta, broken)
}

/// The equations of a leaf on the positions of the master.
#[derive(Clone, Copy)]
struct Positions<'a> {
    split: &'a Split,
    sides: &'a Sides<'a>,
    node: u32,
    leaf: &'a Leaf,
}

impl PlaceTests<CheckFault> for Positions<'_> {
    ghost takes = { λ t position.
        AreSides t.sides.now
        × AreMultipliers (length (sides_in t.sides.now)) t.leaf.now.lambda
        × (position < width_of t.split.now.part 0) };

    ghost tests = { λ t.
        leaf_master_tests t.split.now.model t.split.now.part (sides_in t.sides.now) t.node t.leaf.now };

    fn judge_at(&self, position: u32) -> Result<(), CheckFault> {
        let leaf = self.leaf;
        let sum = position_sum(self.sides, &leaf.lambda, position);
        let cost = self.split.inner_cost(0, position);
        let broken = CheckFault::Leaf { node: self.node };
        let wide = wide_in(LEAF_SUMS, self.node);
        judge_opposite(sum, leaf.delta, cost, broken, wide)
    }
}

/// Tests the equations on the master's positions.
fn judge_positions(split: &Split, sides: &Sides, node: u32, leaf: &Leaf) -> Result<(), CheckFault>
    requires sides { AreSides sides.now }
    requires lambda { AreMultipliers (length (sides_in sides.now)) leaf.now.lambda }
    ensures { Judges (leaf_masters_tests split.now.model split.now.part (sides_in sides.now) node leaf.now) result }
{
    let equations = Positions {
        split,
        sides,
        node,
        leaf,
    };
    judge_below(split.width(0), &equations)
}

/// The sums of a leaf on the etas.
#[derive(Clone, Copy)]
struct Etas<'a> {
    sides: &'a Sides<'a>,
    node: u32,
    leaf: &'a Leaf,
}

impl PlaceTests<CheckFault> for Etas<'_> {
    ghost takes = { λ t eta. AreSides t.sides.now × AreMultipliers (length (sides_in t.sides.now)) t.leaf.now.lambda };

    ghost tests = { λ t. leaf_eta_tests (sides_in t.sides.now) t.node t.leaf.now };

    fn judge_at(&self, eta: u32) -> Result<(), CheckFault> {
        let leaf = self.leaf;
        let sum = side_sum(self.sides, &leaf.lambda, Place::Eta(eta));
        let broken = CheckFault::Leaf { node: self.node };
        let wide = wide_in(LEAF_SUMS, self.node);
        judge_sum(sum, narrow_negation(leaf.delta), broken, wide)
    }
}

/// Tests the sums on the etas.
fn judge_etas(split: &Split, sides: &Sides, node: u32, leaf: &Leaf) -> Result<(), CheckFault>
    requires sides { AreSides sides.now }
    requires lambda { AreMultipliers (length (sides_in sides.now)) leaf.now.lambda }
    ensures { Judges (leaf_etas_tests split.now.part (sides_in sides.now) node leaf.now) result }
{
    judge_below(split.blocks(), &Etas { sides, node, leaf })
}

/// Tests the sum of the right sides.
fn judge_right_sides(sides: &Sides, node: u32, leaf: &Leaf) -> Result<(), CheckFault>
    requires sides { AreSides sides.now }
    requires lambda { AreMultipliers (length (sides_in sides.now)) leaf.now.lambda }
    ensures { Judges (leaf_rhs_tests (sides_in sides.now) node leaf.now) result }
{
    let sum = side_sum(sides, &leaf.lambda, Place::Right);
    let turned = narrow_negation(leaf.bound);
    judge_sum(
        sum,
        turned,
        CheckFault::Leaf { node },
        wide_in(LEAF_SUMS, node),
    )
}

/// Whether the bound of an empty leaf is positive.
fn is_positive_where_empty(leaf: &Leaf) -> bool
    ensures { IsTrue result ↔ (leaf.now.delta ≡ pos 0 → pos 0 <ℤ leaf.now.bound) }
{
    leaf.delta != 0 || 0 < leaf.bound
}

/// Tests the sign of an empty leaf's bound.
fn judge_bound(node: u32, leaf: &Leaf) -> Result<(), CheckFault>
    ensures { Judges (leaf_bound_tests node leaf.now) result }
{
    judge(is_positive_where_empty(leaf), CheckFault::Leaf { node })
}

/// Tests that the leaf at the node holds over the sides. It takes no memory.
pub fn judge_leaf(split: &Split, sides: &Sides, node: u32, leaf: &Leaf) -> Result<(), CheckFault>
    requires sides { AreSides sides.now }
    ensures { Judges (leaf_tests split.now.model split.now.part (sides_in sides.now) node leaf.now) result }
{
    judge_form(sides, node, leaf)?;
    judge_positions(split, sides, node, leaf)?;
    judge_etas(split, sides, node, leaf)?;
    judge_right_sides(sides, node, leaf)?;
    judge_bound(node, leaf)
}
