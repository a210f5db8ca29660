//! Whether the inequalities of the master and of the blocks hold at a point.
ghost use Rattle.std.specs.Prelude.{◌≡◌, ◌<◌, ◌≤◌, ◌^◌, ◌+ℤ◌, ◌*ℤ◌, [], ◌∷◌, IfOk, length};
ghost use Rattle.std.specs.List.{AllByRecursion, enumerate_from};
ghost use Rattle.bz_algebra.specs.Sums.{AllBelow};
ghost use Rattle.bz_num.specs.Fold.{IsNarrowSum};
ghost use Rattle.bz_model.specs.Limits.{block_limit};
ghost use Rattle.bz_model.specs.Parting.{blocks_of, width_of};
ghost use Rattle.bz_model.specs.Splits.{IsSplit};
ghost use Rattle.bz_first.specs.Tests.{Judges, each_of, test};
ghost use Rattle.bz_judge.specs.PointTests.{block_tests, blocks_tests, in_block_tests, in_master_tests, point_tests};
ghost use Rattle.bz_tree.specs.Boxes.{IsRootBox};
ghost use Rattle.bz_tree.specs.Ends.{box_of};
ghost use Rattle.bz_tree.specs.Integers.{positions_of};
ghost use Rattle.bz_model.specs.PointSums.{joined_pairs};
ghost use Rattle.bz_model.specs.PartPoints.{HasPointShape, HasBlockShape};
ghost use Rattle.bz_judge.specs.LeftSides.{FitsLengths, left_side_of, left_side_tests};

use crate::faults::{BLOCK_DENOMINATOR, BLOCK_SUMS, CheckFault, MASTER_SUMS, wide_in};
use crate::integers::judge_integers;
use crate::numbers::{sum_at, sum_of};
use bz_cut::{judge_at_most, judge_product};
use bz_first::{ItemTests, judge_each, judge_order};
use bz_model::{BlockPart, Ineq, Master, Parts, Split};
use bz_num::row_sum;
use bz_tree::NodeBox;

/// The tests of inequalities of the master at its point.
#[derive(Clone, Copy)]
struct MasterRows<'a> {
    master: &'a Master,
}

impl ItemTests<Ineq, CheckFault> for MasterRows<'_> {
    ghost takes = { λ r e. AllBelow (length r.master.now.x) e.1.own };

    ghost tests = { λ r. in_master_tests r.master.now };

    fn judge(&self, n: u32, row: &Ineq) -> Result<(), CheckFault> {
        let sum = row_sum(&row.own, self.master.x.as_slice());
        let broken = CheckFault::Point { part: 0, at: n };
        let wide = wide_in(MASTER_SUMS, n);
        judge_at_most(sum, row.rhs, self.master.den, broken, wide)
    }
}

/// Whether all inequalities hold at the master's point.
pub fn judge_master_rows(master: &Master, rows: &[Ineq]) -> Result<(), CheckFault>
    requires few { length rows.now < 2 ^ 32 }
    requires within { AllByRecursion (λ i. AllBelow (length master.now.x) i.own) rows.now }
    ensures { Judges (each_of (in_master_tests master.now) (enumerate_from 0 rows.now)) result }
{
    judge_each(rows, 0, &MasterRows { master })
}

/// `times` times the one number and the other one together, or the fault where that is wide.
fn joined(times: i128, a: i128, b: i128, wide: CheckFault) -> Result<i128, CheckFault>
    ensures judges { Judges (test wide (IsNarrowSum (joined_pairs times a b)) ∷ []) result }
    ensures value { IfOk result (λ sum. sum ≡ (times *ℤ a) +ℤ b) }
{
    sum_of(&[(times, a), (1, b)], wide)
}

/// The left side of a block's inequality at the point, times the master's denominator and `times`; or the fault where
/// a sum is wide.
fn left_side(
    master: &Master,
    block: &BlockPart,
    row: &Ineq,
    wide: CheckFault,
) -> Result<i128, CheckFault>
    requires { FitsLengths (length master.now.x) (length block.now.y) row.now }
    ensures judges { Judges (left_side_tests wide master.now block.now row.now) result }
    ensures value { IfOk result (λ sum. sum ≡ left_side_of master.now block.now row.now) }
{
    let in_master = sum_at(&row.master, master.x.as_slice(), wide)?;
    let in_block = sum_at(&row.own, block.y.as_slice(), wide)?;
    joined(block.times, in_master, in_block, wide)
}

/// The tests of inequalities of a block at the point.
#[derive(Clone, Copy)]
struct BlockRows<'a> {
    master: &'a Master,
    /// The block's number.
    b: u32,
    block: &'a BlockPart,
    /// The block's denominator.
    den: i128,
}

impl ItemTests<Ineq, CheckFault> for BlockRows<'_> {
    ghost takes = { λ r e.
        FitsLengths (length r.master.now.x) (length r.block.now.y) e.1
        × (r.den ≡ r.master.now.den *ℤ r.block.now.times) };

    ghost tests = { λ r. in_block_tests r.master.now r.b r.block.now };

    fn judge(&self, n: u32, row: &Ineq) -> Result<(), CheckFault> {
        let wide = wide_in(BLOCK_SUMS, n);
        let sum = left_side(self.master, self.block, row, wide)?;
        let side = judge_product(row.rhs, self.den, wide)?;
        let broken = CheckFault::Point {
            part: self.b,
            at: n,
        };
        judge_order(sum, side, broken)
    }
}

/// Whether all inequalities of block `b` hold, where `den` is the block's denominator.
fn judge_block_rows(
    master: &Master,
    b: u32,
    block: &BlockPart,
    den: i128,
    rows: &[Ineq],
) -> Result<(), CheckFault>
    requires few { length rows.now < 2 ^ 32 }
    requires fits { AllByRecursion (FitsLengths (length master.now.x) (length block.now.y)) rows.now }
    requires den { den ≡ master.now.den *ℤ block.now.times }
    ensures { Judges (each_of (in_block_tests master.now b block.now) (enumerate_from 0 rows.now)) result }
{
    let tests = BlockRows {
        master,
        b,
        block,
        den,
    };
    judge_each(rows, 0, &tests)
}

/// Whether block `b` holds at the point.
pub fn judge_block(
    split: &Split,
    master: &Master,
    b: u32,
    block: &BlockPart,
) -> Result<(), CheckFault>
    requires block { b ≤ blocks_of split.now.part }
    requires x { length master.now.x ≡ width_of split.now.part 0 }
    requires y { length block.now.y ≡ width_of split.now.part b }
    ensures { Judges (block_tests split.now.model split.now.part master.now (b, block.now)) result }
{
    let den = judge_product(master.den, block.times, wide_in(BLOCK_DENOMINATOR, b))?;
    judge_block_rows(master, b, block, den, split.inequalities(b))
}

/// The tests of blocks at the point.
#[derive(Clone, Copy)]
struct Blocks<'a> {
    split: &'a Split,
    master: &'a Master,
}

impl ItemTests<BlockPart, CheckFault> for Blocks<'_> {
    ghost takes = { λ t e.
        (e.0 ≤ blocks_of t.split.now.part)
        × (length t.master.now.x ≡ width_of t.split.now.part 0)
        × (length e.1.y ≡ width_of t.split.now.part e.0) };

    ghost tests = { λ t. block_tests t.split.now.model t.split.now.part t.master.now };

    fn judge(&self, b: u32, block: &BlockPart) -> Result<(), CheckFault> {
        judge_block(self.split, self.master, b, block)
    }
}

/// Whether all blocks hold at the point.
pub fn judge_blocks(split: &Split, master: &Master, blocks: &[BlockPart]) -> Result<(), CheckFault>
    requires count { length blocks.now ≡ blocks_of split.now.part }
    requires few { length blocks.now ≤ block_limit }
    requires x { length master.now.x ≡ width_of split.now.part 0 }
    requires shapes { AllByRecursion (HasBlockShape split.now.part) (enumerate_from 1 blocks.now) }
    ensures { Judges (blocks_tests split.now.model split.now.part master.now blocks.now) result }
{
    judge_each(blocks, 1, &Blocks { split, master })
}

/// Tests that the point of the parts is feasible, whatever its etas are: the master's inequalities, then the integer
/// columns, whose positions in the master are given in file order, and then block by block.
pub fn judge_point(
    split: &Split,
    root: &NodeBox,
    positions: &[u32],
    parts: &Parts,
) -> Result<(), CheckFault>
    requires shape { HasPointShape split.now.model split.now.part parts.now }
    requires root { IsRootBox split.now.model (box_of root.now) }
    requires positions { positions.now ≡ positions_of split.now.model split.now.part }
    ensures judges { Judges (point_tests split.now.model split.now.part (box_of root.now) parts.now) result }
    ensures split { IsSplit split.now }
{
    judge_master_rows(&parts.master, split.inequalities(0))?;
    judge_integers(split, &parts.master, root, positions)?;
    judge_blocks(split, &parts.master, parts.blocks.as_slice())
}
