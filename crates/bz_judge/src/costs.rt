//! The inner costs of parts at a point.
ghost use Rattle.std.specs.Prelude.{◌≡◌, ◌<◌, ◌≤◌, IfOk, length};
ghost use Rattle.std.specs.List.{AllByRecursion, enumerate_from};
ghost use Rattle.bz_num.specs.Fold.{fold_of};
ghost use Rattle.bz_model.specs.Limits.{block_limit};
ghost use Rattle.bz_model.specs.Parting.{blocks_of, inner_cost, terms_in, width_of};
ghost use Rattle.bz_first.specs.Tests.{Judges};
ghost use Rattle.bz_model.specs.PartPoints.{HasBlockShape};
ghost use Rattle.bz_judge.specs.ValueTests.{cost_tests, costs_tests};
ghost use Rattle.bz_judge.specs.Sums.{Begins};
ghost use Rattle.bz_model.specs.PointSums.{row_pairs};

use crate::faults::{COST_SUMS, CheckFault, wide_in};
use bz_cut::judge_at_most;
use bz_first::{ItemTests, judge_each};
use bz_model::{BlockPart, Master, Split};
use bz_num::{Folding, WideSum};

/// The sum of a part's inner cost at a point, to be gone on with, or its first wide place.
pub fn begin_cost(split: &Split, part: u32, point: &[i128]) -> Result<Folding, WideSum>
    requires part { part ≤ blocks_of split.now.part }
    requires point { length point.now ≡ width_of split.now.part part }
    ensures begins { Begins (row_pairs (terms_in split.now.part part (inner_cost split.now.model)) point.now) result }
    ensures few { IfOk result (λ taken. taken.count ≤ length point.now) }
{
    let mut folding = Folding::new();
    if split.model().cost.as_slice().is_empty() {
        return Ok(folding);
    }
    for (position, number) in point.iter().enumerate() {
        let cost = split.inner_cost(part, position as u32);
        if cost != 0 {
            folding.push(cost, *number)?;
        }
    }
    Ok(folding)
}

/// The sum of a part's inner cost at a point, or its first wide place.
fn cost_sum(split: &Split, part: u32, point: &[i128]) -> Result<i128, WideSum>
    requires part { part ≤ blocks_of split.now.part }
    requires point { length point.now ≡ width_of split.now.part part }
    ensures { result ≡ fold_of (row_pairs (terms_in split.now.part part (inner_cost split.now.model)) point.now) }
{
    let folding = begin_cost(split, part, point)?;
    Ok(folding.sum())
}

/// Tests that the inner cost of block `b` is at most its eta.
pub fn judge_cost(
    split: &Split,
    master: &Master,
    b: u32,
    block: &BlockPart,
) -> Result<(), CheckFault>
    requires some { 0 < b }
    requires block { b ≤ blocks_of split.now.part }
    requires eta { length master.now.eta ≡ blocks_of split.now.part }
    requires y { length block.now.y ≡ width_of split.now.part b }
    ensures { Judges (cost_tests split.now.model split.now.part master.now (b, block.now)) result }
{
    let sum = cost_sum(split, b, block.y.as_slice());
    let eta = master.eta.as_slice()[b as usize - 1];
    let broken = CheckFault::Cost { block: b };
    let wide = wide_in(COST_SUMS, b);
    judge_at_most(sum, eta, block.times, broken, wide)
}

/// The tests of blocks' inner costs.
#[derive(Clone, Copy)]
struct Costs<'a> {
    split: &'a Split,
    master: &'a Master,
}

impl ItemTests<BlockPart, CheckFault> for Costs<'_> {
    ghost takes = { λ t e.
        (0 < e.0)
        × (e.0 ≤ blocks_of t.split.now.part)
        × (length t.master.now.eta ≡ blocks_of t.split.now.part)
        × (length e.1.y ≡ width_of t.split.now.part e.0) };

    ghost tests = { λ t. cost_tests t.split.now.model t.split.now.part t.master.now };

    fn judge(&self, b: u32, block: &BlockPart) -> Result<(), CheckFault> {
        judge_cost(self.split, self.master, b, block)
    }
}

/// Tests that the inner cost of each block is at most its eta.
pub fn judge_costs(split: &Split, master: &Master, blocks: &[BlockPart]) -> Result<(), CheckFault>
    requires count { length blocks.now ≡ blocks_of split.now.part }
    requires few { length blocks.now ≤ block_limit }
    requires eta { length master.now.eta ≡ blocks_of split.now.part }
    requires shapes { AllByRecursion (HasBlockShape split.now.part) (enumerate_from 1 blocks.now) }
    ensures { Judges (costs_tests split.now.model split.now.part master.now blocks.now) result }
{
    judge_each(blocks, 1, &Costs { split, master })
}
