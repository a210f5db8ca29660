//! The block's part that completes a point.
ghost use Rattle.std.specs.Prelude.{◌≡◌, ◌<◌, ◌≤◌, ◌*◌, ℕ, pos, ◌≤ℤ◌, IfOk, length};
ghost use Rattle.bz_num.specs.Dense.{entry};
ghost use Rattle.bz_model.specs.Parting.{blocks_of, width_of};
ghost use Rattle.bz_model.specs.Splits.{IsSplit};
ghost use Rattle.bz_first.specs.Tests.{Judges};
ghost use Rattle.bz_std.specs.Meanings.{differences as differences_of, MeetsWithin};
ghost use Rattle.bz_std.specs.LowestForms.{IsLowestOf};
ghost use Rattle.bz_std.specs.Tasks.{IsMasterOf, separation};
ghost use Rattle.bz_event.specs.Stops.{fill_tests};
ghost use Rattle.bz_sep.specs.Outcomes.{Fills};

use bz_cut::Mode;
use bz_event::SepTask;
use bz_judge::{CheckFault, judge_block, judge_cost};
use bz_model::{BlockPart, Split};
use bz_num::OutOfMemory;
use bz_std::{differences, lowest};
use bz_tableau::Vals;
use std::alloc::Global;

/// The block's part that the columns' numbers z state, in lowest form.
fn lowest_fill(alloc: Global, split: &Split, block: u32, z: &Vals) -> Result<BlockPart, OutOfMemory>
    requires last { block ≤ blocks_of split.now.part }
    requires inside { 2 * width_of split.now.part block ≤ length z.now.num }
    requires nonnegative { (j : ℕ) → j < length z.now.num → pos 0 ≤ℤ entry z.now.num j }
    ensures { IfOk result (λ fill.
        IsLowestOf (width_of split.now.part block) z.now.den (differences_of (entry z.now.num)) fill.times fill.y) }
{
    let numbers = differences(alloc, z.num.as_slice(), split.width(block))?;
    let (times, y) = lowest(numbers.into_vec(), z.den);
    Ok(BlockPart { times, y })
}

/// Tests the block's inequalities, and in mode Cost its cost.
fn judge_fill(split: &Split, task: &SepTask, fill: &BlockPart) -> Result<(), CheckFault>
    requires first { 0 < task.now.block }
    requires last { task.now.block ≤ blocks_of split.now.part }
    requires point { IsMasterOf split.now.part task.now.point }
    requires y { length fill.now.y ≡ width_of split.now.part task.now.block }
    ensures { Judges
        (fill_tests split.now.model split.now.part task.now.block task.now.point task.now.mode fill.now) result }
{
    judge_block(split, &task.point, task.block, fill)?;
    match task.mode {
        Mode::Cost => judge_cost(split, &task.point, task.block, fill),
        Mode::Point => Ok(()),
    }
}

/// The block's part that a point of the separation's program states, whose least rise is 0. Where a sum or a product is
/// wide that tells so the first such is named.
pub(crate) fn judged_fill(
    alloc: Global,
    split: &Split,
    task: &SepTask,
    z: &Vals,
) -> Result<BlockPart, CheckFault>
    requires split { IsSplit split.now }
    requires first { 0 < task.now.block }
    requires last { task.now.block ≤ blocks_of split.now.part }
    requires point { IsMasterOf split.now.part task.now.point }
    requires inside { 2 * width_of split.now.part task.now.block ≤ length z.now.num }
    requires nonnegative { (j : ℕ) → j < length z.now.num → pos 0 ≤ℤ entry z.now.num j }
    requires stays { entry z.now.num (2 * width_of split.now.part task.now.block) ≡ pos 0 }
    requires meets { MeetsWithin
        (separation split.now.model split.now.part task.now.point task.now.block task.now.mode)
        (differences_of (entry z.now.num)) z.now.den (pos 0) }
    ensures { Fills split.now.model split.now.part task.now.block task.now.point task.now.mode z.now result }
{
    let fill = lowest_fill(alloc, split, task.block, z)?;
    judge_fill(split, task, &fill)?;
    Ok(fill)
}
