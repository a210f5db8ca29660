//! Directions along which a block's cost falls.
ghost use Rattle.std.specs.Prelude.{◌≡◌, ◌<◌, ◌≤◌, ◌*◌, ℕ, pos, ◌≤ℤ◌, IfOk, length};
ghost use Rattle.bz_num.specs.Dense.{AreNarrow, entry};
ghost use Rattle.bz_model.specs.Decomposed.{IsDecomposed};
ghost use Rattle.bz_model.specs.Parting.{blocks_of, width_of};
ghost use Rattle.bz_std.specs.Making.{HasSome};
ghost use Rattle.bz_std.specs.Meanings.{differences as differences_of, IsFallAlong};
ghost use Rattle.bz_std.specs.Tasks.{floor};
ghost use Rattle.bz_event.specs.Stops.{IsPrimitiveOf};
ghost use Rattle.bz_floor.specs.Outcomes.{Directs, IsMoving};

use crate::placing::placed;
use bz_judge::{CheckFault, judge_ray};
use bz_model::Split;
use bz_num::{Items, OutOfMemory, common_divisor};
use bz_std::{differences, lowest};
use std::alloc::Global;

/// The numbers, divided by their greatest common divisor. It takes no memory.
fn primitive(numbers: Vec<i128>) -> Items<i128>
    requires narrow { AreNarrow numbers.items }
    requires some { HasSome numbers.items }
    ensures primitive { IsPrimitiveOf (length numbers.items) (entry numbers.items) result }
    ensures narrow { AreNarrow result }
{
    let divisor = common_divisor(numbers.as_slice());
    // The numbers over their own divisor: what is left of the divisor is 1.
    lowest(numbers, divisor).1
}

/// The direction of the block's positions that one of the columns states, divided by its greatest common divisor.
fn direction(
    alloc: Global,
    split: &Split,
    block: u32,
    d: &[i128],
) -> Result<Items<i128>, OutOfMemory>
    requires last { block ≤ blocks_of split.now.part }
    requires inside { 2 * width_of split.now.part block ≤ length d.now }
    requires nonnegative { (j : ℕ) → j < length d.now → pos 0 ≤ℤ entry d.now j }
    requires moves { IsMoving (width_of split.now.part block) (differences_of (entry d.now)) }
    ensures primitive { IfOk result (IsPrimitiveOf (width_of split.now.part block) (differences_of (entry d.now))) }
    ensures narrow { IfOk result AreNarrow }
{
    let numbers = differences(alloc, d, split.width(block))?;
    Ok(primitive(numbers.into_vec()))
}

/// The direction of the block's positions that a fall along the columns states. Where a sum along it is wide the first
/// such is named.
pub(crate) fn judged_direction(
    alloc: Global,
    split: &Split,
    block: u32,
    d: &[i128],
) -> Result<Items<i128>, CheckFault>
    requires split { IsDecomposed split.now.model split.now.part }
    requires first { 0 < block }
    requires last { block ≤ blocks_of split.now.part }
    requires inside { 2 * width_of split.now.part block ≤ length d.now }
    requires nonnegative { (j : ℕ) → j < length d.now → pos 0 ≤ℤ entry d.now j }
    requires falls { IsFallAlong (floor split.now.model split.now.part block) (differences_of (entry d.now)) }
    ensures { Directs split.now.model split.now.part block (differences_of (entry d.now)) result }
{
    let direction = direction(alloc, split, block, d)?;
    let ray = placed(alloc, split, block, direction.as_slice())?;
    judge_ray(split, ray.as_slice())?;
    Ok(direction)
}
