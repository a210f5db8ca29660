//! Whether the lists of a certificate's point fit the split.
ghost use Rattle.std.specs.Prelude.{◌≡◌, ◌↔◌, ◌≤◌, [], ◌∷◌, IsTrue, length};
ghost use Rattle.std.specs.List.{AllByRecursion, enumerate_from};
ghost use Rattle.bz_model.specs.Limits.{block_limit};
ghost use Rattle.bz_model.specs.Parting.{blocks_of};
ghost use Rattle.bz_first.specs.Tests.{Judges, test};
ghost use Rattle.bz_model.specs.PartPoints.{HasBlockShape, HasMasterShape, HasPointShape, HasShape};
ghost use Rattle.bz_check.specs.CheckTests.{HasRayShape};
ghost use Rattle.bz_judge.specs.declared.CheckFault.TheVariants.{Shape};

use bz_judge::CheckFault;
use bz_model::{BlockPart, Master, Parts, Split};

/// Whether the numbers of block `b` are as many as its columns, over a positive denominator.
fn block_has_shape(split: &Split, b: u32, block: &BlockPart) -> bool
    requires { b ≤ blocks_of split.now.part }
    ensures { IsTrue result ↔ HasBlockShape split.now.part (b, block.now) }
{
    0 < block.times && block.y.as_slice().len() == split.width(b) as usize
}

/// The same of all blocks.
fn blocks_have_shape(split: &Split, blocks: &[BlockPart]) -> bool
    requires fits { length blocks.now ≡ blocks_of split.now.part }
    requires few { length blocks.now ≤ block_limit }
    ensures { IsTrue result ↔ AllByRecursion (HasBlockShape split.now.part) (enumerate_from 1 blocks.now) }
{
    for (place, block) in blocks.iter().enumerate() {
        if !block_has_shape(split, place as u32 + 1, block) {
            return false;
        }
    }
    true
}

/// Whether the master's numbers are as many as its columns, over a positive denominator.
fn master_has_shape(split: &Split, master: &Master) -> bool
    ensures { IsTrue result ↔ HasMasterShape split.now.part master.now }
{
    0 < master.den && master.x.as_slice().len() == split.width(0) as usize
}

/// Whether the lists of the point fit the split, over positive denominators, whatever the etas are.
fn has_point_shape(split: &Split, parts: &Parts) -> bool
    ensures { IsTrue result ↔ HasPointShape split.now.model split.now.part parts.now }
{
    let blocks = parts.blocks.as_slice();
    if blocks.len() != split.blocks() as usize {
        return false;
    }
    master_has_shape(split, &parts.master) && blocks_have_shape(split, blocks)
}

/// Whether the lists fit the split, one eta for each block among them, over positive denominators.
fn has_shape(split: &Split, parts: &Parts) -> bool
    ensures { IsTrue result ↔ HasShape split.now.model split.now.part parts.now }
{
    parts.master.eta.as_slice().len() == split.blocks() as usize && has_point_shape(split, parts)
}

/// Tests that the lists of an optimal point fit the split.
pub fn judge_shape(split: &Split, parts: &Parts) -> Result<(), CheckFault>
    ensures { Judges (test Shape (HasShape split.now.model split.now.part parts.now) ∷ []) result }
{
    if has_shape(split, parts) {
        Ok(())
    } else {
        Err(CheckFault::Shape)
    }
}

/// Tests that the lists of a point and the direction fit the split.
pub fn judge_ray_shape(split: &Split, parts: &Parts, ray: &[i128]) -> Result<(), CheckFault>
    ensures { Judges (test Shape (HasRayShape split.now.model split.now.part parts.now ray.now) ∷ []) result }
{
    if has_point_shape(split, parts) && ray.len() == split.model().columns.as_slice().len() {
        Ok(())
    } else {
        Err(CheckFault::Shape)
    }
}
