//! By what is carried for a floor is refused, and what all judges ask for.
ghost use Rattle.std.specs.Prelude.{◌↔◌, ◌∷◌, [], IsTrue};
ghost use Rattle.bz_first.specs.Tests.{Judges};
ghost use Rattle.bz_rules.specs.Rules.{IsBlock, floor_rules, is_running};

use crate::refused::Refused;
use bz_first::judge;
use bz_model::Split;
use bz_state::Progress;
use bz_std::is_floor_lp;
use bz_tableau::Lp;

/// Tests that the search isn't done; else its last entry ended it.
pub(crate) fn judge_running(progress: &Progress) -> Result<(), Refused>
    ensures { Judges (is_running progress.now.state ∷ []) result }
{
    if progress.is_done() {
        return Err(Refused::Late {
            ended_by: progress.entries().saturating_sub(1),
        });
    }
    Ok(())
}

/// Whether the block is one of the split's.
pub(crate) fn has_block(split: &Split, block: u32) -> bool
    ensures { IsTrue result ↔ IsBlock split.now block }
{
    0 < block && block <= split.blocks()
}

/// Judges what is carried for the floor of a block.
pub fn judge_floor(split: &Split, progress: &Progress, block: u32, lp: &Lp) -> Result<(), Refused>
    ensures { Judges (floor_rules split.now progress.now.state block lp.now) result }
{
    judge_running(progress)?;
    if !has_block(split, block) {
        return Err(Refused::Unfit);
    }
    let floors = progress.floors();
    if block as usize <= floors.len() {
        return Err(Refused::Late {
            ended_by: floors[block as usize - 1],
        });
    }
    if let Some(ray) = progress.ray() {
        return Err(Refused::Late { ended_by: ray.at });
    }
    if block as usize != floors.len() + 1 {
        return Err(Refused::Unfit);
    }
    judge(is_floor_lp(split, block, lp), Refused::Unfit)
}
