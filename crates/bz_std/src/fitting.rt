//! The cut that an answer of a block's program makes, where it fits.
ghost use Rattle.std.specs.Prelude.{◌≡◌, ◌<◌, ◌≤◌, IfErr, IfOk, length};
ghost use Rattle.bz_num.specs.Dense.{entry};
ghost use Rattle.bz_model.specs.Parting.{blocks_of, inequalities_of};
ghost use Rattle.bz_std.specs.CutsFrom.{BalancesCost, IsNoCut};
ghost use Rattle.bz_std.specs.Fitting.{IsFittingCut, StopsFitting};

use crate::cuts::made_cut;
use crate::making::MakeStop;
use bz_cut::{Cut, fits_and_valid};
use bz_model::Split;
use std::alloc::Global;

/// The cut of a block that the multipliers y of its inequalities make, with `raw` at its eta, which balance the block's
/// cost so that the cut is valid. Where a sum or a product is wide that tells so there is none.
pub fn fitting_cut(
    alloc: Global,
    split: &Split,
    block: u32,
    y: &[i128],
    raw: i128,
) -> Result<Cut, MakeStop>
    requires first { 0 < block }
    requires last { block ≤ blocks_of split.now.part }
    requires inside { length (inequalities_of split.now.model split.now.part block) ≤ length y.now }
    requires balanced { BalancesCost split.now.model split.now.part block (entry y.now) raw }
    requires some { IsNoCut split.now.model split.now.part block (entry y.now) raw → ⊥ }
    ensures cut { IfOk result (IsFittingCut split.now.model split.now.part block (entry y.now) raw) }
    ensures stop { IfErr result (StopsFitting split.now.model split.now.part block (entry y.now) raw) }
{
    let cut = made_cut(alloc, split, block, y, raw)?;
    if !fits_and_valid(split, &cut) {
        return Err(MakeStop::Wide);
    }
    Ok(cut)
}
