//! The leaf of an answer, where its sums fit.
ghost use Rattle.std.specs.Prelude.{◌≡◌, IfErr, IfOk, MatchBool};
ghost use Rattle.bz_num.specs.Dense.{entry};
ghost use Rattle.bz_cut.specs.declared.Mode.TheVariants as mode;
ghost use Rattle.bz_node.specs.NodePrograms.{AreLeafNumbers, FitsIn, HasCostLeaf, HoldsIn, IsFittingLeaf, IsNodeProgram, StopsCostLeaf, StopsFitting, mode_of};

use crate::programs::NodeProgram;
use bz_cut::Mode;
use bz_judge::judge_leaf;
use bz_model::Terms;
use bz_std::{MakeStop, made_leaf};
use bz_tableau::Vals;
use bz_tree::{Leaf, Sides};
use std::alloc::Global;

/// Whether no sum or product of a leaf that holds is wide.
fn fits(program: &NodeProgram<'_>, leaf: &Leaf) -> bool
    requires program { IsNodeProgram program.now }
    requires holds { HoldsIn program.now leaf.now }
    ensures { MatchBool result (FitsIn program.now leaf.now) (FitsIn program.now leaf.now → ⊥) }
{
    let region = &program.task.region;
    let sides = Sides {
        rows: program.split.inequalities(0),
        entries: program.split.entries(0, Terms::Own),
        positions: program.positions,
        lower: region.lower.as_slice(),
        upper: region.upper.as_slice(),
        cuts: program.task.cuts.as_slice(),
    };
    judge_leaf(program.split, &sides, 0, leaf).is_ok()
}

/// The leaf that the multipliers y of the program's rows make over `by`. Where a sum or a product is wide that tells
/// that it holds there is none.
pub(crate) fn fitting_leaf(
    alloc: Global,
    program: &NodeProgram<'_>,
    y: &[i128],
    by: i128,
) -> Result<Leaf, MakeStop>
    requires program { IsNodeProgram program.now }
    requires numbers { AreLeafNumbers program.now y.now by }
    ensures leaf { IfOk result (IsFittingLeaf program.now (mode_of program.now) (entry y.now) by) }
    ensures stop { IfErr result (StopsFitting program.now (entry y.now) by) }
{
    let leaf = made_leaf(alloc, program.lp, y, by)?;
    if !fits(program, &leaf) {
        return Err(MakeStop::Wide);
    }
    Ok(leaf)
}

/// In mode Cost the leaf of the multipliers of a least point, whose bound over its delta is the point's cost.
pub(crate) fn cost_leaf(
    alloc: Global,
    program: &NodeProgram<'_>,
    y: &Vals,
) -> Result<Option<Leaf>, MakeStop>
    requires program { IsNodeProgram program.now }
    requires numbers { mode_of program.now ≡ mode.Cost → AreLeafNumbers program.now y.now.num y.now.den }
    ensures leaf { IfOk result (HasCostLeaf program.now (mode_of program.now) y.now) }
    ensures stop { IfErr result (StopsCostLeaf program.now (mode_of program.now) y.now) }
{
    match program.task.mode {
        Mode::Cost => {
            let leaf = fitting_leaf(alloc, program, y.num.as_slice(), y.den)?;
            Ok(Some(leaf))
        },
        Mode::Point => Ok(None),
    }
}
