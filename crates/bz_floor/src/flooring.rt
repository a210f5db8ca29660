//! The floor of a block.
ghost use Rattle.std.specs.Prelude.{◌≡◌, ◌<◌, ◌≤◌, IfErr, IfOk};
ghost use Rattle.bz_model.specs.Decomposed.{IsDecomposed};
ghost use Rattle.bz_model.specs.Parting.{blocks_of};
ghost use Rattle.bz_tableau.specs.Programs.{IsLp};
ghost use Rattle.bz_std.specs.Posed.{IsProgramOf};
ghost use Rattle.bz_std.specs.Tasks.{floor as floor_of};
ghost use Rattle.bz_event.specs.Floors.{SolvesFloor};
ghost use Rattle.bz_event.specs.Stops.{EndsFloor};
ghost use Rattle.bz_floor.specs.Outcomes.{Answers};

use crate::directions::judged_direction;
use crate::outcomes::{cut_answer, ray_answer};
use bz_event::{FloorAnswer, Solved, TaskName, TaskStop, carry};
use bz_lex::solve;
use bz_model::Split;
use bz_std::{fitting_cut, floor_lp};
use bz_tableau::{Answer, Lp, LpStop};
use std::alloc::Global;

/// A split's model may be solved by its partition. It does nothing else than say so.
fn decomposed(split: &Split)
    ensures { IsDecomposed split.now.model split.now.part }
{
    let _blocks = split.blocks();
}

/// What the program of the floor comes to: the cut of a basis that shows a least cost, or a direction along which the
/// cost falls.
fn find_answer(alloc: Global, split: &Split, block: u32, lp: &Lp) -> Result<FloorAnswer, LpStop>
    requires first { 0 < block }
    requires last { block ≤ blocks_of split.now.part }
    requires program { IsProgramOf (floor_of split.now.model split.now.part block) lp.now }
    requires is_lp { IsLp lp.now }
    ensures { Answers split.now.model split.now.part block lp.now result }
{
    decomposed(split);
    match solve(alloc, lp)? {
        Answer::Least { basis, y, .. } => {
            let made = fitting_cut(alloc, split, block, y.num.as_slice(), y.den);
            cut_answer(basis, made)
        },
        Answer::Ray {
            basis,
            column,
            d,
            ..
        } => {
            let made = judged_direction(alloc, split, block, d.as_slice());
            ray_answer(basis, column, made)
        },
        Answer::Empty { .. } => unreachable!(),
    }
}

/// The floor of a block: a cut with a number above 0 at the block's eta, where its cost has a least value along every
/// direction, and else a direction along which none of its inequalities rises and its cost falls. Where a number goes
/// wide it names the place. For want of memory there is no answer.
pub fn floor(alloc: Global, split: &Split, block: u32) -> Result<Solved<FloorAnswer>, TaskStop>
    requires first { 0 < block }
    requires last { block ≤ blocks_of split.now.part }
    ensures solved { IfOk result (SolvesFloor split.now.model split.now.part block) }
    ensures stopped { IfErr result (EndsFloor split.now.model split.now.part block) }
{
    let lp = floor_lp(alloc, split, block)?;
    let found = find_answer(alloc, split, block, &lp);
    carry(TaskName::Floor { block }, None, lp, found)
}
