//! The separation of a block at a posted point.
ghost use Rattle.std.specs.Prelude.{◌≡◌, ◌<◌, ◌≤◌, pos, ◌<ℤ◌, ◌≤ℤ◌, IfErr, IfOk, MatchBool, length};
ghost use Rattle.bz_num.specs.Dense.{entry};
ghost use Rattle.bz_model.specs.Parting.{blocks_of};
ghost use Rattle.bz_tableau.specs.Programs.{IsLp};
ghost use Rattle.bz_std.specs.Tasks.{IsMasterOf, IsSeparationLp};
ghost use Rattle.bz_event.specs.Separations.{SolvesSeparation};
ghost use Rattle.bz_event.specs.Stops.{EndsSeparation};
ghost use Rattle.bz_sep.specs.Outcomes.{Answers};

use crate::cuts::eta_multiplier;
use crate::fills::judged_fill;
use crate::outcomes::{cut_answer, fill_answer, no_program, unbuilt_program};
use bz_event::{SepAnswer, SepTask, Solved, TaskName, TaskStop, carry};
use bz_lex::relax;
use bz_model::Split;
use bz_std::{fitting_cut, separation_lp};
use bz_tableau::{Answer, Lp, LpStop, Vals};
use std::alloc::Global;

/// Whether the least rise is above 0: the number of the column behind those of the program.
fn rises(lp: &Lp, z: &Vals) -> bool
    requires { lp.now.columns < length z.now.num }
    ensures { MatchBool result
        (pos 0 <ℤ entry z.now.num lp.now.columns)
        (entry z.now.num lp.now.columns ≤ℤ pos 0) }
{
    0 < z.num.as_slice()[lp.columns as usize]
}

/// What the program of the separation comes to: with a least rise above 0 the cut of the basis, else the block's part.
fn find_answer(alloc: Global, split: &Split, task: &SepTask, lp: &Lp) -> Result<SepAnswer, LpStop>
    requires first { 0 < task.now.block }
    requires last { task.now.block ≤ blocks_of split.now.part }
    requires point { IsMasterOf split.now.part task.now.point }
    requires program { IsSeparationLp
        split.now.model split.now.part task.now.point task.now.block task.now.mode lp.now }
    requires is_lp { IsLp lp.now }
    ensures { Answers split.now.model split.now.part task.now.block task.now.point task.now.mode lp.now result }
{
    let Answer::Least { basis, z, y } = relax(alloc, lp)? else {
        unreachable!()
    };
    let inequalities = split.inequalities(task.block).len();
    if rises(lp, &z) {
        let raw = eta_multiplier(task.mode, inequalities, y.num.as_slice());
        let made = fitting_cut(alloc, split, task.block, y.num.as_slice(), raw);
        cut_answer(basis, made)
    } else {
        fill_answer(basis, judged_fill(alloc, split, task, &z))
    }
}

/// The program of the separation, and what it comes to. Where a right side is wide there is none, and a program without
/// rows, columns and cost stands for it.
fn solve_program(alloc: Global, split: &Split, task: &SepTask) -> (Lp, Result<SepAnswer, LpStop>)
    requires first { 0 < task.now.block }
    requires last { task.now.block ≤ blocks_of split.now.part }
    requires point { IsMasterOf split.now.part task.now.point }
    ensures { Answers split.now.model split.now.part task.now.block task.now.point task.now.mode result.0 result.1 }
{
    match separation_lp(alloc, split, task.block, &task.point, task.mode) {
        Ok(lp) => {
            let found = find_answer(alloc, split, task, &lp);
            (lp, found)
        },
        Err(stop) => (no_program(alloc), Err(unbuilt_program(stop))),
    }
}

/// The separation of a block at a posted point: the cut that cuts the point off where it has no completion in the
/// block, in mode Cost at a cost of at most its eta, and else the block's part of a completion. Where a number goes
/// wide it names the place. For want of memory there is no answer.
pub fn separate(alloc: Global, split: &Split, task: &SepTask) -> Result<Solved<SepAnswer>, TaskStop>
    requires first { 0 < task.now.block }
    requires last { task.now.block ≤ blocks_of split.now.part }
    requires point { IsMasterOf split.now.part task.now.point }
    ensures solved { IfOk result (SolvesSeparation
        split.now.model split.now.part task.now.post task.now.block task.now.point task.now.mode) }
    ensures stopped { IfErr result (EndsSeparation
        split.now.model split.now.part task.now.post task.now.block task.now.point task.now.mode) }
{
    let point = task.point.copy(alloc)?;
    let (lp, found) = solve_program(alloc, split, task);
    let name = TaskName::Sep {
        post: task.post,
        block: task.block,
    };
    carry(name, Some(point), lp, found)
}
