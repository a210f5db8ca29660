//! Programs solved: the first phase finds a point, the second one of least cost.
ghost use Rattle.std.specs.Prelude.{◌≡◌, IfOk, IfErr, MatchBool, length, pos, ◌<ℤ◌, true, false};
ghost use Rattle.bz_tableau.specs.Programs.{IsLp, program_of};
ghost use Rattle.bz_tableau.specs.Tables.{IsTableauOf};
ghost use Rattle.bz_tableau.specs.Answers.{Answers, IsAnswer, NamesLeast};
ghost use Rattle.bz_tableau.specs.Stops.{IsTrueStop, IsTrueRelaxedStop};
ghost use Rattle.bz_lex.specs.Refusals.{IsFirstStop, IsFirstRelaxedStop, NamesFirstPlace};
ghost use Rattle.bz_lex.specs.Shown.{HasPoint, HasLeastCost, HasSlackPoint};
ghost use Rattle.bz_lex.specs.Ways.{right_side};

use crate::answering::answer_at;
use crate::phase::{PhaseEnd, run_phase};
use crate::relaxing::relaxed_start;
use crate::unrelaxing::feasible_start;
use crate::values::multipliers;
use bz_num::Items;
use bz_tableau::{Answer, Lp, LpStop, Tableau};
use std::alloc::Global;

// The relaxed program's tableau of least s: the first phase.
fn relaxed_least(alloc: Global, lp: &Lp) -> Result<Tableau, LpStop>
    requires lp { IsLp lp.now }
    ensures tableau { IfOk result (λ t. IsTableauOf true lp.now t) }
    ensures point { IfOk result (λ t. HasPoint t) }
    ensures least { IfOk result (λ t. HasLeastCost t) }
    ensures refused { IfErr result (λ stop. IsFirstRelaxedStop lp.now stop) }
{
    let mut tableau = relaxed_start(alloc, lp)?;
    match run_phase(alloc, &mut tableau)? {
        PhaseEnd::Least => Ok(tableau),
        PhaseEnd::Falls { .. } => unreachable!(),
    }
}

// The multipliers that show that the program has no point: those of the objective row, where the least s is positive.
fn empty_answer(alloc: Global, lp: &Lp, relaxed: &Tableau) -> Result<Answer, LpStop>
    requires lp { IsLp lp.now }
    requires tableau { IsTableauOf true lp.now relaxed.now }
    requires least { HasLeastCost relaxed.now }
    requires low { right_side relaxed.now (length relaxed.now.basis) <ℤ pos 0 }
    ensures answers { IfOk result (λ a. Answers lp.now a) }
    ensures refused { IfErr result (λ stop. IsFirstStop lp.now stop) }
{
    let basis = Vec::from_slice(alloc, relaxed.basis())?;
    let y = multipliers(alloc, relaxed)?;
    Ok(Answer::Empty {
        basis: Items::from_vec(basis),
        y: Items::from_vec(y),
    })
}

// The answer at the end of the second phase.
fn finish(alloc: Global, lp: &Lp, mut tableau: Tableau) -> Result<Answer, LpStop>
    requires lp { IsLp lp.now }
    requires tableau { IsTableauOf false lp.now tableau }
    requires point { HasPoint tableau }
    ensures answers { IfOk result (λ a. Answers lp.now a) }
    ensures refused { IfErr result (λ stop. IsFirstStop lp.now stop) }
{
    run_phase(alloc, &mut tableau)?;
    match answer_at(alloc, lp, false, &tableau)? {
        Some(answer) => Ok(answer),
        None => unreachable!(),
    }
}

// Whether no right side is negative, so that the slacks' basis has a point.
fn has_slack_point(lp: &Lp) -> bool
    ensures { MatchBool result (HasSlackPoint lp.now) (HasSlackPoint lp.now → ⊥) }
{
    for row in lp.rows.as_slice() {
        if row.rhs < 0 {
            return false;
        }
    }
    true
}

/// What the program comes to: a point of least cost, no point, or a cost without bound, by a basis that shows it. It is
/// refused where a pivot on the way is wide or a number of the answer, which is named by its first wide place, and by
/// want of memory.
pub fn solve(alloc: Global, lp: &Lp) -> Result<Answer, LpStop>
    requires { IsLp lp.now }
    ensures answers { IfOk result (λ a. Answers lp.now a) }
    ensures refused { IfErr result (λ stop. IsTrueStop lp.now stop) }
    ensures first { IfErr result (λ stop. NamesFirstPlace lp.now stop) }
{
    if has_slack_point(lp) {
        let tableau = Tableau::new(alloc, lp, false)?;
        return finish(alloc, lp, tableau);
    }
    let relaxed = relaxed_least(alloc, lp)?;
    // The least s is minus this number over the row's factor.
    if relaxed.objective_right() < 0 {
        return empty_answer(alloc, lp, &relaxed);
    }
    let tableau = feasible_start(alloc, lp, relaxed)?;
    finish(alloc, lp, tableau)
}

/// The point of the relaxed program whose last number, s, is least: there is one always. It is refused where a pivot on
/// the way is wide or a number of the answer, which is named by its first wide place, and by want of memory.
pub fn relax(alloc: Global, lp: &Lp) -> Result<Answer, LpStop>
    requires { IsLp lp.now }
    ensures answers { IfOk result (λ a. IsAnswer true lp.now a) }
    ensures least { IfOk result (λ a. NamesLeast a) }
    ensures refused { IfErr result (λ stop. IsTrueRelaxedStop lp.now stop) }
    ensures first { IfErr result (λ stop. NamesFirstPlace lp.now stop) }
{
    let tableau = relaxed_least(alloc, lp)?;
    match answer_at(alloc, lp, true, &tableau)? {
        Some(answer) => Ok(answer),
        None => unreachable!(),
    }
}
