//! The answer of a basis, read from its tableau.
ghost use Rattle.std.specs.Prelude.{◌<◌, ◌^◌, IfOk, IfErr, IfSome};
ghost use Rattle.bz_tableau.specs.Programs.{IsLp};
ghost use Rattle.bz_tableau.specs.Tables.{IsTableauOf};
ghost use Rattle.bz_tableau.specs.Answers.{AnswersBasis};
ghost use Rattle.bz_lex.specs.Refusals.{NamesFirstPlace, IsAnswerRefusal, LacksSigns, HasNoWidePlace};
ghost use Rattle.bz_lex.specs.Shown.{AnswersShown};

use crate::least::least_answer;
use crate::ray::ray_answer;
use crate::signs::{first_fall, has_least_cost, has_point};
use bz_num::Items;
use bz_tableau::{Answer, Lp, LpStop, Tableau, WideAt};
use std::alloc::{AllocError, Global};

// The answer, or the refusal that names the place.
fn answered(
    alloc: Global,
    relaxed: bool,
    basis: &[u32],
    outcome: Result<Answer, usize>,
) -> Result<Option<Answer>, LpStop>
    requires { IfErr outcome (λ place. place < 2 ^ 32) }
    ensures { AnswersShown relaxed basis.now outcome result }
{
    match outcome {
        Ok(answer) => Ok(Some(answer)),
        Err(place) => {
            let own = Vec::from_slice(alloc, basis)?;
            Err(LpStop::Wide(WideAt::Den {
                relaxed,
                basis: Items::from_vec(own),
                place: place as u32,
            }))
        },
    }
}

/// The answer of the tableau's basis, where it has one: a point of least cost, or a ray of a program that is not
/// relaxed. There is none only where the basis lacks the signs of an answer. It is refused where the common denominator
/// of the basic columns is wide, or over it a number of the point or, before its common divisor is taken out, of the
/// ray's direction; and by want of memory.
pub fn answer_at(
    alloc: Global,
    lp: &Lp,
    relaxed: bool,
    tableau: &Tableau,
) -> Result<Option<Answer>, LpStop>
    requires lp { IsLp lp.now }
    requires tableau { IsTableauOf relaxed lp.now tableau.now }
    ensures answer { IfOk result (λ outcome. AnswersBasis relaxed lp.now tableau.now.basis outcome) }
    ensures signs { IfOk result (λ outcome. LacksSigns relaxed lp.now tableau.now.basis outcome) }
    ensures narrow { IfOk result (λ outcome. IfSome outcome (λ _. HasNoWidePlace relaxed lp.now tableau.now.basis)) }
    ensures refused { IfErr result (λ stop. IsAnswerRefusal relaxed lp.now tableau.now.basis stop) }
    ensures first { IfErr result (λ stop. NamesFirstPlace lp.now stop) }
{
    if !has_point(tableau) {
        return Ok(None);
    }
    if has_least_cost(tableau) {
        let outcome = least_answer(alloc, tableau)?;
        return answered(alloc, relaxed, tableau.basis(), outcome);
    }
    if relaxed {
        return Ok(None);
    }
    match first_fall(tableau) {
        Some(column) => {
            let outcome = ray_answer(alloc, tableau, column)?;
            answered(alloc, relaxed, tableau.basis(), outcome)
        },
        None => Ok(None),
    }
}
