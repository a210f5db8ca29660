//! The report of a search, by what it has come to.
ghost use Rattle.std.specs.Prelude.{◌≡◌, ◌≢◌, ◌++◌, IfOk, IfSome, OnOk};
ghost use Rattle.std.specs.Option.{option_copied};
ghost use Rattle.bz_history.specs.declared.state.Outcome.TheVariants as outcome;
ghost use Rattle.bz_history.specs.Outcomes.{outcome_of};
ghost use Rattle.bz_core.specs.Bests.{IsBestParts};
ghost use Rattle.bz_core.specs.Searches.{now};
ghost use Rattle.bz_report.specs.Pages.{Adds};
ghost use Rattle.bz_report.specs.Reports.{best_text, budget_line, direction_where, optimal_text, point_where, report_text, unbounded_text};
ghost use Rattle.bz_report.specs.Values.{HasObjective, HasValues};
ghost use Rattle.bz_certify.specs.Finished.{HasPlaces};

use crate::pages::Page;
use crate::points::{add_direction, add_objective, add_point};
use crate::stops::add_last;
use bz_core::Search;
use bz_history::{FallingRay, Outcome};
use bz_model::{Parts, Split};
use bz_num::OutOfMemory;
use bz_text::Piece::{Count, Text};
use std::alloc::Global;

/// Adds an optimum.
fn add_optimal(page: &mut Page, split: &Split, best: &Option<Parts>) -> Result<(), OutOfMemory>
    requires values { IfSome best.now (HasValues split.now) }
    requires objective { IfSome best.now (HasObjective split.now) }
    ensures { OnOk result (Adds page.old (optimal_text split.now best.now) page.new) }
{
    page.add_line(b"verdict optimal")?;
    let Some(parts) = best else {
        return Ok(());
    };
    add_objective(page, b"objective", split, parts)?;
    add_point(page, split, parts)
}

/// Adds the best point, where there is one.
fn add_best_point(page: &mut Page, split: &Split, best: &Option<Parts>) -> Result<(), OutOfMemory>
    requires { IfSome best.now (HasValues split.now) }
    ensures { OnOk result (Adds page.old (point_where split.now best.now) page.new) }
{
    match best {
        Some(parts) => add_point(page, split, parts),
        None => Ok(()),
    }
}

/// Adds the direction, where there is one.
fn add_ray(
    alloc: Global,
    page: &mut Page,
    split: &Split,
    ray: Option<&FallingRay>,
) -> Result<(), OutOfMemory>
    requires { IfSome (option_copied ray) (HasPlaces split.now) }
    ensures { OnOk result (Adds page.old (direction_where split.now (option_copied ray.entry)) page.new) }
{
    match ray {
        Some(ray) => add_direction(alloc, page, split, ray),
        None => Ok(()),
    }
}

/// Adds a point, and a direction along which the objective has no limit.
fn add_unbounded(
    alloc: Global,
    page: &mut Page,
    split: &Split,
    best: &Option<Parts>,
    ray: Option<&FallingRay>,
) -> Result<(), OutOfMemory>
    requires values { IfSome best.now (HasValues split.now) }
    requires places { IfSome (option_copied ray) (HasPlaces split.now) }
    ensures { OnOk result (Adds page.old (unbounded_text split.now best.now (option_copied ray.entry)) page.new) }
{
    page.add_line(b"verdict unbounded")?;
    add_best_point(page, split, best)?;
    add_ray(alloc, page, split, ray)
}

/// Adds how many units are spent, and of how many.
fn add_spent(page: &mut Page, units: u32, budget: u32) -> Result<(), OutOfMemory>
    ensures { OnOk result (Adds page.old (budget_line units budget) page.new) }
{
    page.add(&[
        Text(b"unresolved budget "),
        Count(units as usize),
        Text(b" of "),
        Count(budget as usize),
        Text(b"\n"),
    ])
}

/// Adds the best point of a search that stopped, or that there is none.
fn add_best(page: &mut Page, split: &Split, best: &Option<Parts>) -> Result<(), OutOfMemory>
    requires values { IfSome best.now (HasValues split.now) }
    requires objective { IfSome best.now (HasObjective split.now) }
    ensures { OnOk result (Adds page.old (best_text split.now best.now) page.new) }
{
    let Some(parts) = best else {
        return page.add_line(b"best none");
    };
    add_objective(page, b"best", split, parts)?;
    add_point(page, split, parts)
}

/// Adds what the search has come to, with its best parts.
fn add_report(
    alloc: Global,
    page: &mut Page,
    search: &Search,
    best: &Option<Parts>,
) -> Result<(), OutOfMemory>
    requires over { outcome_of (now search.now) ≢ outcome.Running }
    requires best { IsBestParts (now search.now) best.now }
    ensures { OnOk result
        (Adds page.old (report_text search.now.split search.now.budget (now search.now) search.now.history) page.new) }
{
    let split = search.split();
    let history = search.history();
    match search.outcome() {
        Outcome::Running => unreachable!(),
        Outcome::Optimal => add_optimal(page, split, best),
        Outcome::Infeasible => page.add_line(b"verdict infeasible"),
        Outcome::Unbounded => add_unbounded(alloc, page, split, best, search.ray()),
        Outcome::Budget => {
            add_spent(page, search.units(), search.budget())?;
            add_best(page, split, best)
        },
        Outcome::Wide => {
            add_last(page, history)?;
            add_best(page, split, best)
        },
    }
}

/// The text of the search's report. It is there once the search has come to something.
pub fn report(alloc: Global, search: &Search) -> Result<Vec<u8>, OutOfMemory>
    requires { outcome_of (now search.now) ≢ outcome.Running }
    ensures { IfOk result
        (λ text. text.items ≡ report_text search.now.split search.now.budget (now search.now) search.now.history) }
{
    let best = search.best()?;
    let mut page = Page::new(alloc);
    add_report(alloc, &mut page, search, &best)?;
    Ok(page.into_text())
}
