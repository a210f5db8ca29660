//! Pivots towards a goal: a basis whose tableau is wanted.
ghost use Rattle.std.specs.Prelude.{◌≡◌, ◌≢◌, ◌<◌, ℕ, pos, false, IfOk, IfErr, OnErr, MatchOption, length};
ghost use Rattle.bz_algebra.specs.Tableaus.{IsWithin};
ghost use Rattle.bz_tableau.specs.Laws.{place};
ghost use Rattle.bz_tableau.specs.Pivots.{IsPivoted};
ghost use Rattle.bz_tableau.specs.Programs.{IsLp, program_of};
ghost use Rattle.bz_tableau.specs.Tables.{factor_column, shown, IsTableauOf};
ghost use Rattle.bz_lex.specs.Refusals.{IsFirstStop};
ghost use Rattle.bz_lex.specs.Shown.{HasPoint};
ghost use Rattle.bz_tableau.specs.Stops.{IsPointBasis};
ghost use Rattle.bz_lex.specs.Ways.{IsEntryIn, HasNoEntryIn, StandsIn, Stays, TakesPlace, IsBrought, IsWayRefusal, IsRefusedWay};

use crate::order::place_of;
use bz_num::Items;
use bz_tableau::{Lp, LpStop, Tableau, WideAt};
use std::alloc::Global;

/// The pivot, whose refusal names the goal in place of the tableau's own basis. Where it is refused, the tableau is as
/// before.
pub fn pivot_towards(
    alloc: Global,
    tableau: &mut Tableau,
    row: u32,
    column: u32,
    goal: &[u32],
) -> Result<(), LpStop>
    requires row { row < length tableau.old.basis }
    requires column { column < factor_column tableau.old }
    requires nonzero { shown tableau.old row column ≢ pos 0 }
    ensures pivoted { IfOk result (λ _. IsPivoted tableau.old row column tableau.new) }
    ensures refused { IfErr result (λ stop. IsWayRefusal tableau.old row column goal.now stop) }
    ensures unchanged { OnErr result (tableau.new ≡ tableau.old) }
{
    match tableau.pivot(alloc, row, column) {
        Err(
            LpStop::Wide(
                WideAt::Pivot {
                    relaxed,
                    basis,
                    row,
                    pivot_row,
                    column,
                    ..
                },
            ),
        ) => {
            let goal = Vec::from_slice(alloc, goal)?;
            Err(LpStop::Wide(WideAt::Pivot {
                relaxed,
                basis,
                goal: Items::from_vec(goal),
                row,
                pivot_row,
                column,
            }))
        },
        outcome => outcome,
    }
}

// A column of the goal in which the row has an entry.
fn find_entry_in(tableau: &Tableau, row: u32, goal: &[u32]) -> Option<u32>
    requires row { row < length tableau.now.basis }
    requires goal { (k : ℕ) → k < length goal.now → place goal.now k < factor_column tableau.now }
    ensures { MatchOption result
        (HasNoEntryIn tableau.now row goal.now)
        (λ column. IsEntryIn tableau.now row goal.now column) }
{
    for k in 0..goal.len() {
        if tableau.entry(row, goal[k]) != 0 {
            return Some(goal[k]);
        }
    }
    None
}

// The column of the goal that takes the row's place, unless the row's own column stands in the goal.
fn column_towards(tableau: &Tableau, row: u32, goal: &[u32]) -> Option<u32>
    requires row { row < length tableau.now.basis }
    requires goal { (k : ℕ) → k < length goal.now → place goal.now k < factor_column tableau.now }
    ensures { MatchOption result
        (Stays tableau.now row goal.now)
        (λ column. TakesPlace tableau.now row goal.now column) }
{
    match place_of(goal, tableau.basis()[row as usize]) {
        Some(_) => None,
        None => find_entry_in(tableau, row, goal),
    }
}

// A column of the goal gets the row's place in the basis, where the row's own column isn't of the goal.
fn bring(alloc: Global, tableau: &mut Tableau, row: u32, goal: &[u32]) -> Result<(), LpStop>
    requires row { row < length tableau.old.basis }
    requires goal { (k : ℕ) → k < length goal.now → place goal.now k < factor_column tableau.old }
    ensures brought { IfOk result (λ _. IsBrought tableau.old row goal.now tableau.new) }
    ensures refused { IfErr result (λ stop. IsRefusedWay tableau.old row goal.now stop) }
{
    match column_towards(tableau, row, goal) {
        Some(column) => pivot_towards(alloc, tableau, row, column, goal),
        None => Ok(()),
    }
}

/// The tableau of the program at the columns of the goal, a basis without a negative right side.
pub fn tableau_at(alloc: Global, lp: &Lp, goal: &[u32]) -> Result<Tableau, LpStop>
    requires lp { IsLp lp.now }
    requires goal { IsPointBasis false (program_of lp.now) goal.now }
    ensures tableau { IfOk result (λ t. IsTableauOf false lp.now t) }
    ensures columns { IfOk result (λ t. IsWithin (length t.basis) (place t.basis) (place goal.now)) }
    ensures point { IfOk result (λ t. HasPoint t) }
    ensures refused { IfErr result (λ stop. IsFirstStop lp.now stop) }
{
    let mut tableau = Tableau::new(alloc, lp, false)?;
    let rows = tableau.rows();
    for row in 0..rows {
        bring(alloc, &mut tableau, row, goal)?;
    }
    Ok(tableau)
}
