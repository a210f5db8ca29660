//! From a relaxed program's point with s at 0 to a basis of the program itself.
ghost use Rattle.std.specs.Prelude.{◌≡◌, ◌≢◌, ◌<◌, ℕ, pos, true, false, IfOk, IfErr, MatchBool, MatchOption, length};
ghost use Rattle.bz_tableau.specs.Laws.{place};
ghost use Rattle.bz_tableau.specs.Programs.{IsLp, program_of};
ghost use Rattle.bz_tableau.specs.Tables.{factor_column, shown, IsTableauOf};
ghost use Rattle.bz_lex.specs.Refusals.{IsFirstStop};
ghost use Rattle.bz_lex.specs.Renumbering.{unrelaxed};
ghost use Rattle.bz_lex.specs.Shown.{HasPoint};
ghost use Rattle.bz_tableau.specs.Stops.{IsPointBasis};
ghost use Rattle.bz_lex.specs.Ways.{right_side, IsOtherEntry, HasNoOtherEntry, IsRenumbered};

use crate::order::place_of;
use crate::towards::tableau_at;
use bz_tableau::{Lp, LpStop, Tableau};
use std::alloc::{AllocError, Global};

// Whether the row has an entry in the column j, which isn't the other column.
fn is_other_entry(tableau: &Tableau, row: u32, other: u32, j: u32) -> bool
    requires row { row < length tableau.now.basis }
    requires column { j < factor_column tableau.now }
    ensures { MatchBool result (IsOtherEntry tableau.now row other j) (IsOtherEntry tableau.now row other j → ⊥) }
{
    j != other && tableau.entry(row, j) != 0
}

// A column but the other one in which the row has an entry.
fn find_other_entry(tableau: &Tableau, row: u32, other: u32) -> Option<u32>
    requires { row < length tableau.now.basis }
    ensures { MatchOption result
        (HasNoOtherEntry tableau.now row other)
        (λ column. IsOtherEntry tableau.now row other column) }
{
    for j in 0..tableau.columns() {
        if is_other_entry(tableau, row, other, j) {
            return Some(j);
        }
    }
    None
}

// The column s leaves, where it is basic; its row has the right side 0, so that no right side changes.
fn leave_s(alloc: Global, lp: &Lp, tableau: &mut Tableau) -> Result<(), LpStop>
    requires lp { IsLp lp.now }
    requires tableau { IsTableauOf true lp.now tableau.old }
    requires point { HasPoint tableau.old }
    requires zero { right_side tableau.old (length tableau.old.basis) ≡ pos 0 }
    ensures tableau { IfOk result (λ _. IsTableauOf true lp.now tableau.new) }
    ensures point { IfOk result (λ _. HasPoint tableau.new) }
    ensures left { IfOk result (λ _.
        (i : ℕ) → i < length tableau.new.basis → place tableau.new.basis i ≢ lp.now.columns) }
    ensures refused { IfErr result (λ stop. IsFirstStop lp.now stop) }
{
    match place_of(tableau.basis(), lp.columns) {
        Some(row) => match find_other_entry(tableau, row as u32, lp.columns) {
            Some(column) => tableau.pivot(alloc, row as u32, column),
            None => unreachable!(),
        },
        None => Ok(()),
    }
}

// The number in the program of a column of its relaxed program.
fn unrelaxed_number(s: u32, column: u32) -> u32
    requires { column ≢ s }
    ensures { result ≡ unrelaxed s column }
{
    if column < s { column } else { column - 1 }
}

// The columns of the basis by their numbers in the program itself.
fn renumbered(alloc: Global, s: u32, basis: &[u32]) -> Result<Vec<u32>, AllocError>
    requires { (i : ℕ) → i < length basis.now → place basis.now i ≢ s }
    ensures { IfOk result (λ goal. IsRenumbered s basis.now goal.items) }
{
    let mut goal = Vec::with_capacity(alloc, basis.len())?;
    for i in 0..basis.len() {
        goal.push(unrelaxed_number(s, basis[i]))?;
    }
    Ok(goal)
}

// The basis of the program, without a negative right side, that the relaxed program's tableau shows.
fn feasible_basis(alloc: Global, lp: &Lp, mut tableau: Tableau) -> Result<Vec<u32>, LpStop>
    requires lp { IsLp lp.now }
    requires tableau { IsTableauOf true lp.now tableau }
    requires point { HasPoint tableau }
    requires zero { right_side tableau (length tableau.basis) ≡ pos 0 }
    ensures goal { IfOk result (λ goal. IsPointBasis false (program_of lp.now) goal.items) }
    ensures refused { IfErr result (λ stop. IsFirstStop lp.now stop) }
{
    leave_s(alloc, lp, &mut tableau)?;
    let goal = renumbered(alloc, lp.columns, tableau.basis())?;
    Ok(goal)
}

/// A tableau of the program without a negative right side, from one of the relaxed program whose s is 0.
pub fn feasible_start(alloc: Global, lp: &Lp, relaxed: Tableau) -> Result<Tableau, LpStop>
    requires lp { IsLp lp.now }
    requires tableau { IsTableauOf true lp.now relaxed }
    requires point { HasPoint relaxed }
    requires zero { right_side relaxed (length relaxed.basis) ≡ pos 0 }
    ensures tableau { IfOk result (λ t. IsTableauOf false lp.now t) }
    ensures point { IfOk result (λ t. HasPoint t) }
    ensures refused { IfErr result (λ stop. IsFirstStop lp.now stop) }
{
    let goal = feasible_basis(alloc, lp, relaxed)?;
    tableau_at(alloc, lp, goal.as_slice())
}
