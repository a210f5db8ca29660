//! The start of a relaxed program: its column s enters where a right side is negative.
ghost use Rattle.std.specs.Prelude.{◌≡◌, ◌<◌, ◌+◌, ℕ, true, IfOk, IfErr, length, slice_set};
ghost use Rattle.bz_tableau.specs.Laws.{place};
ghost use Rattle.bz_tableau.specs.Programs.{IsLp};
ghost use Rattle.bz_tableau.specs.Tables.{IsTableauOf};
ghost use Rattle.bz_lex.specs.Refusals.{IsFirstRelaxedStop};
ghost use Rattle.bz_lex.specs.Shown.{HasPoint};
ghost use Rattle.bz_lex.specs.Ways.{IsLeastRightTo, LeastRightTo};

use crate::towards::pivot_towards;
use bz_tableau::{Lp, LpStop, Tableau};
use std::alloc::{AllocError, Global};

// Of the row of the least right side and row i the one whose right side is less, the former where they are equal.
fn lower(tableau: &Tableau, least: Option<u32>, i: u32) -> Option<u32>
    requires row { i < length tableau.now.basis }
    requires least { LeastRightTo i tableau.now least }
    ensures { LeastRightTo (i + 1) tableau.now result }
{
    let right = tableau.right(i);
    match least {
        Some(row) => if right < tableau.right(row) {
            Some(i)
        } else {
            Some(row)
        },
        None => if right < 0 { Some(i) } else { None },
    }
}

/// The first row of the least right side, where a right side is negative.
pub fn least_right_side(tableau: &Tableau) -> Option<u32>
    ensures { LeastRightTo (length tableau.now.basis) tableau.now result }
{
    let mut least = None;
    for i in 0..tableau.rows() {
        least = lower(tableau, least, i);
    }
    least
}

// The basis with the column at the place of the row.
fn with_column(alloc: Global, basis: &[u32], row: u32, column: u32) -> Result<Vec<u32>, AllocError>
    requires row { row < length basis.now }
    ensures { IfOk result (λ goal. goal.items ≡ slice_set basis.now row column) }
{
    let mut goal = Vec::from_slice(alloc, basis)?;
    goal[row as usize] = column;
    Ok(goal)
}

// The column s enters in the row of the least right side.
fn enter_s(alloc: Global, lp: &Lp, tableau: &mut Tableau, row: u32) -> Result<(), LpStop>
    requires tableau { IsTableauOf true lp.now tableau.old }
    requires slacks { (i : ℕ) → i < length tableau.old.basis → place tableau.old.basis i ≡ tableau.old.slack + i }
    requires least { IsLeastRightTo (length tableau.old.basis) tableau.old row }
    ensures tableau { IfOk result (λ _. IsTableauOf true lp.now tableau.new) }
    ensures point { IfOk result (λ _. HasPoint tableau.new) }
    ensures refused { IfErr result (λ stop. IsFirstRelaxedStop lp.now stop) }
{
    let goal = with_column(alloc, tableau.basis(), row, lp.columns)?;
    pivot_towards(alloc, tableau, row, lp.columns, goal.as_slice())
}

/// A tableau of the relaxed program without a negative right side.
pub fn relaxed_start(alloc: Global, lp: &Lp) -> Result<Tableau, LpStop>
    requires lp { IsLp lp.now }
    ensures tableau { IfOk result (λ t. IsTableauOf true lp.now t) }
    ensures point { IfOk result (λ t. HasPoint t) }
    ensures refused { IfErr result (λ stop. IsFirstRelaxedStop lp.now stop) }
{
    let mut tableau = Tableau::new(alloc, lp, true)?;
    match least_right_side(&tableau) {
        Some(row) => {
            enter_s(alloc, lp, &mut tableau, row)?;
            Ok(tableau)
        },
        None => Ok(tableau),
    }
}
