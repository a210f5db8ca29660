//! The basic columns before the slacks, in rising order.
ghost use Rattle.std.specs.Prelude.{◌≡◌, ◌≢◌, ◌<◌, ℕ, IfOk, MatchOption, length};
ghost use Rattle.bz_tableau.specs.Laws.{place};
ghost use Rattle.bz_lex.specs.Shown.{IsShownOrder};

use bz_tableau::Tableau;
use std::alloc::{AllocError, Global};

/// The place of a column in the basis.
pub fn place_of(basis: &[u32], column: u32) -> Option<usize>
    ensures { MatchOption result
        ((i : ℕ) → i < length basis.now → place basis.now i ≢ column)
        (λ i. (i < length basis.now) × (place basis.now i ≡ column)) }
{
    for i in 0..basis.len() {
        if basis[i] == column {
            return Some(i);
        }
    }
    None
}

/// The places of the basis whose columns are before the slacks, in the rising order of the columns.
pub fn rising_order(alloc: Global, tableau: &Tableau) -> Result<Vec<u32>, AllocError>
    ensures { IfOk result (λ order. IsShownOrder tableau.now order.items) }
{
    let mut order = Vec::with_capacity(alloc, tableau.rows() as usize)?;
    for j in 0..tableau.slack() {
        let Some(i) = place_of(tableau.basis(), j) else {
            continue;
        };
        order.push(i as u32)?;
    }
    Ok(order)
}
