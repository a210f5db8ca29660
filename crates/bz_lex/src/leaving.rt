//! The row that leaves the basis.
ghost use Rattle.std.specs.Prelude.{◌≡◌, ◌<◌, ◌≤◌, ℕ, suc, pos, ◌<ℤ◌, MatchOption, length};
ghost use Rattle.std.specs.Ordering.{MatchOrdering};
ghost use Rattle.bz_algebra.specs.Numbers.{IsNarrow};
ghost use Rattle.bz_tableau.specs.Tables.{factor_column, shown};
ghost use Rattle.bz_lex.specs.Phases.{IsOnPhase, IsRowAbove, AreRowsLevel, LeavesOf};
ghost use Rattle.bz_lex.specs.Shown.{IsFree};
ghost use Rattle.bz_lex.specs.TableStages.{shown_order, IsLeavingRow};

use bz_num::cmp_quotients;
use bz_tableau::Tableau;
use std::cmp::Ordering;

// The number of a row at a place of the phase's order: in the right side, then in the columns of its first basis.
fn number_at(tableau: &Tableau, first: &[u32], row: u32, place: usize) -> i128
    requires phase { IsOnPhase first.now tableau.now }
    requires row { row < length tableau.now.basis }
    requires place { place ≤ length first.now }
    ensures { result ≡ shown tableau.now row (shown_order tableau.now first.now place) }
{
    if place == 0 {
        tableau.right(row)
    } else {
        tableau.entry(row, first[place - 1])
    }
}

// The order of two rows, each divided by its number in the column.
fn cmp_rows(tableau: &Tableau, first: &[u32], column: u32, row: u32, other: u32) -> Ordering
    requires phase { IsOnPhase first.now tableau.now }
    requires column { column < factor_column tableau.now }
    requires row { row < length tableau.now.basis }
    requires other { other < length tableau.now.basis }
    requires positive { pos 0 <ℤ shown tableau.now row column }
    requires other_positive { pos 0 <ℤ shown tableau.now other column }
    ensures { MatchOrdering result
        (IsRowAbove tableau.now first.now column other row)
        (AreRowsLevel tableau.now first.now column row other)
        (IsRowAbove tableau.now first.now column row other) }
{
    let (entry, other_entry) = (tableau.entry(row, column), tableau.entry(other, column));
    for place in 0..first.len() + 1 {
        let order = cmp_quotients(
            number_at(tableau, first, row, place),
            entry,
            number_at(tableau, first, other, place),
            other_entry,
        );
        if order != Ordering::Equal {
            return order;
        }
    }
    Ordering::Equal
}

// Which of the rows up to this one leaves, where `found` is the one of those before it.
fn next_leaving(
    tableau: &Tableau,
    first: &[u32],
    column: u32,
    found: Option<u32>,
    row: u32,
) -> Option<u32>
    requires phase { IsOnPhase first.now tableau.now }
    requires column { column < factor_column tableau.now }
    requires row { row < length tableau.now.basis }
    requires found { LeavesOf row tableau.now first.now column found }
    ensures { LeavesOf (suc row) tableau.now first.now column result }
{
    if tableau.entry(row, column) <= 0 {
        return found;
    }
    let Some(other) = found else {
        return Some(row);
    };
    // Two rows are never level.
    match cmp_rows(tableau, first, column, row, other) {
        Ordering::Less => Some(row),
        Ordering::Equal | Ordering::Greater => found,
    }
}

/// The row that leaves where the column enters: of the rows that are positive there the one that is the least, divided
/// by its number there, in the order of the phase that began at the basis `first`.
pub fn leaving(tableau: &Tableau, first: &[u32], column: u32) -> Option<u32>
    requires phase { IsOnPhase first.now tableau.now }
    requires column { column < factor_column tableau.now }
    ensures { MatchOption result (IsFree tableau.now column) (λ row. IsLeavingRow tableau.now first.now column row) }
{
    let mut found = None;
    for row in 0..tableau.rows() {
        found = next_leaving(tableau, first, column, found, row);
    }
    found
}
