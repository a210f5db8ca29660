//! The numbers of basic columns over a common denominator.
ghost use Rattle.std.specs.Prelude.{◌≡◌, ◌≢◌, ◌<◌, ◌≤◌, ◌+◌, ◌^◌, ℕ, pos, ◌<ℤ◌, length, unsigned_abs, IfOk, MatchOption, MatchResult};
ghost use Rattle.std.specs.Int.{◌∣◌};
ghost use Rattle.bz_algebra.specs.Numbers.{IsNarrow};
ghost use Rattle.bz_tableau.specs.Laws.{place};
ghost use Rattle.bz_tableau.specs.Tables.{factor_column, shown};
ghost use Rattle.bz_lex.specs.Shown.{IsOrderOf, own_entry, IsMultipleTo, IsOver, IsWideOver, AreValuesTo, IsFirstWideOver, AreMultipliersShown};

use crate::multiples::own_number;
use bz_num::{exact_quotient, narrow_product};
use bz_tableau::Tableau;
use std::alloc::{AllocError, Global};

// The number over the entry, with the denominator den; None where it is wide.
fn value_over(den: i128, entry: i128, number: i128) -> Option<i128>
    requires den { IsNarrow den }
    requires entry { IsNarrow entry }
    requires nonzero { entry ≢ pos 0 }
    requires divides { unsigned_abs entry ∣ unsigned_abs den }
    ensures { MatchOption result (IsWideOver den entry number) (λ value. IsOver den entry number value) }
{
    narrow_product(number, exact_quotient(den, entry))
}

/// The values over den of what the rows of the basic columns have in a column, each at its basic column and 0 elsewhere;
/// or the first of them, in the order, that is wide.
pub fn values(
    alloc: Global,
    tableau: &Tableau,
    order: &[u32],
    den: i128,
    column: u32,
) -> Result<Result<Vec<i128>, usize>, AllocError>
    requires order { IsOrderOf tableau.now order.now }
    requires column { column ≤ factor_column tableau.now }
    requires den { IsNarrow den }
    requires divides { IsMultipleTo (length order.now) (own_entry tableau.now order.now) (unsigned_abs den) }
    ensures { IfOk result (λ outcome. MatchResult outcome
        (λ values. AreValuesTo (length order.now) tableau.now order.now den column values.items)
        (λ k. IsFirstWideOver (length order.now) tableau.now order.now den column k)) }
{
    let mut values = vec![in alloc; 0; tableau.slack() as usize]?;
    for k in 0..order.len() {
        let row = order[k];
        match value_over(
            den,
            own_number(tableau, order, k),
            tableau.entry(row, column),
        ) {
            Some(value) => values[tableau.basis()[row as usize] as usize] = value,
            None => return Ok(Err(k)),
        }
    }
    Ok(Ok(values))
}

/// The objective row's numbers in the slacks.
pub fn multipliers(alloc: Global, tableau: &Tableau) -> Result<Vec<i128>, AllocError>
    ensures { IfOk result (λ y. AreMultipliersShown tableau.now y.items) }
{
    let mut y = Vec::with_capacity(alloc, tableau.rows() as usize)?;
    for column in tableau.slack()..tableau.columns() {
        y.push(tableau.objective(column))?;
    }
    Ok(y)
}
