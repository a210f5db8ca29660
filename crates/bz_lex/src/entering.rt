//! The column that enters the basis.
ghost use Rattle.std.specs.Prelude.{◌≡◌, ◌<◌, suc, IfSome, MatchOption, length};
ghost use Rattle.bz_tableau.specs.Tables.{factor_column};
ghost use Rattle.bz_lex.specs.Phases.{IsChosen, IsChoiceOf, IsEntering, IsGreatestSize};
ghost use Rattle.bz_lex.specs.Shown.{HasLeastCost};

use bz_tableau::Tableau;

// The greatest size of a number of the column.
fn greatest_size(tableau: &Tableau, column: u32) -> u128
    requires { column < factor_column tableau.now }
    ensures { IsGreatestSize tableau.now column result }
{
    let mut greatest = tableau.objective(column).unsigned_abs();
    for row in 0..tableau.rows() {
        greatest = greatest.max(tableau.entry(row, column).unsigned_abs());
    }
    greatest
}

// The choice of the columns up to this one, with its greatest size. Any column in which the objective row is negative
// would do; by this choice small numbers stay small.
fn next_choice(tableau: &Tableau, choice: Option<(u32, u128)>, column: u32) -> Option<(u32, u128)>
    requires column { column < factor_column tableau.now }
    requires choice { IsChoiceOf column tableau.now choice }
    ensures { IsChoiceOf (suc column) tableau.now result }
{
    if tableau.objective(column) >= 0 {
        return choice;
    }
    let size = greatest_size(tableau, column);
    match choice {
        Some((_, least)) if least <= size => choice,
        _ => Some((column, size)),
    }
}

/// The column that enters: of those in which the objective row is negative the first whose greatest number is least in
/// size. A phase asks only that the objective row is negative there.
pub fn entering(tableau: &Tableau) -> Option<u32>
    ensures enters { MatchOption result (HasLeastCost tableau.now) (λ column. IsEntering tableau.now column) }
    ensures chosen { IfSome result (λ column. IsChosen tableau.now column) }
{
    let mut choice = None;
    for column in 0..tableau.columns() {
        choice = next_choice(tableau, choice, column);
    }
    let (column, _) = choice?;
    Some(column)
}
