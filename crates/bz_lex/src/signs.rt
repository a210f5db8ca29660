//! The signs of a tableau.
ghost use Rattle.std.specs.Prelude.{◌≡◌, ◌<◌, ◌≤◌, ◌+◌, ℕ, length, MatchBool, MatchOption};
ghost use Rattle.bz_tableau.specs.Tables.{factor_column};
ghost use Rattle.bz_lex.specs.Shown.{HasPoint, HasLeastCost, IsFree, IsFreeFall, IsFirstFall};

use bz_tableau::Tableau;

/// Whether no right side is negative.
pub fn has_point(tableau: &Tableau) -> bool
    ensures { MatchBool result (HasPoint tableau.now) (HasPoint tableau.now → ⊥) }
{
    for i in 0..tableau.rows() {
        if tableau.right(i) < 0 {
            return false;
        }
    }
    true
}

/// Whether no number of the objective row is negative.
pub fn has_least_cost(tableau: &Tableau) -> bool
    ensures { MatchBool result (HasLeastCost tableau.now) (HasLeastCost tableau.now → ⊥) }
{
    for j in 0..tableau.columns() {
        if tableau.objective(j) < 0 {
            return false;
        }
    }
    true
}

// Whether no row has a positive number in the column.
fn is_free(tableau: &Tableau, column: u32) -> bool
    requires { column < factor_column tableau.now }
    ensures { MatchBool result (IsFree tableau.now column) (IsFree tableau.now column → ⊥) }
{
    for i in 0..tableau.rows() {
        if tableau.entry(i, column) > 0 {
            return false;
        }
    }
    true
}

// Whether the objective row is negative in the column, and no row is positive there.
fn is_free_fall(tableau: &Tableau, column: u32) -> bool
    requires { column < factor_column tableau.now }
    ensures { MatchBool result (IsFreeFall tableau.now column) (IsFreeFall tableau.now column → ⊥) }
{
    tableau.objective(column) < 0 && is_free(tableau, column)
}

/// The first column in which the objective row is negative and no row is positive.
pub fn first_fall(tableau: &Tableau) -> Option<u32>
    ensures { MatchOption result ((j : ℕ) → IsFreeFall tableau.now j → ⊥) (λ j. IsFirstFall tableau.now j) }
{
    for j in 0..tableau.columns() {
        if is_free_fall(tableau, j) {
            return Some(j);
        }
    }
    None
}
