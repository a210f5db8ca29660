//! How many inequalities each part has.
ghost use Rattle.std.specs.Prelude.{ℕ, List, ◌≡◌, ◌+◌, ◌*◌, ◌<◌, ◌≤◌, filter, length, if◌then◌else◌};
ghost use Rattle.std.specs.List.{AllByRecursion, enumerate_from};
ghost use Rattle.bz_algebra.specs.Sums.{AllBelow};
ghost use Rattle.bz_model.specs.Limits.{list_limit};
ghost use Rattle.bz_model.specs.Parting.{blocks_of, part_of};
ghost use Rattle.bz_model.specs.Sizes.{column_size, row_size, sum_of};
ghost use Rattle.bz_model.specs.Strict.{HasItsColumns, size_of};

use crate::homes::home;
use crate::records::{Column, Model, Row};
use crate::splitting::Split;

/// How many of two sides are there.
fn sides(upper: bool, lower: bool) -> u32
    ensures value { result ≡ (if upper then 1 else 0) + (if lower then 1 else 0) }
    ensures two { result ≤ 2 }
{
    if upper && lower {
        2
    } else if upper || lower {
        1
    } else {
        0
    }
}

/// How many inequalities of part `b` a row gives.
fn row_sides(part: &[u32], b: u32, row: &Row) -> u32
    requires { AllBelow (length part.now) row.now.terms }
    ensures value { result ≡ row_size part.now b row.now }
    ensures two { result ≤ 2 }
{
    if home(part, &row.terms) == b {
        sides(row.upper.is_some(), row.lower.is_some())
    } else {
        0
    }
}

/// How many inequalities of part `b` a column of the part `own` gives, with the two sides of the master's box where it
/// is an integer.
fn column_sides(own: u32, b: u32, column: &Column) -> u32
    ensures value { (part : List ℕ) (j : ℕ) → part_of part j ≡ own → result ≡ column_size part b (j, column.now) }
    ensures two { result ≤ 2 }
{
    if column.integer {
        if b == 0 { 2 } else { 0 }
    } else if own == b {
        sides(column.upper.is_some(), column.lower.is_some())
    } else {
        0
    }
}

/// How many inequalities of part `b` rows give.
fn sides_of_rows(part: &[u32], b: u32, rows: &[Row]) -> u32
    requires columns { AllByRecursion (λ row. AllBelow (length part.now) row.terms) rows.now }
    requires few { length rows.now < list_limit }
    ensures value { result ≡ sum_of (row_size part.now b) rows.now }
    ensures most { result ≤ 2 * length rows.now }
{
    let mut count = 0;
    for row in rows {
        count += row_sides(part, b, row);
    }
    count
}

/// How many inequalities of part `b` columns give, with the two sides of the master's box of each integer column.
fn sides_of_columns(part: &[u32], b: u32, columns: &[Column]) -> u32
    requires numbers { length part.now ≡ length columns.now }
    requires few { length columns.now < list_limit }
    ensures value { result ≡ sum_of (column_size part.now b) (enumerate_from 0 columns.now) }
    ensures most { result ≤ 2 * length columns.now }
{
    let mut count = 0;
    for (j, column) in columns.iter().enumerate() {
        count += column_sides(part[j], b, column);
    }
    count
}

/// How many inequalities part `b` has, two counted for the box of each integer column where it is the master.
#[tactic(auto, using(crate::proofs::PartSizes::size_is))]
pub fn size(model: &Model, part: &[u32], b: u32) -> u32
    requires columns { HasItsColumns model.now }
    requires numbers { length part.now ≡ length model.now.columns }
    ensures { result ≡ size_of model.now part.now b }
{
    sides_of_rows(part, b, model.rows.as_slice())
        + sides_of_columns(part, b, model.columns.as_slice())
}

/// How many of the columns are integers.
fn count_integers(columns: &[Column]) -> u32
    requires few { length columns.now < list_limit }
    ensures value { result ≡ length (filter (λ e. e.1.integer) (enumerate_from 0 columns.now)) }
    ensures most { result ≤ length columns.now }
{
    let mut count = 0;
    for column in columns {
        if column.integer {
            count += 1;
        }
    }
    count
}

impl Split {
    /// How many inequalities a part has, two counted for the box of each integer column where it is the master. It takes
    /// no memory.
    pub fn size(&self, part: u32) -> u32
        requires { part ≤ blocks_of self.now.part }
        ensures { result ≡ size_of self.now.model self.now.part part }
    {
        let count = self.inequalities(part).len() as u32;
        if part == 0 {
            count + 2 * count_integers(self.model().columns.as_slice())
        } else {
            count
        }
    }
}
