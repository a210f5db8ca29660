//! Rows of a tableau, of which only the numbers that aren't 0 are kept.
ghost use Rattle.std.specs.Prelude.{◌≡◌, ◌<◌, ◌++◌, [], ◌∷◌, OnOk, length};
ghost use Rattle.bz_algebra.specs.Numbers.{IsNarrow};
ghost use Rattle.bz_algebra.specs.Sums.{AllBelow};
ghost use Rattle.bz_num.specs.Row.{IsSparse};
ghost use Rattle.bz_tableau.specs.Dense.{entry, AreNarrow};
ghost use Rattle.bz_tableau.specs.Sparse.{spread};

use bz_num::{OutOfMemory, SparseRow};
use std::marker::Model;

/// A row of a tableau: a number for each of its columns, none wide. Contracts see the list of them all, and the row keeps
/// those that aren't 0.
#[derive(Drop)]
pub struct Line {
    width: usize,
    terms: SparseRow,
}

impl Model for Line {
    ghost use Rattle.std.specs.Prelude.{List, ℤ};
    ghost use Rattle.bz_algebra.specs.Sums.{AllBelow};
    ghost use Rattle.bz_num.specs.Row.{IsSparse};
    ghost use Rattle.bz_tableau.specs.Sparse.{spread};

    ghost Value = { List ℤ };

    ghost view = { λ l. spread l.width l.terms };

    ghost invariant = { λ l. IsSparse l.terms × AllBelow l.width l.terms };
}

impl Line {
    /// The row of this width with these numbers. It takes no memory.
    pub fn from_terms(width: usize, terms: SparseRow) -> Line
        requires sparse { IsSparse terms }
        requires below { AllBelow width terms }
        ensures { result ≡ spread width terms }
    {
        Line { width, terms }
    }

    /// How many columns there are. It takes no memory.
    pub fn width(&self) -> usize
        ensures { result ≡ length self.now }
    {
        self.width
    }

    /// The numbers that aren't 0, with their columns, which rise. It takes no memory.
    pub fn terms(&self) -> &[(u32, i128)]
        ensures value { self.now ≡ spread (length self.now) result.now }
        ensures sparse { IsSparse result.now }
        ensures below { AllBelow (length self.now) result.now }
    {
        self.terms.as_slice()
    }

    /// The number in a column. It takes no memory.
    pub fn at(&self, column: u32) -> i128
        requires { column < length self.now }
        ensures value { result ≡ entry self.now column }
        ensures narrow { IsNarrow result }
        ensures all_narrow { AreNarrow self.now }
    {
        self.terms.at(column)
    }
}

/// Puts a row behind the others.
pub fn push_line(rows: &mut Vec<Line>, line: Line) -> Result<(), OutOfMemory>
    ensures { OnOk result (rows.new.items ≡ rows.old.items ++ line ∷ []) }
{
    rows.push(line).map_err(|_| OutOfMemory)
}
