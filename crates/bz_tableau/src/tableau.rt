//! The exact tableau of a basis.
ghost use Rattle.std.specs.Prelude.{◌≡◌, ◌≢◌, ◌<◌, ◌≤◌, ◌^◌, pos, ◌<ℤ◌, IfOk, IfErr, OnErr, length};
ghost use Rattle.std.specs.List.{range_with_len};
ghost use Rattle.bz_algebra.specs.Numbers.{IsNarrow};
ghost use Rattle.bz_tableau.specs.Pivots.{IsPivoted};
ghost use Rattle.bz_tableau.specs.Programs.{IsLp, lp_equations};
ghost use Rattle.bz_tableau.specs.Refusals.{IsRefusal};
ghost use Rattle.bz_tableau.specs.declared.answers.WideAt.TheVariants.{Pivot};
ghost use Rattle.bz_tableau.specs.Tables.{number, shown, factor_column, IsTableauOf};

use crate::answers::{LpStop, WideAt};
use crate::first::{first_basis, first_lines, first_slack};
use crate::line::Line;
use crate::next::{next_lines, put_lines};
use crate::programs::Lp;
use bz_num::{Items, OutOfMemory};
use std::alloc::{AllocError, Global};
use std::marker::Model;

/// The tableau of a basis of a program: for each row of the program the combination of its rows that is positive in
/// the row's own basic column, 0 in the other basic columns, and without a common divisor; and after them the
/// objective row.
///
/// The columns, by number, are the program's own, s where it is relaxed, and a slack for each row.
#[derive(Drop)]
pub struct Tableau {
    relaxed: bool,
    slack: u32,
    basis: Vec<u32>,
    rows: Vec<Line>,
}

impl Model for Tableau {
    ghost use Rattle.bz_tableau.specs.Tables.{Table};

    ghost Value = { Table };

    ghost use Rattle.bz_tableau.specs.Tables.{IsSound};

    ghost view = { λ t. record { relaxed = t.relaxed; slack = t.slack; basis = t.basis.items; rows = t.rows.items } };

    ghost invariant = { λ t. IsSound t.slack t.basis.items t.rows.items };
}

impl Tableau {
    /// The tableau of the slacks of the program, relaxed or not.
    pub fn new(alloc: Global, lp: &Lp, relaxed: bool) -> Result<Tableau, OutOfMemory>
        requires { IsLp lp.now }
        ensures tableau { IfOk result (λ t. IsTableauOf relaxed lp.now t) }
        ensures basis { IfOk result (λ t.
            t.basis ≡ range_with_len (lp_equations relaxed lp.now).slack (length lp.now.rows)) }
    {
        let slack = first_slack(lp, relaxed) as u32;
        let basis = first_basis(alloc, lp, relaxed)?;
        let rows = first_lines(alloc, lp, relaxed)?;
        Ok(Tableau {
            relaxed,
            slack,
            basis,
            rows,
        })
    }

    /// The basic column of each row. It takes no memory.
    pub fn basis(&self) -> &[u32]
        ensures { result.now ≡ self.now.basis }
    {
        self.basis.as_slice()
    }

    /// How many rows the program has; the objective row is the one after them. It takes no memory.
    pub fn rows(&self) -> u32
        ensures { result ≡ length self.now.basis }
    {
        self.basis.len() as u32
    }

    /// The number of the first slack: how many columns stand before the slacks. It takes no memory.
    pub fn slack(&self) -> u32
        ensures { result ≡ self.now.slack }
    {
        self.slack
    }

    /// How many columns there are, the slacks among them. It takes no memory.
    pub fn columns(&self) -> u32
        ensures value { result ≡ factor_column self.now }
        ensures few { result < 2 ^ 31 }
    {
        self.slack + self.rows()
    }

    /// The number of a row in a column; the row after the program's is the objective row, and the column after the
    /// last is the right side. It takes no memory.
    pub fn entry(&self, row: u32, column: u32) -> i128
        requires row { row ≤ length self.now.basis }
        requires column { column ≤ factor_column self.now }
        ensures value { result ≡ shown self.now row column }
        ensures narrow { IsNarrow result }
    {
        let factor = self.columns();
        let place = if column == factor { factor + 1 } else { column };
        self.rows[row as usize].at(place)
    }

    /// The right side of a row of the program. It takes no memory.
    pub fn right(&self, row: u32) -> i128
        requires { row < length self.now.basis }
        ensures value { result ≡ shown self.now row (factor_column self.now) }
        ensures narrow { IsNarrow result }
    {
        self.entry(row, self.columns())
    }

    /// The number of the objective row in a column. It takes no memory.
    pub fn objective(&self, column: u32) -> i128
        requires { column < factor_column self.now }
        ensures value { result ≡ shown self.now (length self.now.basis) column }
        ensures narrow { IsNarrow result }
    {
        self.entry(self.rows(), column)
    }

    /// The right side of the objective row. It takes no memory.
    pub fn objective_right(&self) -> i128
        ensures value { result ≡ shown self.now (length self.now.basis) (factor_column self.now) }
        ensures narrow { IsNarrow result }
    {
        self.entry(self.rows(), self.columns())
    }

    /// How often the objective row takes the cost, at least 1. It takes no memory.
    pub fn factor(&self) -> i128
        ensures value { result ≡ number self.now.rows (length self.now.basis) (factor_column self.now) }
        ensures positive { pos 0 <ℤ result }
        ensures narrow { IsNarrow result }
    {
        self.rows[self.basis.len()].at(self.columns())
    }

    /// Puts the column at the place of the row in the basis, and makes the rows of that basis. It is refused where a
    /// number of a row would be wide, and by want of memory; then the tableau is as before.
    pub fn pivot(&mut self, alloc: Global, row: u32, column: u32) -> Result<(), LpStop>
        requires row { row < length self.old.basis }
        requires column { column < factor_column self.old }
        requires nonzero { number self.old.rows row column ≢ pos 0 }
        ensures pivoted { IfOk result (λ _. IsPivoted self.old row column self.new) }
        ensures refused { IfErr result (λ stop. IsRefusal self.old row column stop) }
        ensures unchanged { OnErr result (self.new ≡ self.old) }
    {
        match next_lines(
            alloc,
            self.slack,
            self.basis.as_slice(),
            self.rows.as_slice(),
            row as usize,
            column,
        )? {
            Ok(changes) => {
                put_lines(&mut self.rows, changes);
                self.basis[row as usize] = column;
                Ok(())
            },
            Err(place) => {
                let at = wide_pivot(
                    alloc,
                    self.relaxed,
                    self.basis.as_slice(),
                    place as u32,
                    row,
                    column,
                )?;
                Err(LpStop::Wide(at))
            },
        }
    }
}

// The place of a wide row, with its own basis as the goal.
fn wide_pivot(
    alloc: Global,
    relaxed: bool,
    basis: &[u32],
    row: u32,
    pivot_row: u32,
    column: u32,
) -> Result<WideAt, AllocError>
    ensures { IfOk result (λ at. at ≡ Pivot relaxed basis.now basis.now row pivot_row column) }
{
    let own = Vec::from_slice(alloc, basis)?;
    let goal = Vec::from_slice(alloc, basis)?;
    Ok(WideAt::Pivot {
        relaxed,
        basis: Items::from_vec(own),
        goal: Items::from_vec(goal),
        row,
        pivot_row,
        column,
    })
}
