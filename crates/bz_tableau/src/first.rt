//! The rows of the slacks' basis: the program's own rows, and its objective.
ghost use Rattle.std.specs.Prelude.{◌≡◌, ◌<◌, ◌==◌, suc, pos, if◌then◌else◌, IfOk, length};
ghost use Rattle.std.specs.List.{range_with_len};
ghost use Rattle.bz_algebra.specs.Numbers.{IsNarrow};
ghost use Rattle.bz_algebra.specs.Sums.{coef};
ghost use Rattle.bz_algebra.specs.Tableaus.{side, row_entry, objective_entry};
ghost use Rattle.bz_tableau.specs.First.{first_number, IsFirstLineTo, AreFirstLinesTo};
ghost use Rattle.bz_tableau.specs.Programs.{IsLp, lp_equations, program_of, rhs_of, terms_of};

use crate::line::{Line, push_line};
use crate::programs::Lp;
use bz_num::{OutOfMemory, SparseRow};
use std::alloc::{AllocError, Global};

/// The number of the first slack: how many columns stand before the slacks.
pub fn first_slack(lp: &Lp, relaxed: bool) -> usize
    requires { IsLp lp.now }
    ensures { result ≡ (lp_equations relaxed lp.now).slack }
{
    if relaxed {
        lp.columns as usize + 1
    } else {
        lp.columns as usize
    }
}

// The number at a column, 0 where the row has none.
fn number_at(row: &SparseRow, column: u32) -> i128
    ensures value { result ≡ coef row.now column }
    ensures narrow { IsNarrow result }
{
    row.at(column)
}

// The number of a row of the program in one of the program's columns, and 0 in s.
fn term_number(lp: &Lp, i: usize, j: u32) -> i128
    requires { i < length lp.now.rows }
    ensures value { result ≡ coef (terms_of lp.now.rows i) j }
    ensures narrow { IsNarrow result }
{
    let row = &lp.rows.as_slice()[i];
    number_at(&row.terms, j)
}

// The right side of a row of the program.
fn row_right(lp: &Lp, i: usize) -> i128
    requires { i < length lp.now.rows }
    ensures value { result ≡ rhs_of lp.now.rows i }
    ensures narrow { IsNarrow result }
{
    let row = &lp.rows.as_slice()[i];
    row.rhs
}

// The number of a row of the program in a column before the slacks.
fn row_number(lp: &Lp, relaxed: bool, i: usize, j: usize) -> i128
    requires lp { IsLp lp.now }
    requires row { i < length lp.now.rows }
    requires column { j < (lp_equations relaxed lp.now).slack }
    ensures value { result ≡ row_entry relaxed (program_of lp.now) i j }
    ensures narrow { IsNarrow result }
{
    if relaxed && j == lp.columns as usize {
        -1
    } else {
        term_number(lp, i, j as u32)
    }
}

// The number of the objective in a column before the slacks.
fn objective_number(lp: &Lp, relaxed: bool, j: usize) -> i128
    requires lp { IsLp lp.now }
    requires column { j < (lp_equations relaxed lp.now).slack }
    ensures value { result ≡ objective_entry relaxed (program_of lp.now) j }
    ensures narrow { IsNarrow result }
{
    if relaxed {
        if j == lp.columns as usize { 1 } else { 0 }
    } else {
        number_at(&lp.cost, j as u32)
    }
}

// The number of a row in a column before the slacks; the objective is the last row.
fn entry_number(lp: &Lp, relaxed: bool, i: usize, j: usize) -> i128
    requires lp { IsLp lp.now }
    requires row { i < suc (length lp.now.rows) }
    requires column { j < (lp_equations relaxed lp.now).slack }
    ensures value { result ≡ (lp_equations relaxed lp.now).entry i j }
    ensures narrow { IsNarrow result }
{
    if i == lp.rows.as_slice().len() {
        objective_number(lp, relaxed, j)
    } else {
        row_number(lp, relaxed, i, j)
    }
}

// The right side of a row, 0 for the objective.
fn right_number(lp: &Lp, i: usize) -> i128
    requires row { i < suc (length lp.now.rows) }
    ensures value { result ≡ (if i == length lp.now.rows then pos 0 else rhs_of lp.now.rows i) }
    ensures narrow { IsNarrow result }
{
    if i == lp.rows.as_slice().len() {
        0
    } else {
        row_right(lp, i)
    }
}

// The number of a row in a column: 1 in its own slack and 0 in the others.
fn first_entry(lp: &Lp, relaxed: bool, i: usize, j: usize) -> i128
    requires lp { IsLp lp.now }
    requires row { i < suc (length lp.now.rows) }
    requires column { j < suc (side (lp_equations relaxed lp.now)) }
    ensures value { result ≡ first_number (lp_equations relaxed lp.now) i j }
    ensures narrow { IsNarrow result }
{
    let slack = first_slack(lp, relaxed);
    if j < slack {
        entry_number(lp, relaxed, i, j)
    } else if j == slack + lp.rows.as_slice().len() + 1 {
        right_number(lp, i)
    } else if j == slack + i {
        1
    } else {
        0
    }
}

// A row with a number for each column.
fn first_line(alloc: Global, lp: &Lp, relaxed: bool, i: usize) -> Result<Line, OutOfMemory>
    requires lp { IsLp lp.now }
    requires row { i < suc (length lp.now.rows) }
    ensures { IfOk result (λ row.
        IsFirstLineTo (suc (side (lp_equations relaxed lp.now))) (lp_equations relaxed lp.now) i row) }
{
    let width = first_slack(lp, relaxed) + lp.rows.as_slice().len() + 2;
    let mut terms = SparseRow::from_vec(Vec::with_capacity(alloc, 4)?);
    for j in 0..width {
        terms.push(j as u32, first_entry(lp, relaxed, i, j))?;
    }
    Ok(Line::from_terms(width, terms))
}

/// The rows of the program and its objective, with a number for each column.
pub fn first_lines(alloc: Global, lp: &Lp, relaxed: bool) -> Result<Vec<Line>, OutOfMemory>
    requires { IsLp lp.now }
    ensures { IfOk result (λ rows.
        AreFirstLinesTo (suc (length lp.now.rows)) (lp_equations relaxed lp.now) rows.items) }
{
    let count = lp.rows.as_slice().len() + 1;
    let mut rows = Vec::with_capacity(alloc, count)?;
    for i in 0..count {
        push_line(&mut rows, first_line(alloc, lp, relaxed, i)?)?;
    }
    Ok(rows)
}

/// The slacks, by row.
pub fn first_basis(alloc: Global, lp: &Lp, relaxed: bool) -> Result<Vec<u32>, AllocError>
    requires { IsLp lp.now }
    ensures { IfOk result (λ basis.
        basis.items ≡ range_with_len (lp_equations relaxed lp.now).slack (length lp.now.rows)) }
{
    let slack = first_slack(lp, relaxed);
    let count = lp.rows.as_slice().len();
    let mut basis = Vec::with_capacity(alloc, count)?;
    for i in 0..count {
        basis.push((slack + i) as u32)?;
    }
    Ok(basis)
}
