//! Rows over columns compared with rows over variables, entry by entry.
ghost use Rattle.std.specs.Prelude.{◌↔◌, ◌≡◌, ◌<◌, ◌≤◌, ◌*◌, ◌+◌, IsTrue, drop, length, pos};
ghost use Rattle.bz_algebra.specs.Numbers.{IsNarrow};
ghost use Rattle.bz_algebra.specs.Sums.{AllBelow};
ghost use Rattle.bz_num.specs.Row.{entry_at};
ghost use Rattle.bz_model.specs.Limits.{list_limit};
ghost use Rattle.bz_tree.specs.Leaves.{side_of_cut, side_of_master};
ghost use Rattle.bz_std.specs.Compared.{AreEndsOf, BeginsWith, IsOwnRow, IsPairAt};
ghost use Rattle.bz_std.specs.Posed.{IsRowOf, over_columns};
ghost use Rattle.bz_std.specs.Tasks.{falling_line, side_line};

use crate::separation::right_side;
use bz_cut::Cut;
use bz_model::{Ineq, Master};
use bz_num::{SparseRow, narrow_negation};
use bz_tableau::LpRow;

/// Whether the numbers are equal.
pub(crate) fn are_equal(a: i128, b: i128) -> bool
    ensures { IsTrue result ↔ (a ≡ b) }
{
    a == b
}

/// Whether the entry is this number at this index.
fn is_entry(entry: &(u32, i128), index: u32, number: i128) -> bool
    ensures { IsTrue result ↔ ((entry.now.0 ≡ index) × (entry.now.1 ≡ number)) }
{
    entry.0 == index && are_equal(entry.1, number)
}

/// Whether the two entries of a row from place `at` on are those of a variable with this number.
fn is_pair_at(row: &[(u32, i128)], at: usize, variable: u32, number: i128) -> bool
    requires inside { at + 1 < length row.now }
    requires few { variable < 2 * list_limit }
    requires narrow { IsNarrow number }
    ensures { IsTrue result ↔ IsPairAt row.now at variable number }
{
    is_entry(&row[at], 2 * variable, number)
        && is_entry(&row[at + 1], 2 * variable + 1, narrow_negation(number))
}

/// Whether the row begins with the columns of the terms.
fn begins_with(row: &[(u32, i128)], terms: &SparseRow) -> bool
    requires { AllBelow list_limit terms.now }
    ensures { IsTrue result ↔ BeginsWith row.now terms.now }
{
    let terms = terms.as_slice();
    if row.len() < 2 * terms.len() {
        return false;
    }
    for (k, entry) in terms.iter().enumerate() {
        if !is_pair_at(row, 2 * k, entry.0, entry.1) {
            return false;
        }
    }
    true
}

/// Whether the row is that of the terms over columns. It takes no memory.
pub(crate) fn is_over_columns(row: &SparseRow, terms: &SparseRow) -> bool
    requires { AllBelow list_limit terms.now }
    ensures { IsTrue result ↔ (row.now ≡ over_columns terms.now) }
{
    let row = row.as_slice();
    row.len() == 2 * terms.as_slice().len() && begins_with(row, terms)
}

/// Whether the row has from place `at` on the two columns of a variable with this number alone; of 0 it has none.
fn ends_with(row: &[(u32, i128)], at: usize, variable: u32, number: i128) -> bool
    requires inside { at ≤ length row.now }
    requires few { variable < 2 * list_limit }
    requires narrow { IsNarrow number }
    ensures { IsTrue result ↔ (drop at row.now ≡ over_columns (entry_at variable number)) }
{
    if are_equal(number, 0) {
        row.len() == at
    } else {
        row.len() == at + 2 && is_pair_at(row, at, variable, number)
    }
}

/// Whether the row is that of the terms over columns, with this right side.
fn is_line(row: &LpRow, terms: &SparseRow, rhs: i128) -> bool
    requires { AllBelow list_limit terms.now }
    ensures { IsTrue result ↔ IsRowOf (record { terms = terms.now; rhs = rhs }) row.now }
{
    are_equal(row.rhs, rhs) && is_over_columns(&row.terms, terms)
}

/// Whether the row is that of the inequality at the point, where its right side's sum is not wide.
pub(crate) fn is_own_row(row: &LpRow, point: &Master, ineq: &Ineq) -> bool
    requires own { AllBelow list_limit ineq.now.own }
    requires master { AllBelow (length point.now.x) ineq.now.master }
    ensures { IsTrue result ↔ IsOwnRow point.now ineq.now row.now }
{
    match right_side(point, ineq) {
        Ok(rhs) => is_line(row, &ineq.own, rhs),
        Err(_) => false,
    }
}

/// Whether the row is that along which the inequality doesn't rise.
pub(crate) fn is_falling_row(row: &LpRow, ineq: &Ineq) -> bool
    requires { AllBelow list_limit ineq.now.own }
    ensures { IsTrue result ↔ IsRowOf (falling_line ineq.now) row.now }
{
    is_line(row, &ineq.own, 0)
}

/// Whether the row is that of an inequality of the master, over `width` positions.
pub(crate) fn is_master_row(row: &LpRow, ineq: &Ineq, width: u32) -> bool
    requires { AllBelow list_limit ineq.now.own }
    ensures { IsTrue result ↔ IsRowOf (side_line width (side_of_master ineq.now)) row.now }
{
    is_line(row, &ineq.own, ineq.rhs)
}

/// Whether the row is that of one variable, times a factor.
fn is_single_row(row: &LpRow, variable: u32, factor: i128, rhs: i128) -> bool
    requires few { variable < list_limit }
    requires factor { IsNarrow factor }
    ensures { IsTrue result ↔ IsRowOf (record { terms = entry_at variable factor; rhs = rhs }) row.now }
{
    are_equal(row.rhs, rhs) && ends_with(row.terms.as_slice(), 0, variable, factor)
}

/// Whether the rows are those of the two ends of the integer column at a position.
pub(crate) fn are_ends(
    at_most: &LpRow,
    at_least: &LpRow,
    position: u32,
    lower: i128,
    upper: i128,
) -> bool
    requires few { position < list_limit }
    requires lower { IsNarrow lower }
    ensures { IsTrue result ↔ AreEndsOf position lower upper at_most.now at_least.now }
{
    is_single_row(at_most, position, 1, upper)
        && is_single_row(at_least, position, -1, narrow_negation(lower))
}

/// Whether the terms are those of a cut over columns: its numbers by the master's positions, of which there are
/// `width`, and then that of its eta.
fn are_cut_terms(terms: &SparseRow, cut: &Cut, width: u32) -> bool
    requires few { width < list_limit }
    requires first { 0 < cut.now.block }
    requires last { cut.now.block ≤ 256 }
    requires alpha { AllBelow width cut.now.alpha }
    ensures { IsTrue result ↔ (terms.now ≡ over_columns (side_line width (side_of_cut cut.now)).terms) }
{
    let entries = terms.as_slice();
    let eta = width + (cut.block - 1);
    begins_with(entries, &cut.alpha)
        && ends_with(
            entries,
            2 * cut.alpha.as_slice().len(),
            eta,
            narrow_negation(cut.p0),
        )
}

/// Whether the row is that of a cut, over `width` positions of the master.
pub(crate) fn is_cut_row(row: &LpRow, cut: &Cut, width: u32) -> bool
    requires few { width < list_limit }
    requires first { 0 < cut.now.block }
    requires last { cut.now.block ≤ 256 }
    requires alpha { AllBelow width cut.now.alpha }
    ensures { IsTrue result ↔ IsRowOf (side_line width (side_of_cut cut.now)) row.now }
{
    are_equal(row.rhs, cut.beta) && are_cut_terms(&row.terms, cut, width)
}
