//! The rows of a pivot.
ghost use Rattle.std.specs.Prelude.{◌≡◌, ◌≢◌, ◌<◌, ◌+◌, ◌++◌, [], ◌∷◌, ℕ, pos, ◌<ℤ◌, IfOk, OnOk, MatchOption, MatchResult, length};
ghost use Rattle.bz_tableau.specs.Dense.{entry, DividesRow, IsWideRow, IsNegated, IsNextLine, IsMovedLine};
ghost use Rattle.bz_tableau.specs.Pivots.{IsFirstWideRow, IsTurned, AreNextLines, replaced};
ghost use Rattle.bz_tableau.specs.Tables.{number, own, IsSound};

use crate::line::Line;
use crate::merging::combine;
use crate::reducing::reduced_line;
use crate::steps::turned_multipliers;
use bz_num::OutOfMemory;
use std::alloc::Global;

/// What a pivot makes of a row.
#[derive(Drop)]
pub enum Turned {
    /// The row stays as it is.
    Kept,
    New(Line),
    /// A number of the new row would be wide.
    Wide,
}

/// The row cleared in the column `e` by the pivot row, primitive and positive in its own column; None where it is
/// wide.
pub fn next_line(
    alloc: Global,
    row: &Line,
    pivot: &Line,
    e: u32,
    own_column: u32,
) -> Result<Option<Line>, OutOfMemory>
    requires widths { length row.now ≡ length pivot.now }
    requires column { e < length row.now }
    requires own_column { own_column < length row.now }
    requires nonzero { entry pivot.now e ≢ pos 0 }
    requires own_positive { pos 0 <ℤ entry row.now own_column }
    requires cleared { entry pivot.now own_column ≡ pos 0 }
    ensures { IfOk result (λ outcome. MatchOption outcome
        (IsWideRow pivot.now row.now e)
        (λ new. IsNextLine row.now pivot.now e own_column new)) }
{
    let times = turned_multipliers(pivot.at(e), row.at(e));
    match combine(alloc, times.kept, row.terms(), times.taken, pivot.terms())? {
        Some(new) => Ok(Some(reduced_line(row.width(), new, own_column))),
        None => Ok(None),
    }
}

/// The pivot row with the other sign.
fn negated_line(alloc: Global, pivot: &Line) -> Result<Line, OutOfMemory>
    ensures { IfOk result (λ new. IsNegated pivot.now new) }
{
    let terms = pivot.terms();
    match combine(alloc, -1, terms, 0, terms)? {
        Some(new) => Ok(Line::from_terms(pivot.width(), new)),
        None => unreachable!(),
    }
}

/// The pivot row, primitive and positive in its new column; None where it is so already.
pub fn moved_line(alloc: Global, pivot: &Line, e: u32) -> Result<Option<Line>, OutOfMemory>
    requires column { e < length pivot.now }
    requires nonzero { entry pivot.now e ≢ pos 0 }
    requires primitive { (d : ℕ) → DividesRow d pivot.now → d ≡ 1 }
    ensures { IfOk result (λ moved. MatchOption moved
        (IsMovedLine pivot.now e pivot.now)
        (λ new. IsMovedLine pivot.now e new)) }
{
    if pivot.at(e) > 0 {
        return Ok(None);
    }
    Ok(Some(negated_line(alloc, pivot)?))
}

/// The column of a row of the program, and the factor column for the objective row.
pub fn own_column(slack: u32, basis: &[u32], place: usize) -> u32
    requires small { slack + length basis.now < 4294967296 }
    requires place { place < length basis.now + 1 }
    ensures { result ≡ own slack basis.now place }
{
    if place == basis.len() {
        slack + basis.len() as u32
    } else {
        basis[place]
    }
}

/// What the pivot makes of the row at the place `i`. A row with a 0 in the pivot's column stays as it is.
pub fn turned_line(
    alloc: Global,
    slack: u32,
    basis: &[u32],
    rows: &[Line],
    r: usize,
    e: u32,
    i: usize,
) -> Result<Turned, OutOfMemory>
    requires sound { IsSound slack basis.now rows.now }
    requires place { r < length basis.now }
    requires column { e < slack + length basis.now }
    requires nonzero { number rows.now r e ≢ pos 0 }
    requires inside { i < length rows.now }
    ensures { IfOk result (λ turned. IsTurned slack basis.now rows.now r e i turned) }
{
    if i == r {
        return match moved_line(alloc, &rows[r], e)? {
            Some(line) => Ok(Turned::New(line)),
            None => Ok(Turned::Kept),
        };
    }
    if rows[i].at(e) == 0 {
        return Ok(Turned::Kept);
    }
    match next_line(alloc, &rows[i], &rows[r], e, own_column(slack, basis, i))? {
        Some(line) => Ok(Turned::New(line)),
        None => Ok(Turned::Wide),
    }
}

// Puts what becomes of a row behind the others.
fn push_change(changes: &mut Vec<Option<Line>>, change: Option<Line>) -> Result<(), OutOfMemory>
    ensures { OnOk result (changes.new.items ≡ changes.old.items ++ change ∷ []) }
{
    changes.push(change).map_err(|_| OutOfMemory)
}

/// The rows that the pivot at the place `r` in the column `e` changes, each at its place, or the first row that is wide.
pub fn next_lines(
    alloc: Global,
    slack: u32,
    basis: &[u32],
    rows: &[Line],
    r: usize,
    e: u32,
) -> Result<Result<Vec<Option<Line>>, usize>, OutOfMemory>
    requires sound { IsSound slack basis.now rows.now }
    requires place { r < length basis.now }
    requires column { e < slack + length basis.now }
    requires nonzero { number rows.now r e ≢ pos 0 }
    ensures { IfOk result (λ outcome. MatchResult outcome
        (λ changes. (length changes.items ≡ length rows.now)
        × AreNextLines slack basis.now rows.now r e (replaced rows.now changes.items))
        (λ i. IsFirstWideRow rows.now r e i)) }
{
    let mut changes = Vec::with_capacity(alloc, rows.len())?;
    for i in 0..rows.len() {
        match turned_line(alloc, slack, basis, rows, r, e, i)? {
            Turned::New(line) => push_change(&mut changes, Some(line))?,
            Turned::Kept => push_change(&mut changes, None)?,
            Turned::Wide => return Ok(Err(i)),
        }
    }
    Ok(Ok(changes))
}

/// Puts the changed rows in place. It takes no memory.
pub fn put_lines(rows: &mut Vec<Line>, mut changes: Vec<Option<Line>>)
    requires { length changes.items ≡ length rows.old.items }
    ensures { rows.new.items ≡ replaced rows.old.items changes.items }
{
    while let Some(change) = changes.pop() {
        if let Some(line) = change {
            rows[changes.len()] = line;
        }
    }
}
