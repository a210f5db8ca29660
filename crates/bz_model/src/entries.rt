//! The numbers of the inequalities of each part, by position.
ghost use Rattle.std.specs.Prelude.{ℕ, ◌≡◌, ◌<◌, ◌^◌, [], IfOk, length, replicate, slice_index_or};
ghost use Rattle.std.specs.List.{AllByRecursion};
ghost use Rattle.bz_algebra.specs.Numbers.{IsNarrow};
ghost use Rattle.bz_algebra.specs.Sums.{AllBelow, coef};
ghost use Rattle.bz_num.specs.Row.{entry_at};
ghost use Rattle.bz_model.specs.Entries.{AreEntries, AreEntryLists, HasEntries, RowsFit, rows_of, width_in};
ghost use Rattle.bz_model.specs.PartLists.{AreJoined, Gains};
ghost use Rattle.bz_model.specs.Rows.{terms_at, terms_of};

use crate::growing::Growing;
use crate::records::Ineq;
use bz_num::{OutOfMemory, SparseRow};
use std::alloc::{AllocError, Global};

/// Which terms of an inequality.
#[derive(Clone, Copy, Debug, PartialEq, Eq)]
pub enum Terms {
    /// Those of its own part.
    Own,
    /// Those of the master.
    Master,
}

/// The numbers of a list of inequalities: at each position those of the inequalities that have one there, by their
/// places in the list.
#[derive(Drop)]
pub struct ByPosition {
    /// Those of the part's own positions.
    pub own: Vec<SparseRow>,
    /// Those of the master's positions.
    pub master: Vec<SparseRow>,
}

/// So many rows without entries.
fn empty_rows(alloc: Global, count: usize) -> Result<Vec<SparseRow>, AllocError>
    ensures { IfOk result (λ rows. rows.items ≡ replicate count []) }
{
    let mut rows = Vec::with_capacity(alloc, count)?;
    for _ in 0..count {
        rows.push(SparseRow::from_vec(Vec::new(alloc)))?;
    }
    Ok(rows)
}

/// Adds the number at a place to the row of a position; 0 adds nothing.
fn push_entry(
    rows: &mut Vec<SparseRow>,
    position: usize,
    place: u32,
    number: i128,
) -> Result<(), OutOfMemory>
    requires inside { position < length rows.old.items }
    requires above { AllBelow place (slice_index_or rows.old.items position []) }
    requires narrow { IsNarrow number }
    ensures { IfOk result (λ _. Gains rows.old.items rows.new.items position (entry_at place number)) }
{
    rows[position].push(place, number)
}

/// Adds the numbers of the inequality at a place to the rows of their positions.
fn push_terms(rows: &mut Vec<SparseRow>, place: u32, terms: &SparseRow) -> Result<(), OutOfMemory>
    requires inside { AllBelow (length rows.old.items) terms.now }
    requires above { (i : ℕ) → i < length rows.old.items → AllBelow place (slice_index_or rows.old.items i []) }
    ensures { IfOk result (λ _. AreJoined rows.old.items rows.new.items (λ i. entry_at place (coef terms.now i))) }
{
    for entry in terms.as_slice() {
        push_entry(rows, entry.0 as usize, place, entry.1)?;
    }
    Ok(())
}

/// The terms of an inequality that are asked for.
fn chosen_terms(ineq: &Ineq, which: Terms) -> &SparseRow
    ensures { result.now ≡ terms_of which ineq.now }
{
    match which {
        Terms::Own => &ineq.own,
        Terms::Master => &ineq.master,
    }
}

/// The numbers of the inequalities at each position.
fn rows_by_position(
    alloc: Global,
    ineqs: &[Ineq],
    which: Terms,
    width: usize,
) -> Result<Vec<SparseRow>, OutOfMemory>
    requires inside { AllByRecursion (λ i. AllBelow width (terms_of which i)) ineqs.now }
    requires few { length ineqs.now < 2 ^ 32 }
    ensures { IfOk result (λ rows. AreEntries width (terms_at which ineqs.now) rows.items) }
{
    let mut rows = empty_rows(alloc, width)?;
    for (place, ineq) in ineqs.iter().enumerate() {
        push_terms(&mut rows, place as u32, chosen_terms(ineq, which))?;
    }
    Ok(rows)
}

/// The numbers of the inequalities at each position of their part and of the master.
fn by_position(
    alloc: Global,
    ineqs: &[Ineq],
    width: usize,
    master_width: usize,
) -> Result<ByPosition, OutOfMemory>
    requires { RowsFit width master_width ineqs.now }
    ensures { IfOk result (HasEntries width master_width ineqs.now) }
{
    Ok(ByPosition {
        own: rows_by_position(alloc, ineqs, Terms::Own, width)?,
        master: rows_by_position(alloc, ineqs, Terms::Master, master_width)?,
    })
}

/// The numbers of each part's inequalities, by position.
pub fn entry_lists(
    alloc: Global,
    columns: &[Growing<u32>],
    inequalities: &[Growing<Ineq>],
) -> Result<Growing<ByPosition>, OutOfMemory>
    requires parts { length columns.now ≡ length inequalities.now }
    requires fit { (b : ℕ) → b < length inequalities.now
        → RowsFit (width_in columns.now b) (width_in columns.now 0) (slice_index_or inequalities.now b []) }
    ensures { IfOk result (AreEntryLists columns.now inequalities.now) }
{
    let mut lists = Growing::new(alloc);
    for (b, ineqs) in inequalities.iter().enumerate() {
        let width = columns[b].as_slice().len();
        let master_width = columns[0].as_slice().len();
        lists.push(by_position(alloc, ineqs.as_slice(), width, master_width)?)?;
    }
    Ok(lists)
}

/// The lists of the terms that are asked for.
pub fn chosen_rows(entries: &ByPosition, which: Terms) -> &[SparseRow]
    ensures { result.now ≡ rows_of which entries.now }
{
    match which {
        Terms::Own => entries.own.as_slice(),
        Terms::Master => entries.master.as_slice(),
    }
}
