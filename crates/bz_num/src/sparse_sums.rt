//! Sums of a row's numbers, each times what stands at its column, over those columns alone where something stands.
ghost use Rattle.std.specs.Prelude.{ℕ, ℤ, ◌≡◌, ◌+◌, ◌^◌, ◌<◌, ◌≤◌, pos, OnOk, MatchOption, length, slice_index_or};
ghost use Rattle.bz_algebra.specs.Sums.{AllBelow, coef};
ghost use Rattle.bz_num.specs.Fold.{fold_from, fold_of, pairs_at};
ghost use Rattle.bz_num.specs.Row.{IsSparse};
ghost use Rattle.bz_num.specs.SparseSums.{AreAhead, IsAhead, IsCountBefore, IsFrom, IsMissing, IsPlace, Steps, sum_left};

use crate::products::{Folding, WideSum};
use crate::row::SparseRow;
use crate::sums::Numbers;

/// The place of the pair at the column, where there is one.
fn place_of(entries: &[(u32, i128)], column: usize) -> Option<usize>
    requires { IsSparse entries.now }
    ensures { MatchOption result (IsMissing column entries.now) (IsPlace column entries.now) }
{
    entries
        .binary_search_by_key(&column, |entry| entry.0 as usize)
        .ok()
}

/// Takes the row's pairs up to the one at the column, where the row has one there that is not taken, times the number.
/// Those before it give 0.
pub fn fold_entry(
    row: &SparseRow,
    column: usize,
    number: i128,
    folding: &mut Folding,
) -> Result<(), WideSum>
    requires { folding.old.count ≤ length row.now }
    ensures inside { OnOk result (folding.new.count ≤ length row.now) }
    ensures steps { (f g : ℕ → ℤ) → IsAhead (column, number) f g → Steps row.now f g folding.old folding.new result }
{
    let entries = row.as_slice();
    if let Some(found) = place_of(&entries[folding.count()..], column) {
        folding.pass(found);
        folding.push(entries[folding.count()].1, number)?;
    }
    Ok(())
}

/// The same with all entries of another row. The time grows with the other row: its columns are looked up in the row.
pub fn fold_entries(
    row: &SparseRow,
    other: &SparseRow,
    folding: &mut Folding,
) -> Result<(), WideSum>
    requires { folding.old.count ≤ length row.now }
    ensures inside { OnOk result (folding.new.count ≤ length row.now) }
    ensures steps { (f g : ℕ → ℤ) → AreAhead other.now f g → Steps row.now f g folding.old folding.new result }
    ensures sparse { IsSparse other.now }
{
    for entry in other.as_slice() {
        fold_entry(row, entry.0 as usize, entry.1, folding)?;
    }
    Ok(())
}

/// How many of the row's pairs are before the column.
fn count_before(entries: &[(u32, i128)], column: usize) -> usize
    requires { IsSparse entries.now }
    ensures { IsCountBefore column entries.now result }
{
    match entries.binary_search_by_key(&column, |entry| entry.0 as usize) {
        Ok(place) => place,
        Err(place) => place,
    }
}

/// Takes the row's pairs before the column, which give 0.
fn pass_before(row: &SparseRow, column: usize, folding: &mut Folding)
    requires { folding.old.count ≤ length row.now }
    ensures inside { folding.new.count ≤ length row.now }
    ensures left { (f : ℕ → ℤ) → ((j : ℕ) → j < column → f j ≡ pos 0)
        → sum_left row.now f folding.new ≡ sum_left row.now f folding.old }
    ensures behind { (k : ℕ) → folding.new.count ≤ k → k < length row.now
        → column ≤ (slice_index_or row.now k (0, pos 0)).0 }
{
    let count = count_before(row.as_slice(), column);
    if folding.count() < count {
        folding.pass(count - folding.count());
    }
}

/// The sum of the products taken and of those of further pairs, each number times the one at its place.
fn fold_rest<N: Numbers>(
    rest: &[(u32, i128)],
    numbers: &N,
    folding: Folding,
) -> Result<i128, WideSum>
    requires places { AllBelow (N.count numbers.now) rest.now }
    requires room { folding.count + length rest.now < 2 ^ 64 }
    ensures { result ≡ fold_from folding.count folding.sum (pairs_at rest.now (N.at numbers.now)) }
{
    let mut folding = folding;
    for entry in rest {
        folding.push(entry.1, numbers.number(entry.0))?;
    }
    Ok(folding.sum())
}

/// The sum of the products taken and of those of the row's pairs from the column on, each number times the one at its
/// place. The row's other pairs give 0.
pub fn fold_from_column<N: Numbers>(
    row: &SparseRow,
    column: usize,
    numbers: &N,
    folding: Folding,
) -> Result<i128, WideSum>
    requires places { AllBelow (N.count numbers.now) row.now }
    requires inside { folding.count ≤ length row.now }
    ensures { (f : ℕ → ℤ) → IsFrom column f (N.at numbers.now) → result ≡ sum_left row.now f folding }
{
    let mut folding = folding;
    pass_before(row, column, &mut folding);
    fold_rest(&row.as_slice()[folding.count()..], numbers, folding)
}

/// The sum of the row's numbers, each times the number of the other row at its column, or the first of these pairs at
/// which it is wide. The time grows with the other row: its columns are looked up in the row.
pub fn sparse_sum(row: &SparseRow, other: &SparseRow) -> Result<i128, WideSum>
    ensures { result ≡ fold_of (pairs_at row.now (coef other.now)) }
{
    let mut folding = Folding::new();
    fold_entries(row, other, &mut folding)?;
    Ok(folding.sum())
}
