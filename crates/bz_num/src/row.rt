//! Rows of whole numbers of which most are zero.
ghost use Rattle.std.specs.Prelude.{◌≡◌, ◌++◌, IfOk, OnErr, OnOk, pos, ◌<ℤ◌};
ghost use Rattle.std.specs.Int.RustNames.{unsigned_abs};
ghost use Rattle.bz_algebra.specs.Numbers.{IsNarrow};
ghost use Rattle.bz_algebra.specs.Sums.{AllBelow, coef};
ghost use Rattle.bz_num.specs.Primitive.{DividesAll, times_entries};
ghost use Rattle.bz_num.specs.Row.{IsSparse, entry_at};

use crate::memory::OutOfMemory;
use std::alloc::Global;
use std::marker::Model;

/// Pairs of a column and its number: columns rise, and no number is zero or wide.
/// Contracts see the list of the pairs.
#[derive(Drop)]
pub struct SparseRow {
    entries: Vec<(u32, i128)>,
}

impl Model for SparseRow {
    ghost use Rattle.std.specs.Prelude.{List, ℤ, ℕ};
    ghost use Rattle.bz_num.specs.Row.{IsSparse};

    ghost Value = { List (ℕ × ℤ) };

    ghost view = { λ r. r.entries.items };

    ghost invariant = { λ r. IsSparse r.entries.items };
}

impl SparseRow {
    /// The row of these pairs. It takes memory for them.
    pub fn from_pairs(alloc: Global, pairs: &[(u32, i128)]) -> Result<Self, OutOfMemory>
        requires { IsSparse pairs.now }
        ensures { IfOk result (λ row. row ≡ pairs.now) }
    {
        let entries = Vec::from_slice(alloc, pairs)?;
        Ok(SparseRow { entries })
    }

    /// The row of these pairs.
    pub fn from_vec(entries: Vec<(u32, i128)>) -> Self
        requires { IsSparse entries.items }
        ensures { result ≡ entries.items }
    {
        SparseRow { entries }
    }

    /// A row of the same pairs. It takes memory for them.
    pub fn copy(&self, alloc: Global) -> Result<Self, OutOfMemory>
        ensures { IfOk result (λ row. row ≡ self.now) }
    {
        let entries = Vec::from_slice(alloc, self.entries.as_slice())?;
        Ok(SparseRow { entries })
    }

    /// The pairs, in order.
    pub fn as_slice(&self) -> &[(u32, i128)]
        ensures value { result.now ≡ self.now }
        ensures sparse { IsSparse self.now }
    {
        self.entries.as_slice()
    }

    /// The number at the column, 0 where the row has none there.
    pub fn at(&self, column: u32) -> i128
        ensures value { result ≡ coef self.now column }
        ensures narrow { IsNarrow result }
    {
        match self
            .entries
            .as_slice()
            .binary_search_by_key(&column, |entry| entry.0)
        {
            Ok(place) => self.entries[place].1,
            Err(_) => 0,
        }
    }

    /// Adds the number at a column above all of the row's; 0 adds nothing. For want of memory the row stays as it was.
    pub fn push(&mut self, column: u32, number: i128) -> Result<(), OutOfMemory>
        requires above { AllBelow column self.old }
        requires narrow { IsNarrow number }
        ensures value { OnOk result (self.new ≡ self.old ++ entry_at column number) }
        ensures unchanged { OnErr result (self.new ≡ self.old) }
    {
        if number != 0 {
            self.entries
                .push((column, number))
                .map_err(|_| OutOfMemory)?;
        }
        Ok(())
    }

    /// Divides each number by a common divisor.
    pub fn divide_by(&mut self, divisor: i128)
        requires positive { pos 0 <ℤ divisor }
        requires common { DividesAll (unsigned_abs divisor) self.old }
        ensures { self.old ≡ times_entries divisor self.new }
    {
        divide_entries(self.entries.as_mut_slice(), divisor);
    }
}

// Divides each number of the entries by a common divisor.
fn divide_entries(entries: &mut [(u32, i128)], divisor: i128)
    requires positive { pos 0 <ℤ divisor }
    requires common { DividesAll (unsigned_abs divisor) entries.old }
    ensures { entries.old ≡ times_entries divisor entries.new }
{
    for entry in entries.iter_mut() {
        entry.1 /= divisor;
    }
}
