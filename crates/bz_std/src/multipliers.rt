//! The rows of the numbers of a list.
ghost use Rattle.std.specs.Prelude.{◌≢◌, ◌<◌, ◌≤◌, ℕ, IfOk, length};
ghost use Rattle.bz_num.specs.Dense.{entry};
ghost use Rattle.bz_std.specs.CutsFrom.{AreEntries};
ghost use Rattle.bz_std.specs.NumberLists.{wide_number};
ghost use Rattle.bz_std.specs.OneRow.{EntriesAreUnique};

use bz_num::{OutOfMemory, SparseRow};
use std::alloc::Global;

/// The first n numbers of the list, without those that are 0. None of them is -2^127.
pub fn entries_of(alloc: Global, numbers: &[i128], n: u32) -> Result<SparseRow, OutOfMemory>
    requires inside { n ≤ length numbers.now }
    requires narrow { (i : ℕ) → i < n → entry numbers.now i ≢ wide_number }
    ensures { IfOk result (AreEntries n (entry numbers.now)) }
{
    let mut row = SparseRow::from_vec(Vec::new(alloc));
    for place in 0..n {
        row.push(place, numbers[place as usize])?;
    }
    Ok(row)
}

/// There is no other row of the first n numbers.
pub fn entries_are_unique()
    ensures { EntriesAreUnique }
{}
