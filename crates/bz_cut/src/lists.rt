//! Lists of multipliers.
ghost use Rattle.std.specs.Prelude.{◌↔◌, ◌<◌, pos, ◌<ℤ◌, IsTrue};
ghost use Rattle.bz_cut.specs.Rows.{AreMultipliers};

use bz_num::SparseRow;

/// Whether the entry is a positive number at a place of a list.
fn is_multiplier(entry: &(u32, i128), count: usize) -> bool
    ensures { IsTrue result ↔ ((entry.now.0 < count) × (pos 0 <ℤ entry.now.1)) }
{
    (entry.0 as usize) < count && 0 < entry.1
}

/// Whether the entries are positive numbers at places of a list of so many items. It takes no memory.
pub fn are_multipliers(row: &SparseRow, count: usize) -> bool
    ensures { IsTrue result ↔ AreMultipliers count row.now }
{
    for entry in row.as_slice() {
        if !is_multiplier(entry, count) {
            return false;
        }
    }
    true
}
