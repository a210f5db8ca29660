//! The widths of parts, and whether the indexes of a row are positions of a part.
ghost use Rattle.std.specs.Prelude.{◌≡◌, ◌↔◌, ◌≤◌, IsTrue};
ghost use Rattle.bz_algebra.specs.Sums.{AllBelow};
ghost use Rattle.bz_model.specs.Parting.{blocks_of, width_of};

use crate::splitting::Split;
use bz_num::SparseRow;

/// Whether each index of the row is below `count`. It takes no memory.
pub fn all_below(row: &SparseRow, count: u32) -> bool
    ensures { IsTrue result ↔ AllBelow count row.now }
{
    for entry in row.as_slice() {
        if entry.0 >= count {
            return false;
        }
    }
    true
}

impl Split {
    /// How many columns a part has. It takes no memory.
    pub fn width(&self, part: u32) -> u32
        requires { part ≤ blocks_of self.now.part }
        ensures { result ≡ width_of self.now.part part }
    {
        self.columns_of(part).len() as u32
    }

    /// Whether each index of the row is a position of a part. It takes no memory.
    pub fn has_positions(&self, part: u32, row: &SparseRow) -> bool
        requires { part ≤ blocks_of self.now.part }
        ensures { IsTrue result ↔ AllBelow (width_of self.now.part part) row.now }
    {
        all_below(row, self.width(part))
    }
}
