//! Rows that join two blocks.
ghost use Rattle.std.specs.Prelude.{◌≡◌, length, MatchOption};
ghost use Rattle.bz_algebra.specs.Sums.{AllBelow};
ghost use Rattle.bz_model.specs.Strict.{AreUnjoined, HasItsColumns, IsInOneBlock};
ghost use Rattle.bz_split.specs.SplitFaults.{AreTwoBlocks, IsSplitFault};

use crate::faults::SplitFault;
use bz_model::{Model, home};
use bz_num::SparseRow;

/// The first two different blocks of a row's columns, where it has columns of two.
fn two_blocks_of(part: &[u32], terms: &SparseRow) -> Option<(u32, u32)>
    requires { AllBelow (length part.now) terms.now }
    ensures { MatchOption result (IsInOneBlock part.now terms.now)
        (λ blocks. AreTwoBlocks part.now terms.now blocks.0 blocks.1) }
{
    let home = home(part, terms);
    for entry in terms.as_slice() {
        let b = part[entry.0 as usize];
        if b != 0 && b != home {
            return Some((home, b));
        }
    }
    None
}

/// The first row that joins blocks.
pub(crate) fn first_joined_row(model: &Model, part: &[u32]) -> Option<SplitFault>
    requires columns { HasItsColumns model.now }
    requires numbers { length part.now ≡ length model.now.columns }
    ensures { MatchOption result (AreUnjoined model.now part.now) (IsSplitFault model.now part.now) }
{
    for (i, row) in model.rows.as_slice().iter().enumerate() {
        if let Some((a, b)) = two_blocks_of(part, &row.terms) {
            return Some(SplitFault::Joins {
                row: i as u32,
                a,
                b,
            });
        }
    }
    None
}
