//! Parts that are too large.
ghost use Rattle.std.specs.Prelude.{◌≡◌, ◌≤◌, length, MatchOption};
ghost use Rattle.bz_model.specs.Limits.{block_limit};
ghost use Rattle.bz_model.specs.Parting.{blocks_of};
ghost use Rattle.bz_model.specs.Strict.{AreStrictColumns, AreUnjoined, HasItsColumns, IsStrict};
ghost use Rattle.bz_split.specs.SplitFaults.{IsSplitFault};

use crate::faults::SplitFault;
use bz_model::{Model, greatest, size};

/// The most inequalities of a part, two counted for the box of each integer column where it is the master.
const MAX_SIZE: u32 = 1024;

/// The first part that is too large. There is none where the partition is strict.
pub(crate) fn first_too_large(model: &Model, part: &[u32]) -> Option<SplitFault>
    requires indexes { HasItsColumns model.now }
    requires numbers { length part.now ≡ length model.now.columns }
    requires blocks { blocks_of part.now ≤ block_limit }
    requires rows { AreUnjoined model.now part.now }
    requires columns { AreStrictColumns model.now part.now }
    ensures { MatchOption result (IsStrict model.now part.now) (IsSplitFault model.now part.now) }
{
    let blocks = greatest(part);
    for b in 0..blocks + 1 {
        let count = size(model, part, b);
        if count > MAX_SIZE {
            return Some(SplitFault::TooLarge { part: b, count });
        }
    }
    None
}
