//! Columns that may not be where they are.
ghost use Rattle.std.specs.Prelude.{◌≡◌, length, MatchOption};
ghost use Rattle.bz_model.specs.Strict.{AreStrictColumns, AreUnjoined, IsStrictColumn};
ghost use Rattle.bz_split.specs.SplitFaults.{IsColumnFault, IsSplitFault};

use crate::faults::SplitFault;
use bz_model::{Column, Model};

/// What is wrong with a column in the part `own`: an integer column in a block, or one with no two bounds in the
/// master.
fn column_fault(own: u32, j: u32, column: &Column) -> Option<SplitFault>
    ensures { MatchOption result (IsStrictColumn own column.now) (IsColumnFault own j column.now) }
{
    if own > 0 && column.integer {
        Some(SplitFault::IntegerInBlock { column: j })
    } else if own > 0 || (column.lower.is_some() && column.upper.is_some()) {
        None
    } else if column.integer {
        Some(SplitFault::IntegerOpen { column: j })
    } else {
        Some(SplitFault::OpenMaster { column: j })
    }
}

/// What is wrong with the first column that may not be where it is.
pub(crate) fn first_column_fault(model: &Model, part: &[u32]) -> Option<SplitFault>
    requires numbers { length part.now ≡ length model.now.columns }
    requires rows { AreUnjoined model.now part.now }
    ensures { MatchOption result (AreStrictColumns model.now part.now) (IsSplitFault model.now part.now) }
{
    for (j, column) in model.columns.as_slice().iter().enumerate() {
        if let Some(fault) = column_fault(part[j], j as u32, column) {
            return Some(fault);
        }
    }
    None
}
