//! The cost of a part over columns.
ghost use Rattle.std.specs.Prelude.{◌≤◌, ◌*◌, IfOk};
ghost use Rattle.bz_algebra.specs.Sums.{AllBelow};
ghost use Rattle.bz_model.specs.Parting.{blocks_of, width_of};
ghost use Rattle.bz_std.specs.Tasks.{IsPartCost};

use crate::columns::push_variable;
use bz_model::Split;
use bz_num::{OutOfMemory, SparseRow};
use std::alloc::Global;

/// The cost that is minimised, of a part's positions.
pub(crate) fn cost_over_columns(
    alloc: Global,
    split: &Split,
    part: u32,
) -> Result<SparseRow, OutOfMemory>
    requires { part ≤ blocks_of split.now.part }
    ensures value { IfOk result (IsPartCost split.now.model split.now.part part) }
    ensures below { IfOk result (AllBelow (2 * width_of split.now.part part)) }
{
    let mut row = SparseRow::from_vec(Vec::new(alloc));
    // Without costs no position has to be looked up.
    if split.model().cost.as_slice().is_empty() {
        return Ok(row);
    }
    for position in 0..split.width(part) {
        push_variable(&mut row, position, split.inner_cost(part, position))?;
    }
    Ok(row)
}
