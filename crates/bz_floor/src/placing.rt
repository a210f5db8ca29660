//! Directions of a block over the columns of the model.
ghost use Rattle.std.specs.Prelude.{◌≡◌, ◌≤◌, IfOk, length};
ghost use Rattle.bz_model.specs.Parting.{blocks_of, width_of};
ghost use Rattle.bz_event.specs.Floors.{placed as placed_over};

use bz_model::Split;
use bz_num::OutOfMemory;
use std::alloc::Global;

/// The direction over all columns of the model: the block's numbers at its columns, and 0 elsewhere.
pub fn placed(
    alloc: Global,
    split: &Split,
    block: u32,
    d: &[i128],
) -> Result<Vec<i128>, OutOfMemory>
    requires last { block ≤ blocks_of split.now.part }
    requires numbers { length d.now ≡ width_of split.now.part block }
    ensures { IfOk result (λ ray. ray.items ≡ placed_over split.now.part block d.now) }
{
    let mut ray = vec![in alloc; 0; split.model().columns.as_slice().len()]?;
    for (position, column) in split.columns_of(block).iter().enumerate() {
        ray[*column as usize] = d[position];
    }
    Ok(ray)
}
