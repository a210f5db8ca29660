//! How many rows each part has.
ghost use Rattle.std.specs.Prelude.{IfOk};
ghost use Rattle.bz_split.specs.Counts.{AreRowCounts};

use bz_model::Split;
use bz_num::OutOfMemory;
use std::alloc::Global;

/// How many rows each part of a split has: the master's number first, and then one number per block, in order. A row
/// belongs to the block of its first column in a block, and to the master where it has none. The error is want of
/// memory.
pub fn rows_by_part(alloc: Global, split: &Split) -> Result<Vec<u32>, OutOfMemory>
    ensures { IfOk result (λ counts. AreRowCounts split.now counts.items) }
{
    let mut counts = vec![in alloc; 0; split.blocks() as usize + 1]?;
    for home in split.homes() {
        counts[*home as usize] += 1;
    }
    Ok(counts)
}
