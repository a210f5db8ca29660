//! The columns of each part, and the position of each column.
ghost use Rattle.std.specs.Prelude.{◌≡◌, ◌<◌, IfOk, length};
ghost use Rattle.bz_model.specs.Limits.{list_limit};
ghost use Rattle.bz_model.specs.Parting.{blocks_of};
ghost use Rattle.bz_model.specs.PartLists.{AreColumnLists, ArePositions};

use crate::growing::{Growing, empty_lists, push_at};
use std::alloc::{AllocError, Global};

/// The columns of each part, and the position of each column.
#[derive(Drop)]
pub struct Places {
    pub columns: Vec<Growing<u32>>,
    pub positions: Vec<u32>,
}

/// The number of blocks: the greatest number of the partition. It takes no memory.
pub fn greatest(part: &[u32]) -> u32
    ensures { result ≡ blocks_of part.now }
{
    let mut most = 0;
    for b in part {
        if most < *b {
            most = *b;
        }
    }
    most
}

/// The columns of each part, and the position of each column. A position is how many earlier columns are in the same
/// part, so it is the length of the part's list just before the column is added.
pub fn find_places(alloc: Global, part: &[u32], blocks: u32) -> Result<Places, AllocError>
    requires few { length part.now < list_limit }
    requires blocks { blocks ≡ blocks_of part.now }
    ensures positions { IfOk result (λ places. ArePositions part.now places.positions.items) }
    ensures columns { IfOk result (λ places. AreColumnLists part.now places.columns.items) }
{
    let mut columns = empty_lists(alloc, blocks as usize + 1)?;
    let mut positions = Vec::with_capacity(alloc, part.len())?;
    for (column, b) in part.iter().enumerate() {
        positions.push(columns[*b as usize].as_slice().len() as u32)?;
        push_at(&mut columns, *b as usize, column as u32)?;
    }
    Ok(Places { columns, positions })
}
