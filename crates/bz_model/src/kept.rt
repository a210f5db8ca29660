//! What a split keeps beside its model and partition.
ghost use Rattle.std.specs.Prelude.{◌≡◌, IfOk};
ghost use Rattle.bz_model.specs.Splits.{IsKept};
ghost use Rattle.bz_model.specs.Strict.{HasItsColumns, IsPartition};

use crate::entries::{ByPosition, entry_lists};
use crate::growing::Growing;
use crate::homes::find_homes;
use crate::places::{find_places, greatest};
use crate::records::{Ineq, Model};
use crate::rows::inequality_lists;
use bz_num::OutOfMemory;
use std::alloc::Global;

/// What a split keeps beside its model and partition.
#[derive(Drop)]
pub struct Kept {
    /// How many blocks there are.
    pub blocks: u32,
    /// The part of each row.
    pub homes: Vec<u32>,
    /// The columns of each part.
    pub columns: Vec<Growing<u32>>,
    /// The inequalities of each part.
    pub inequalities: Vec<Growing<Ineq>>,
    /// The numbers of each part's inequalities, by position.
    pub entries: Growing<ByPosition>,
}

/// Makes what a split keeps beside its model and partition.
pub fn keep(alloc: Global, model: &Model, part: &[u32]) -> Result<Kept, OutOfMemory>
    requires indexes { HasItsColumns model.now }
    requires partition { IsPartition model.now part.now }
    ensures { IfOk result (IsKept model.now part.now) }
{
    let blocks = greatest(part);
    let places = find_places(alloc, part, blocks)?;
    let homes = find_homes(alloc, part, model.rows.as_slice())?;
    let inequalities = inequality_lists(
        alloc,
        model,
        part,
        places.positions.as_slice(),
        homes.as_slice(),
        blocks,
    )?;
    let entries = entry_lists(alloc, places.columns.as_slice(), inequalities.as_slice())?;
    Ok(Kept {
        blocks,
        homes,
        columns: places.columns,
        inequalities,
        entries,
    })
}
