//! Cuts of the tables.
ghost use Rattle.std.specs.Prelude.{◌<◌, ◌^◌, IfOk, length};
ghost use Rattle.bz_algebra.specs.Numbers.{IsNarrow};
ghost use Rattle.bz_algebra.specs.Sums.{AllBelow};

use bz_cut::Cut;
use bz_num::{Items, OutOfMemory, SparseRow};
use std::alloc::Global;

/// The cut `alpha x - p0 eta <= beta` of a block, with a number for each position of the master.
#[derive(Clone, Copy)]
pub(crate) struct CutRow {
    pub(crate) block: u32,
    pub(crate) alpha: &'static [i128],
    pub(crate) p0: i128,
    pub(crate) beta: i128,
}

/// The number; no table has one that is wide.
fn narrow(number: i128) -> i128
    ensures { IsNarrow result }
{
    if number == i128::MIN { 0 } else { number }
}

/// The row of the first few numbers.
fn row(alloc: Global, numbers: &[i128]) -> Result<SparseRow, OutOfMemory> {
    let mut row = SparseRow::from_vec(Vec::new(alloc));
    for place in 0..numbers.len().min(100) {
        row.push(place as u32, narrow(numbers[place]))?;
    }
    Ok(row)
}

fn cut(alloc: Global, wanted: &CutRow) -> Result<Cut, OutOfMemory> {
    Ok(Cut {
        block: wanted.block,
        mu: SparseRow::from_vec(Vec::new(alloc)),
        gcd: 1,
        alpha: row(alloc, wanted.alpha)?,
        p0: narrow(wanted.p0),
        beta: narrow(wanted.beta),
    })
}

/// These cuts.
pub(crate) fn cuts(alloc: Global, wanted: &[CutRow]) -> Result<Items<Cut>, OutOfMemory> {
    let mut cuts = Vec::new(alloc);
    for one in wanted {
        cuts.push(cut(alloc, one)?).map_err(|_| OutOfMemory)?;
    }
    Ok(Items::from_vec(cuts))
}
