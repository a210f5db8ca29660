//! The lists of tasks, tested to fit their split.
ghost use Rattle.std.specs.Prelude.{◌≡◌, ◌↔◌, ◌<◌, ◌≤◌, IfOk, IsTrue};
ghost use Rattle.std.specs.List.{AllByRecursion};
ghost use Rattle.bz_algebra.specs.Numbers.{IsNarrow};
ghost use Rattle.bz_model.specs.Parting.{blocks_of};
ghost use Rattle.bz_tree.specs.Ends.{box_of};
ghost use Rattle.bz_std.specs.Floored.{AreFloored, HasFloor};
ghost use Rattle.bz_std.specs.Tasks.{IsBoxOf, IsCutOfSplit, IsMasterOf};
ghost use Rattle.bz_event.specs.Nodes.{IsReady};

use bz_cut::{Cut, Mode};
use bz_model::{Master, Split};
use bz_num::{Items, OutOfMemory};
use bz_tree::{NodeBox, root_box};
use std::alloc::{AllocError, Global};

/// Why there is no such list.
#[derive(Clone, Copy, Debug, PartialEq, Eq)]
pub enum Misfit {
    /// It doesn't fit the split, or has a number -2^127.
    Shape,
    /// There is no memory.
    OutOfMemory,
}

impl From<OutOfMemory> for Misfit {
    fn from(_error: OutOfMemory) -> Misfit {
        Misfit::OutOfMemory
    }
}

impl From<AllocError> for Misfit {
    fn from(_error: AllocError) -> Misfit {
        Misfit::OutOfMemory
    }
}

/// Whether none of the numbers is -2^127.
fn are_narrow(numbers: &[i128]) -> bool
    ensures { IsTrue result ↔ AllByRecursion IsNarrow numbers.now }
{
    for number in numbers {
        if *number == i128::MIN {
            return false;
        }
    }
    true
}

/// These numbers, of which none is -2^127.
fn narrow_numbers(alloc: Global, numbers: &[i128]) -> Result<Items<i128>, Misfit>
    ensures value { IfOk result (λ items. items ≡ numbers.now) }
    ensures narrow { IfOk result (AllByRecursion IsNarrow) }
{
    if !are_narrow(numbers) {
        return Err(Misfit::Shape);
    }
    Ok(Items::from_vec(Vec::from_slice(alloc, numbers)?))
}

/// The point `x / den` of the master with the etas `eta / den`.
pub fn master(
    alloc: Global,
    split: &Split,
    den: i128,
    x: &[i128],
    eta: &[i128],
) -> Result<Master, Misfit>
    ensures fits { IfOk result (IsMasterOf split.now.part) }
    ensures value { IfOk result (λ point. (point.den ≡ den) × (point.x ≡ x.now) × (point.eta ≡ eta.now)) }
{
    if den < 1 || x.len() != split.width(0) as usize || eta.len() != split.blocks() as usize {
        return Err(Misfit::Shape);
    }
    Ok(Master {
        den,
        x: narrow_numbers(alloc, x)?,
        eta: narrow_numbers(alloc, eta)?,
    })
}

/// The box of these ends.
pub fn region(
    alloc: Global,
    split: &Split,
    lower: &[i128],
    upper: &[i128],
) -> Result<NodeBox, Misfit>
    ensures fits { IfOk result (λ region. IsBoxOf split.now.model (box_of region)) }
    ensures value { IfOk result (λ region. (region.lower ≡ lower.now) × (region.upper ≡ upper.now)) }
{
    let root = root_box(alloc, split)?;
    if lower.len() != root.lower.as_slice().len() || upper.len() != root.upper.as_slice().len() {
        return Err(Misfit::Shape);
    }
    Ok(NodeBox {
        lower: narrow_numbers(alloc, lower)?,
        upper: narrow_numbers(alloc, upper)?,
    })
}

/// Whether the cut is of one of the split's blocks, over the master's positions.
fn is_cut_of(split: &Split, cut: &Cut) -> bool
    ensures { IsTrue result ↔ IsCutOfSplit split.now.part cut.now }
{
    0 < cut.block && cut.block <= split.blocks() && split.has_positions(0, &cut.alpha)
}

/// Whether each cut is of one of the split's blocks, over the master's positions.
pub fn are_cuts_of(split: &Split, cuts: &[Cut]) -> bool
    ensures { IsTrue result ↔ AllByRecursion (IsCutOfSplit split.now.part) cuts.now }
{
    for cut in cuts {
        if !is_cut_of(split, cut) {
            return false;
        }
    }
    true
}

/// Whether one of the cuts is a floor of the block.
fn has_floor(cuts: &[Cut], block: u32) -> bool
    ensures { IsTrue result → HasFloor cuts.now block }
{
    for cut in cuts {
        if cut.block == block && cut.p0 > 0 {
            return true;
        }
    }
    false
}

/// Whether each block has a floor among the cuts.
fn are_floored(blocks: u32, cuts: &[Cut]) -> bool
    ensures { IsTrue result → AreFloored blocks cuts.now }
{
    for block in 0..blocks {
        if !has_floor(cuts, block + 1) {
            return false;
        }
    }
    true
}

/// Whether the cuts hold each eta of a node's program from below in mode Cost, and there is a block in mode Point.
pub fn is_ready(split: &Split, cuts: &[Cut], mode: Mode) -> bool
    ensures { IsTrue result → IsReady split.now.part cuts.now mode }
{
    match mode {
        Mode::Cost => are_floored(split.blocks(), cuts),
        Mode::Point => split.blocks() > 0,
    }
}
