//! The tasks of a search.

use bz_cut::{Cut, Mode};
use bz_model::Master;
use bz_num::Items;
use bz_tree::NodeBox;

/// Which task of a search it is, by the numbers that the search counts its nodes, cuts and posted points by.
#[derive(Clone, Copy, Debug, PartialEq, Eq)]
pub enum TaskName {
    /// The floor of a block, counted from 1.
    Floor { block: u32 },
    /// A node over the first `front` cuts of the search, both counted from 0.
    Node { node: u32, front: u32 },
    /// The separation of a block, counted from 1, at a posted point, counted from 0.
    Sep { post: u32, block: u32 },
}

/// A node to be solved.
#[derive(Drop)]
pub struct NodeTask {
    /// Its number, from 0 up.
    pub node: u32,
    /// How many cuts of the search the task was made with.
    pub front: u32,
    /// The ends of the integer columns there.
    pub region: NodeBox,
    /// Those cuts.
    pub cuts: Items<Cut>,
    pub mode: Mode,
}

/// A block to be completed at a posted point.
#[derive(Drop)]
pub struct SepTask {
    /// The number of the point, from 0 up.
    pub post: u32,
    /// The number of the block, from 1 up.
    pub block: u32,
    /// The point of the master with an eta for each block.
    pub point: Master,
    pub mode: Mode,
}
