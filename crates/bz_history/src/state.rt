//! The records of a search's state.

use bz_event::How;
use bz_model::{BlockPart, Master};
use bz_num::Items;
use bz_tree::Leaf;

/// The ends between which the integer columns lie in a node, in file order. They may cross.
#[derive(Drop)]
pub struct Region {
    pub lower: Items<i128>,
    pub upper: Items<i128>,
}

/// A node of the search's tree.
#[derive(Drop)]
pub struct Node {
    pub region: Region,
    /// How many cuts there were when it was opened.
    pub opened: u32,
    /// One more than the number of the cut that ended the last of its posts that has ended; 0 where none has.
    pub after: u32,
    /// Its live post.
    pub live: Option<u32>,
    /// How many points were posted of it.
    pub posted: u32,
    /// Why it needs no further work, where it needs none.
    pub closing: Option<Closing>,
}

/// The end of a node.
#[derive(Drop)]
pub struct Closing {
    pub how: How,
    /// The place of its entry in the history.
    pub at: u64,
    /// The number of its left side, where it is split; the right side has the next number.
    pub kids: u32,
}

/// A posted point.
#[derive(Drop)]
pub struct Post {
    pub node: u32,
    /// How many cuts the node was solved over.
    pub front: u32,
    pub point: Master,
    /// In mode Cost the leaf whose bound is the point's value.
    pub leaf: Option<Leaf>,
    /// The completion of each block, that of block b at place b - 1.
    pub fills: Items<Option<Filled>>,
    /// The place of its entry in the history.
    pub at: u64,
    /// The place of the entry that ended it, where one did.
    pub ended: Option<u64>,
}

/// The completion of a block.
#[derive(Drop)]
pub struct Filled {
    pub y: BlockPart,
    /// The place of its entry in the history.
    pub at: u64,
}

/// A direction along which a block's cost falls without bound.
#[derive(Drop)]
pub struct FallingRay {
    pub block: u32,
    pub d: Items<i128>,
    /// The place of its entry in the history.
    pub at: u64,
}

/// Why a search ended before its time.
#[derive(Clone, Copy, Debug, PartialEq, Eq)]
pub enum Stopped {
    Budget,
    Wide,
}

/// What a search has come to.
#[derive(Clone, Copy, Debug, PartialEq, Eq)]
pub enum Outcome {
    /// There are tasks left.
    Running,
    /// The best point is optimal.
    Optimal,
    /// No point is feasible.
    Infeasible,
    /// For each number some feasible point is better.
    Unbounded,
    /// Its units were spent while a node was open.
    Budget,
    /// A number was wide.
    Wide,
}
