//! What a search appends to its history.

use crate::answers::Solved;
use bz_cut::Cut;
use bz_model::{BlockPart, Master};
use bz_num::Items;
use bz_tableau::WideAt;
use bz_tree::Leaf;

/// Who appended an entry.
#[derive(Clone, Copy, Debug, PartialEq, Eq)]
pub struct Stamp {
    /// The worker, from 0 up.
    pub worker: u32,
    /// How many entries the worker had appended before.
    pub count: u64,
}

/// Why a node needs no further work.
#[derive(Drop)]
pub enum How {
    /// It is split: at the least point of the basis, over the first `front` cuts, the integer column at this position of
    /// the master is the first that isn't whole; its number there, rounded down, is `value`.
    Split {
        front: u32,
        basis: Items<u32>,
        position: u32,
        value: i128,
    },
    /// The leaf over the first `front` cuts shows that nothing better lies in its box.
    Leaf {
        front: u32,
        leaf: Leaf,
    },
}

/// Why a search ends before its time.
#[derive(Drop)]
pub enum Why {
    /// Its units are spent.
    Budget,
    /// A number is wide: where.
    Wide(Solved<WideAt>),
}

/// What happens in a search. Blocks are counted from 1; nodes, posted points and cuts from 0, in the order in which they
/// came.
#[derive(Drop)]
pub enum Event {
    /// The block's cost is bounded, and the cut of the basis, its floor, is the next cut.
    Floor {
        block: u32,
        basis: Items<u32>,
        cut: Cut,
    },
    /// The block's cost falls without bound along the direction: from here on any point will do.
    Ray {
        block: u32,
        d: Items<i128>,
    },
    /// The point meets the node and the first `front` cuts; in mode Cost with the leaf that bounds the node's cost by the
    /// point's.
    Post {
        node: u32,
        front: u32,
        point: Master,
        leaf: Option<Leaf>,
    },
    /// The posted point has no completion in a block: the cut of the basis is the next cut.
    Append {
        post: u32,
        basis: Items<u32>,
        cut: Cut,
    },
    /// The same, where the cut is there already, with this number.
    Again {
        post: u32,
        basis: Items<u32>,
        number: u32,
    },
    /// The block's part completes the posted point.
    Fill {
        post: u32,
        block: u32,
        y: BlockPart,
    },
    /// The posted point, with its completions, is the best so far.
    Incumbent {
        post: u32,
    },
    /// The node needs no further work.
    Close {
        node: u32,
        how: How,
    },
    /// The search ends.
    Stop {
        why: Why,
    },
}

/// An event with who appended it.
#[derive(Drop)]
pub struct Entry {
    pub stamp: Stamp,
    pub event: Event,
}
