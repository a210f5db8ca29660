//! What tasks come to.

use crate::tasks::TaskName;
use bz_cut::Cut;
use bz_model::{BlockPart, Master};
use bz_num::Items;
use bz_tableau::{Lp, WideAt};
use bz_tree::Leaf;

/// What a task comes to, with the program that was solved for it.
#[derive(Drop)]
pub struct Solved<A> {
    /// The task.
    pub task: TaskName,
    /// The point of a separation; the other tasks have none.
    pub point: Option<Master>,
    /// The program; without rows, columns and cost where a right side of it is wide.
    pub lp: Lp,
    pub answer: A,
}

/// What the separation of a block at a point comes to.
#[derive(Drop)]
pub enum SepAnswer {
    /// No completion: the basis of the relaxed program that shows it, and the basis's cut, which cuts the point off.
    Cut { basis: Items<u32>, cut: Cut },
    /// The block's part that completes the point.
    Fill { y: BlockPart },
}

/// What the floor of a block comes to.
#[derive(Drop)]
pub enum FloorAnswer {
    /// The block's cost has a least value along every direction: a basis that shows it, and the basis's cut.
    Floor { basis: Items<u32>, cut: Cut },
    /// The cost falls along this direction, which no inequality of the block forbids: a number for each position.
    Ray { d: Items<i128> },
}

/// What a node comes to. A leaf is there exactly in mode Cost, and with `Empty`.
#[derive(Drop)]
pub enum NodeAnswer {
    /// At the least point of the basis the integer column at this position of the master isn't whole; its number there
    /// is at least `value` and below `value + 1`.
    Split {
        basis: Items<u32>,
        position: u32,
        value: i128,
        leaf: Option<Leaf>,
    },
    /// No point, as the leaf shows.
    Empty {
        leaf: Leaf,
    },
    /// A least point, whole on the integer columns.
    Point {
        point: Master,
        leaf: Option<Leaf>,
    },
}

/// Why a task has no answer.
#[derive(Drop)]
pub enum TaskStop {
    /// A number is wide: where.
    Wide(Solved<WideAt>),
    /// There was no memory.
    OutOfMemory,
}
