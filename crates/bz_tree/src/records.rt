//! The records of a tree.
ghost use Rattle.std.specs.Prelude.{◌≡◌, IfOk};
ghost use Rattle.std.specs.List.{AllByRecursion};
ghost use Rattle.std.proofs.Props.{props};
ghost use Rattle.bz_algebra.specs.Numbers.{IsNarrow};

use bz_num::{Items, OutOfMemory, SparseRow};
use std::alloc::Global;

/// The ends between which the integer columns lie, in file order. They may cross.
#[derive(Drop)]
pub struct NodeBox {
    /// The lower end of each integer column.
    pub lower: Items<i128>,
    /// The upper end of each integer column.
    pub upper: Items<i128>,
    pub ghost lower_narrow: { AllByRecursion IsNarrow lower } by { Prim.hlevel props },
    pub ghost upper_narrow: { AllByRecursion IsNarrow upper } by { Prim.hlevel props },
}

impl NodeBox {
    /// The same box.
    pub fn copy(&self, alloc: Global) -> Result<Self, OutOfMemory>
        ensures { IfOk result (λ copy. copy ≡ self.now) }
    {
        Ok(NodeBox {
            lower: self.lower.copy(alloc)?,
            upper: self.upper.copy(alloc)?,
        })
    }
}

/// Multipliers of the inequalities that hold in a box. They bound the inner cost there from below by `bound / delta`,
/// or with `delta` 0 show that the box has no feasible point.
#[derive(Drop)]
pub struct Leaf {
    /// Multipliers of the master's inequalities, then the box sides, then the cuts, by place.
    pub lambda: SparseRow,
    /// By what the inner cost and the etas come out multiplied, at least 0 in a leaf that holds.
    pub delta: i128,
    /// The bound times `delta`; positive where `delta` is 0 in a leaf that holds.
    pub bound: i128,
    pub ghost delta_narrow: { IsNarrow delta },
    pub ghost bound_narrow: { IsNarrow bound },
}

impl Leaf {
    /// The same leaf.
    pub fn copy(&self, alloc: Global) -> Result<Self, OutOfMemory>
        ensures { IfOk result (λ copy. copy ≡ self.now) }
    {
        Ok(Leaf {
            lambda: self.lambda.copy(alloc)?,
            delta: self.delta,
            bound: self.bound,
        })
    }
}

/// A node of a tree. A tree is the list of its nodes, a split before its two sides and the left side before the right.
#[derive(Drop)]
pub enum TreeNode {
    /// The integer column at a position of the master is at most `left` on the left side, and at least `right`, the next
    /// number, on the right side.
    Split {
        position: u32,
        left: i128,
        right: i128,
    },
    /// Multipliers of the inequalities that hold in the box of this node.
    Leaf(Leaf),
}
