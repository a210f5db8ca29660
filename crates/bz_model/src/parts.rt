//! The parts of a point of a split.
ghost use Rattle.std.specs.Prelude.{◌≡◌, IfOk};
ghost use Rattle.std.specs.List.{AllByRecursion};
ghost use Rattle.std.proofs.Props.{props};
ghost use Rattle.bz_algebra.specs.Numbers.{IsNarrow};

use bz_num::{Items, OutOfMemory};
use std::alloc::Global;

/// A master point `x / den` with the etas `eta / den`, one per block.
#[derive(Drop)]
pub struct Master {
    /// The denominator of all numbers of the point, at least 1.
    pub den: i128,
    /// One numerator per position of the master.
    pub x: Items<i128>,
    /// One numerator per block, that of block b at place b - 1.
    pub eta: Items<i128>,
    pub ghost den_narrow: { IsNarrow den },
    pub ghost x_narrow: { AllByRecursion IsNarrow x } by { Prim.hlevel props },
    pub ghost eta_narrow: { AllByRecursion IsNarrow eta } by { Prim.hlevel props },
}

impl Master {
    /// The same point.
    pub fn copy(&self, alloc: Global) -> Result<Self, OutOfMemory>
        ensures { IfOk result (λ copy. copy ≡ self.now) }
    {
        Ok(Master {
            den: self.den,
            x: self.x.copy(alloc)?,
            eta: self.eta.copy(alloc)?,
        })
    }
}

/// A block's part of a point: `y / (den * times)`, with the master's `den`.
#[derive(Drop)]
pub struct BlockPart {
    /// By what the master's denominator is multiplied, at least 1.
    pub times: i128,
    /// One numerator per position of the block.
    pub y: Items<i128>,
    pub ghost times_narrow: { IsNarrow times },
    pub ghost y_narrow: { AllByRecursion IsNarrow y } by { Prim.hlevel props },
}

impl BlockPart {
    /// The same part.
    pub fn copy(&self, alloc: Global) -> Result<Self, OutOfMemory>
        ensures { IfOk result (λ copy. copy ≡ self.now) }
    {
        Ok(BlockPart {
            times: self.times,
            y: self.y.copy(alloc)?,
        })
    }
}

/// A point of a split, part by part.
#[derive(Drop)]
pub struct Parts {
    /// The master's part.
    pub master: Master,
    /// The part of each block, that of block b at place b - 1.
    pub blocks: Items<BlockPart>,
}
