//! The record of a cut.
ghost use Rattle.std.specs.Prelude.{◌≡◌, IfOk};
ghost use Rattle.bz_algebra.specs.Numbers.{IsNarrow};

use bz_num::{OutOfMemory, SparseRow};
use std::alloc::Global;

/// The cut `alpha x - p0 eta <= beta` over the master's positions and the eta of one block, with the multipliers that
/// it comes from: the mu-sum of the block's inequalities is `gcd` times as large.
#[derive(Drop)]
pub struct Cut {
    /// The number of the block, from 1 up.
    pub block: u32,
    /// Multipliers of the block's inequalities, by place.
    pub mu: SparseRow,
    /// By what the sum was divided, at least 1 in a valid cut.
    pub gcd: i128,
    /// Numbers by master position.
    pub alpha: SparseRow,
    /// The number of the block's eta, at least 0 in a valid cut.
    pub p0: i128,
    /// The right side.
    pub beta: i128,
    pub ghost gcd_narrow: { IsNarrow gcd },
    pub ghost p0_narrow: { IsNarrow p0 },
    pub ghost beta_narrow: { IsNarrow beta },
}

impl Cut {
    /// The same cut.
    pub fn copy(&self, alloc: Global) -> Result<Self, OutOfMemory>
        ensures { IfOk result (λ copy. copy ≡ self.now) }
    {
        Ok(Cut {
            block: self.block,
            mu: self.mu.copy(alloc)?,
            gcd: self.gcd,
            alpha: self.alpha.copy(alloc)?,
            p0: self.p0,
            beta: self.beta,
        })
    }
}
