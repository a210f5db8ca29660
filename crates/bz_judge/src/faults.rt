//! What the tests answer where they fail.
ghost use Rattle.std.specs.Prelude.{◌≡◌};
ghost use Rattle.bz_judge.specs.declared.faults.CheckFault.TheVariants.{Wide};

use std::alloc::AllocError;

// The lists of sums that `CheckFault::Wide` names.

/// The master's inner cost with the etas.
pub const VALUE_SUM: u32 = 1;

/// The numerator of the stated objective (place 0) and its denominator (place 1).
pub const STATED_NUMBERS: u32 = 2;

/// The sums of the master's inequalities.
pub const MASTER_SUMS: u32 = 3;

/// The denominators of the blocks' points.
pub const BLOCK_DENOMINATOR: u32 = 4;

/// The sums of the blocks' inequalities.
pub const BLOCK_SUMS: u32 = 5;

/// The blocks' inner costs and their etas.
pub const COST_SUMS: u32 = 6;

/// The sums of the cuts.
pub const CUT_SUMS: u32 = 7;

/// The sums of the leaves.
pub const LEAF_SUMS: u32 = 8;

/// The sums along the direction: of the rows, and behind them of the inner cost.
pub const RAY_SUMS: u32 = 9;

/// What a test answers where it fails. Whoever has tests judged gives their order; that a sum is wide is tested where the
/// sum stands.
#[derive(Clone, Copy, Debug, PartialEq, Eq)]
pub enum CheckFault {
    /// A list doesn't fit the split, or a denominator isn't positive.
    Shape,
    /// An inequality of a part, by its place, doesn't hold at the point. In part 0 the places of the box's sides come
    /// behind the inequalities: the upper side and then the lower one of each integer column. Its upper side names an
    /// integer column that isn't whole.
    Point { part: u32, at: u32 },
    /// A block's inner cost, counted from 1, is above its eta.
    Cost { block: u32 },
    /// The value isn't the master's inner cost with the etas.
    Value,
    /// The direction leaves a row, a bound or an integer column, or the inner cost doesn't fall along it.
    Ray,
    /// A cut, counted from 0, isn't valid.
    Cut { i: u32 },
    /// A node of the tree, counted from 0, is no split of an integer column into two sides that meet.
    Cover { node: u32 },
    /// A leaf, by its node, doesn't hold in its box or bounds too little.
    Leaf { node: u32 },
    /// A sum or a product is wide: in which list of sums, by the numbers above, and at which place of it.
    Wide { list: u32, at: u32 },
    /// There is no memory.
    OutOfMemory,
}

impl From<AllocError> for CheckFault {
    ghost use Rattle.std.specs.Prelude.{◌≡◌};
    ghost use Rattle.bz_judge.specs.declared.faults.CheckFault.TheVariants.{OutOfMemory};

    ghost from_gives = { λ _ f. f ≡ OutOfMemory };

    fn from(_error: AllocError) -> CheckFault {
        CheckFault::OutOfMemory
    }
}

impl From<bz_num::OutOfMemory> for CheckFault {
    ghost use Rattle.std.specs.Prelude.{◌≡◌};
    ghost use Rattle.bz_judge.specs.declared.faults.CheckFault.TheVariants.{OutOfMemory};

    ghost from_gives = { λ _ f. f ≡ OutOfMemory };

    fn from(_error: bz_num::OutOfMemory) -> CheckFault {
        CheckFault::OutOfMemory
    }
}

/// The fault of a wide sum or product, by its list of sums and its place there.
pub fn wide_in(list: u32, at: u32) -> CheckFault
    ensures { result ≡ Wide list at }
{
    CheckFault::Wide { list, at }
}
