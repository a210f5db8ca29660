//! What a tree is tested against.
ghost use Rattle.std.specs.Prelude.{◌≡◌};
ghost use Rattle.bz_tree.specs.Integers.{positions_of};

use crate::tree_goals::Goal;
use bz_cut::Cut;
use bz_model::Split;

/// What the nodes of a tree are tested against.
#[derive(Clone, Copy)]
pub struct Trial<'a> {
    pub split: &'a Split,
    pub cuts: &'a [Cut],
    /// The positions of the integer columns in the master.
    pub positions: &'a [u32],
    /// What each leaf is to show.
    pub goal: Goal,
    pub ghost are_positions: { positions.now ≡ positions_of split.now.model split.now.part },
}
