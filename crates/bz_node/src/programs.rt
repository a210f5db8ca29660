//! A node with its program.
ghost use Rattle.std.specs.Prelude.{◌≡◌, ◌+◌, None};
ghost use Rattle.bz_model.specs.Parting.{blocks_of, width_of};
ghost use Rattle.bz_tableau.specs.declared.answers.LpStop.TheVariants as stop;
ghost use Rattle.bz_tableau.specs.declared.answers.WideAt.TheVariants.{Fold};
ghost use Rattle.bz_node.specs.LeafStops.{leaf_stopped};

use bz_event::NodeTask;
use bz_judge::LEAF_SUMS;
use bz_model::Split;
use bz_num::Items;
use bz_std::MakeStop;
use bz_tableau::{Lp, LpStop, WideAt};

/// A node that is to be solved, with its program.
#[derive(Clone, Copy)]
pub(crate) struct NodeProgram<'a> {
    pub split: &'a Split,
    pub task: &'a NodeTask,
    /// The positions of the integer columns in the master.
    pub positions: &'a [u32],
    pub lp: &'a Lp,
}

/// How many variables a node's program has: the master's positions, and an eta for each block.
pub(crate) fn variables(split: &Split) -> u32
    ensures { result ≡ width_of split.now.part 0 + blocks_of split.now.part }
{
    split.width(0) + split.blocks()
}

/// The stop at a sum of what the answer of a basis makes, by the number of its list and its place there.
pub(crate) fn wide_sum_stop(relaxed: bool, basis: Items<u32>, list: u32, at: u32) -> LpStop
    ensures { result ≡ stop.Wide (Fold relaxed basis None list at) }
{
    LpStop::Wide(WideAt::Fold {
        relaxed,
        basis,
        column: None,
        list,
        at,
    })
}

/// The stop of an answer whose leaf is not made.
pub(crate) fn leaf_stop(stop: MakeStop, relaxed: bool, basis: Items<u32>) -> LpStop
    ensures { result ≡ leaf_stopped stop relaxed basis }
{
    match stop {
        MakeStop::Wide => wide_sum_stop(relaxed, basis, LEAF_SUMS, 0),
        MakeStop::OutOfMemory => LpStop::OutOfMemory,
    }
}
