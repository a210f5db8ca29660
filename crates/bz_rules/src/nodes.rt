//! By what is carried for a node is refused.
ghost use Rattle.std.specs.Prelude.{◌≡◌, ◌↔◌, IsTrue, IfOk};
ghost use Rattle.std.specs.List.{AllByRecursion, slice_get};
ghost use Rattle.std.specs.Option.{option_copied};
ghost use Rattle.bz_algebra.specs.Numbers.{IsNarrow};
ghost use Rattle.bz_first.specs.Tests.{Judges};
ghost use Rattle.bz_tree.specs.Ends.{box_of as box_held};
ghost use Rattle.bz_std.specs.Tasks.{IsBoxOf, IsCutOfSplit};
ghost use Rattle.bz_history.specs.States.{box_of};
ghost use Rattle.bz_history.specs.Steps.{AreFloorsReady};
ghost use Rattle.bz_rules.specs.Rules.{node_rules, place_of_live, waiting_rules};
ghost use Rattle.bz_rules.specs.Shapes.{FitsSplit};

use crate::floors::judge_running;
use crate::refused::Refused;
use bz_first::judge;
use bz_history::{Node, Post, Region};
use bz_model::Split;
use bz_num::OutOfMemory;
use bz_state::Progress;
use bz_std::is_node_lp;
use bz_tableau::Lp;
use bz_tree::NodeBox;
use std::alloc::Global;

/// The place of the post with this number.
fn live_place(posts: &[Post], live: Option<u32>) -> u64
    ensures { result ≡ place_of_live posts.now live }
{
    match live {
        None => 0,
        Some(number) => match posts.get(number as usize) {
            None => 0,
            Some(post) => post.at,
        },
    }
}

/// Whether floors are no longer made.
fn are_floors_ready(split: &Split, progress: &Progress) -> bool
    ensures { IsTrue result ↔ AreFloorsReady split.now progress.now.state }
{
    progress.floors().len() == split.blocks() as usize || progress.ray().is_some()
}

/// Judges what is carried for a node that is there, over the first `front` cuts.
fn judge_waiting(
    split: &Split,
    progress: &Progress,
    node: &Node,
    region: &NodeBox,
    front: u32,
    lp: &Lp,
) -> Result<(), Refused>
    requires region { box_held region.now ≡ box_of node.now.region }
    requires ends { IsBoxOf split.now.model (box_held region.now) }
    requires cuts { AllByRecursion (IsCutOfSplit split.now.part) progress.now.state.cuts }
    ensures { Judges (waiting_rules split.now progress.now.state front lp.now node.now) result }
{
    if front > progress.pool().len() {
        return Err(Refused::Unfit);
    }
    if let Some(closing) = &node.closing {
        return Err(Refused::Late {
            ended_by: closing.at,
        });
    }
    if node.live.is_some() {
        return Err(Refused::Late {
            ended_by: live_place(progress.posts(), node.live),
        });
    }
    if !are_floors_ready(split, progress) {
        return Err(Refused::Unfit);
    }
    if progress.least_front(split, node) > front {
        return Err(Refused::Unfit);
    }
    let cuts = progress.pool().front(front);
    judge(
        is_node_lp(split, region, cuts, progress.mode(), lp),
        Refused::Unfit,
    )
}

/// The node with this number.
fn node_at(progress: &Progress, number: u32) -> Option<&Node>
    ensures { option_copied result ≡ slice_get progress.now.state.nodes number }
{
    progress.nodes().get(number as usize)
}

/// The box of a region. It takes memory.
pub fn box_of(alloc: Global, region: &Region) -> Result<NodeBox, OutOfMemory>
    requires lower { AllByRecursion IsNarrow region.now.lower }
    requires upper { AllByRecursion IsNarrow region.now.upper }
    ensures { IfOk result (λ b. box_held b ≡ box_of region.now) }
{
    Ok(NodeBox {
        lower: region.lower.copy(alloc)?,
        upper: region.upper.copy(alloc)?,
    })
}

/// Judges what is carried for a node over the first `front` cuts. It takes memory for the node's box.
pub fn judge_node(
    alloc: Global,
    split: &Split,
    progress: &Progress,
    number: u32,
    front: u32,
    lp: &Lp,
) -> Result<Result<(), Refused>, OutOfMemory>
    requires { FitsSplit split.now progress.now.state }
    ensures { IfOk result (λ judged. Judges (node_rules split.now progress.now.state number front lp.now) judged) }
{
    if let Err(refused) = judge_running(progress) {
        return Ok(Err(refused));
    }
    match node_at(progress, number) {
        None => Ok(Err(Refused::Unfit)),
        Some(node) => {
            let region = box_of(alloc, &node.region)?;
            Ok(judge_waiting(split, progress, node, &region, front, lp))
        }
    }
}
