//! What an answer of a node makes, planned before anything changes. It takes memory.
ghost use Rattle.std.specs.Prelude.{ℕ, ◌≡◌, ◌<◌, ◌==◌, ◌∷◌, [], IfOk, None, cond, length, replicate};
ghost use Rattle.bz_model.specs.Parting.{blocks_of, integers_of};
ghost use Rattle.bz_tree.specs.Ends.{box_of as box_held};
ghost use Rattle.bz_tree.specs.Integers.{integer_at};
ghost use Rattle.bz_event.specs.declared.events.Event.TheVariants as event;
ghost use Rattle.bz_event.specs.declared.events.How.TheVariants as how;
ghost use Rattle.bz_history.specs.States.{above, below, box_of, mode_of};
ghost use Rattle.bz_rules.specs.Entries.{complete_events, node_events, point_events, reaching, unless_reaching};
ghost use Rattle.bz_rules.specs.Shapes.{FitsSplit, IsRegionOf};
ghost use Rattle.bz_core.specs.Nodes.{Adds, CanAdd, CanBePlanned, HasPositiveLeaf, HasValue, IsNodePlan, SplitsRegion};
ghost use Rattle.bz_core.specs.Separations.{completion_events, planned_events};

use crate::completing::{closing_leaf, copy_leaf, no_completion};
use crate::entering::{Completion, Planned};
use bz_event::{Event, How, NodeAnswer};
use bz_history::{Filled, Region};
use bz_model::{Master, Split};
use bz_num::{Items, OutOfMemory};
use bz_rules::{box_of, is_better, reaches_best};
use bz_state::Progress;
use bz_tree::{Leaf, NodeBox, integer_column, integer_positions, split_box};
use std::alloc::Global;

/// What the first event of a node's answer adds to the lists of the state.
#[derive(Drop)]
pub enum Added {
    /// Nothing.
    Nothing,
    /// The two sides of a node that is split.
    Sides { left: Region, right: Region },
    /// The places of a post's completions.
    Fills(Items<Option<Filled>>),
}

/// What an answer of a node makes: its events for the state and once more for the history, and what the first adds.
#[derive(Drop)]
pub struct NodePlan {
    pub entered: Planned,
    pub added: Added,
    pub appended: Planned,
}

/// The leaf, where it is there and reaches the best post so far.
fn reaching_leaf(
    alloc: Global,
    split: &Split,
    progress: &Progress,
    leaf: &Option<Leaf>,
) -> Result<Option<Leaf>, OutOfMemory>
    requires fits { FitsSplit split.now progress.now.state }
    requires leaf { HasPositiveLeaf (mode_of progress.now.state) leaf.now }
    ensures { IfOk result (λ reaches. reaches ≡ reaching split.now progress.now.state leaf.now) }
{
    match leaf {
        Some(leaf) if reaches_best(split, progress, leaf) => {
            let copy = leaf.copy(alloc)?;
            Ok(Some(copy))
        },
        _ => Ok(None),
    }
}

/// A node is closed, and nothing follows.
fn plan_closing(node: u32, how: How) -> Planned
    ensures { (number : ℕ) → planned_events number result ≡ event.Close node how ∷ [] }
{
    Planned {
        first: Event::Close { node, how },
        completion: no_completion(),
    }
}

/// A node is closed by the leaf that reaches the best post so far, or else it is split.
fn plan_split(
    alloc: Global,
    node: u32,
    front: u32,
    reaches: Option<Leaf>,
    basis: &Items<u32>,
    position: u32,
    value: i128,
) -> Result<Planned, OutOfMemory>
    ensures { IfOk result (λ plan. (number : ℕ) → planned_events number plan
        ≡ unless_reaching node front reaches (event.Close node (how.Split front basis.now position value) ∷ [])) }
{
    let how = match reaches {
        Some(leaf) => How::Leaf { front, leaf },
        None => How::Split {
            front,
            basis: basis.copy(alloc)?,
            position,
            value,
        },
    };
    Ok(plan_closing(node, how))
}

/// What follows where a point is posted: with no blocks it is complete.
fn completion_of(
    alloc: Global,
    split: &Split,
    progress: &Progress,
    node: u32,
    front: u32,
    point: &Master,
    leaf: &Option<Leaf>,
) -> Result<Completion, OutOfMemory>
    requires fits { FitsSplit split.now progress.now.state }
    requires point { HasValue split.now (mode_of progress.now.state) point.now }
    ensures { IfOk result (λ completion. (number : ℕ) → completion_events number completion
        ≡ cond (blocks_of split.now.part == 0)
        (complete_events split.now progress.now.state number node front point.now leaf.now) []) }
{
    if split.blocks() != 0 {
        return Ok(no_completion());
    }
    Ok(Completion {
        better: is_better(split, progress, point),
        node,
        front,
        leaf: closing_leaf(alloc, progress.mode(), leaf)?,
    })
}

/// The point is posted.
fn plan_point(
    alloc: Global,
    split: &Split,
    progress: &Progress,
    node: u32,
    front: u32,
    point: &Master,
    leaf: &Option<Leaf>,
) -> Result<Planned, OutOfMemory>
    requires fits { FitsSplit split.now progress.now.state }
    requires point { HasValue split.now (mode_of progress.now.state) point.now }
    ensures { IfOk result (λ plan. planned_events (length progress.now.state.posts) plan
        ≡ point_events split.now progress.now.state node front point.now leaf.now) }
{
    let first = Event::Post {
        node,
        front,
        point: point.copy(alloc)?,
        leaf: copy_leaf(alloc, leaf)?,
    };
    let completion = completion_of(alloc, split, progress, node, front, point, leaf)?;
    Ok(Planned { first, completion })
}

/// Plans the events of a node's answer.
fn plan_node(
    alloc: Global,
    split: &Split,
    progress: &Progress,
    node: u32,
    front: u32,
    answer: &NodeAnswer,
) -> Result<Planned, OutOfMemory>
    requires { CanBePlanned split.now progress.now.state node answer.now }
    ensures { IfOk result (λ plan. planned_events (length progress.now.state.posts) plan
        ≡ node_events split.now progress.now.state node front answer.now) }
{
    match answer {
        NodeAnswer::Empty { leaf } => {
            let leaf = leaf.copy(alloc)?;
            Ok(plan_closing(node, How::Leaf { front, leaf }))
        },
        NodeAnswer::Split {
            basis,
            position,
            value,
            leaf,
        } => {
            let reaches = reaching_leaf(alloc, split, progress, leaf)?;
            plan_split(alloc, node, front, reaches, basis, *position, *value)
        },
        NodeAnswer::Point { point, leaf } => match reaching_leaf(alloc, split, progress, leaf)? {
            Some(leaf) => Ok(plan_closing(node, How::Leaf { front, leaf })),
            None => plan_point(alloc, split, progress, node, front, point, leaf),
        },
    }
}

/// The place among the integer columns of the one that stands at the position.
fn place_of(alloc: Global, split: &Split, wanted: u32) -> Result<u32, OutOfMemory>
    requires { integer_at split.now.model split.now.part wanted < length (integers_of split.now.model) }
    ensures { IfOk result (λ place. place ≡ integer_at split.now.model split.now.part wanted) }
{
    let positions = integer_positions(alloc, split)?;
    let Some(place) = integer_column(positions.as_slice(), wanted) else {
        unreachable!()
    };
    Ok(place as u32)
}

/// The region of a box.
fn region_of(b: NodeBox) -> Region
    ensures { box_of result ≡ box_held b }
{
    Region {
        lower: b.lower,
        upper: b.upper,
    }
}

/// The two sides of a region.
fn sides_of(
    alloc: Global,
    split: &Split,
    region: &Region,
    position: u32,
    value: i128,
) -> Result<(Region, Region), OutOfMemory>
    requires region { IsRegionOf split.now region.now }
    requires splits { SplitsRegion split.now region.now position value }
    ensures left { IfOk result (λ sides. sides.0
        ≡ below (integer_at split.now.model split.now.part position) value region.now) }
    ensures right { IfOk result (λ sides. sides.1
        ≡ above (integer_at split.now.model split.now.part position) value region.now) }
{
    let place = place_of(alloc, split, position)?;
    let own = box_of(alloc, region)?;
    let (left, right) = split_box(alloc, &own, place, value)?;
    Ok((region_of(left), region_of(right)))
}

/// A place for each block's completion, all empty.
fn no_fills(alloc: Global, split: &Split) -> Result<Items<Option<Filled>>, OutOfMemory>
    ensures { IfOk result (λ fills. fills ≡ replicate (blocks_of split.now.part) None) }
{
    let blocks = split.blocks();
    let mut fills = Vec::with_capacity(alloc, blocks as usize)?;
    for _ in 0..blocks {
        fills.push_reserved(None);
    }
    Ok(Items::from_vec(fills))
}

/// What an event adds, which is the first of a node's answer.
fn added_by(
    alloc: Global,
    split: &Split,
    progress: &Progress,
    event: &Event,
) -> Result<Added, OutOfMemory>
    requires { CanAdd split.now progress.now.state event.now }
    ensures { IfOk result (Adds split.now progress.now.state event.now) }
{
    match event {
        Event::Close {
            node,
            how: How::Split {
                position,
                value,
                ..
            },
        } => {
            let region = &progress.nodes()[*node as usize].region;
            let (left, right) = sides_of(alloc, split, region, *position, *value)?;
            Ok(Added::Sides { left, right })
        },
        Event::Close { .. } => Ok(Added::Nothing),
        Event::Post { .. } => Ok(Added::Fills(no_fills(alloc, split)?)),
        _ => unreachable!(),
    }
}

/// Plans the events of a node's answer, twice, and makes what the first adds.
pub(crate) fn prepare(
    alloc: Global,
    split: &Split,
    progress: &Progress,
    node: u32,
    front: u32,
    answer: &NodeAnswer,
) -> Result<NodePlan, OutOfMemory>
    requires { CanBePlanned split.now progress.now.state node answer.now }
    ensures { IfOk result (IsNodePlan split.now progress.now.state node front answer.now) }
{
    let entered = plan_node(alloc, split, progress, node, front, answer)?;
    let appended = plan_node(alloc, split, progress, node, front, answer)?;
    let added = added_by(alloc, split, progress, &entered.first)?;
    Ok(NodePlan {
        entered,
        added,
        appended,
    })
}
