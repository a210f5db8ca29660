//! What an answer of a node adds to the state and to the history, in the room that is there. It takes no memory.
ghost use Rattle.std.specs.Prelude.{◌≡◌, ◌≤◌, ◌<◌, ◌+◌, ◌^◌, ◌++◌, length, vec_capacity};
ghost use Rattle.bz_history.specs.States.{effect};
ghost use Rattle.bz_rules.specs.Entries.{after, and_stop, is_spent};
ghost use Rattle.bz_rules.specs.Following.{stamped};
ghost use Rattle.bz_state.specs.Views.{number_limit};
ghost use Rattle.bz_core.specs.Nodes.{Adds, EntersNode, FitsPlan, plan_entries};
ghost use Rattle.bz_core.specs.Separations.{planned_events};

use crate::entering::{Planned, count_events, enter_best, enter_closing, enter_stop, push_events};
use crate::planning_nodes::{Added, NodePlan};
use bz_event::{Entry, Event, How, Stamp};
use bz_model::Split;
use bz_rules::is_spent;
use bz_state::Progress;

/// What the first event of a node's answer makes of the state.
fn enter_node(split: &Split, progress: &mut Progress, event: Event, added: Added)
    requires { EntersNode split.now progress.old event added }
    ensures { progress.new.state ≡ effect split.now progress.old.state event }
{
    match event {
        Event::Close { node, how } => match how {
            How::Leaf { front, leaf } => progress.close(node, front, leaf),
            How::Split {
                front,
                basis,
                position,
                value,
            } => {
                let Added::Sides { left, right } = added else {
                    unreachable!()
                };
                progress.split(split, node, front, basis, position, value, (left, right));
            }
        },
        Event::Post {
            node,
            front,
            point,
            leaf,
        } => {
            let Added::Fills(fills) = added else {
                unreachable!()
            };
            progress.add_post(split, node, front, point, leaf, fills);
        }
        _ => unreachable!(),
    }
}

/// Enters the events of a node's answer, and the stop for the budget where the units are spent. Whether they are comes
/// back.
fn enter_node_answer(
    split: &Split,
    progress: &mut Progress,
    budget: u32,
    number: u32,
    entered: Planned,
    added: Added,
) -> bool
    requires first { Adds split.now progress.old.state entered.first added }
    requires nodes { 2 ≤ progress.old.room.nodes }
    requires posts { 1 ≤ progress.old.room.posts }
    requires place { progress.old.state.entries + 4 < 2 ^ 64 }
    requires units { progress.old.state.units + 1 < number_limit }
    ensures state { progress.new.state
        ≡ after split.now progress.old.state
        (and_stop split.now budget progress.old.state (planned_events number entered)) }
    ensures spent { result ≡ is_spent budget (after split.now progress.old.state (planned_events number entered)) }
{
    let Planned { first, completion } = entered;
    enter_node(split, progress, first, added);
    enter_best(progress, number, completion.better);
    enter_closing(progress, completion.node, completion.front, completion.leaf);
    let spent = is_spent(progress, budget);
    enter_stop(progress, spent);
    spent
}

/// Enters a plan in the state and in the history. How many entries it appended comes back.
pub(crate) fn enter_plan(
    split: &Split,
    progress: &mut Progress,
    history: &mut Vec<Entry>,
    budget: u32,
    stamp: Stamp,
    plan: NodePlan,
) -> u32
    requires room { length history.old.items + 4 ≤ vec_capacity history.old }
    requires count { stamp.count + 4 < 2 ^ 64 }
    requires nodes { 2 ≤ progress.old.room.nodes }
    requires posts { 1 ≤ progress.old.room.posts }
    requires place { progress.old.state.entries + 4 < 2 ^ 64 }
    requires units { progress.old.state.units + 1 < number_limit }
    requires plan { FitsPlan split.now progress.old.state plan }
    ensures state { progress.new.state
        ≡ after split.now progress.old.state (plan_entries split.now budget progress.old.state plan) }
    ensures items { history.new.items ≡ history.old.items
        ++ stamped stamp.worker stamp.count (plan_entries split.now budget progress.old.state plan) }
    ensures entries { result ≡ length (plan_entries split.now budget progress.old.state plan) }
{
    let NodePlan {
        entered,
        added,
        appended,
    } = plan;
    let number = progress.posts().len() as u32;
    let spent = enter_node_answer(split, progress, budget, number, entered, added);
    let count = count_events(&appended.completion, spent);
    push_events(
        history,
        stamp,
        appended.first,
        number,
        appended.completion,
        spent,
    );
    count
}
