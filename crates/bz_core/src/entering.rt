//! What an answer of a separation adds to the state and to the history, in the room that is there. It takes no memory.
ghost use Rattle.std.specs.Prelude.{ℕ, ◌≡◌, ◌≤◌, ◌<◌, ◌+◌, ◌^◌, ◌++◌, ◌∷◌, [], length, vec_capacity};
ghost use Rattle.bz_model.specs.Splits.{Decomposition};
ghost use Rattle.bz_history.specs.States.{effect};
ghost use Rattle.bz_rules.specs.Entries.{after, and_stop, is_spent};
ghost use Rattle.bz_rules.specs.Following.{stamped};
ghost use Rattle.bz_state.specs.Views.{HasPlace, number_limit};
ghost use Rattle.bz_core.specs.Separations.{EntersFirst, answer_events, best_events, closing_events, later, planned_events, stop_events};
ghost use Rattle.bz_event.specs.declared.events.Event.{Event};

use bz_event::{Entry, Event, How, Stamp, Why};
use bz_model::Split;
use bz_rules::is_spent;
use bz_state::Progress;
use bz_tree::Leaf;

/// What follows where a post is complete: it becomes the best where it is better, and its node is closed where there is a
/// leaf.
#[derive(Drop)]
pub struct Completion {
    pub better: bool,
    pub node: u32,
    pub front: u32,
    pub leaf: Option<Leaf>,
}

/// What an answer makes: its first event, and what follows where the post is complete.
#[derive(Drop)]
pub struct Planned {
    pub first: Event,
    pub completion: Completion,
}

/// What the first event of an answer makes of the state.
fn enter_first(progress: &mut Progress, event: Event)
    requires { EntersFirst progress.old event }
    ensures { (d : Decomposition) → progress.new.state ≡ effect d progress.old.state event }
{
    match event {
        Event::Append { post, cut, .. } => progress.append(post, cut),
        Event::Again { post, number, .. } => progress.again(post, number),
        Event::Fill { post, block, y } => progress.fill(post, block, y),
        _ => unreachable!(),
    }
}

/// The post is the best so far, where it is better.
pub(crate) fn enter_best(progress: &mut Progress, number: u32, better: bool)
    requires { HasPlace progress.old.state }
    ensures { (d : Decomposition) → progress.new.state ≡ after d progress.old.state (best_events number better) }
{
    if better {
        progress.set_best(number);
    }
}

/// The node is closed by the leaf, where there is one.
pub(crate) fn enter_closing(progress: &mut Progress, node: u32, front: u32, leaf: Option<Leaf>)
    requires place { HasPlace progress.old.state }
    requires units { progress.old.state.units < number_limit }
    ensures { (d : Decomposition) → progress.new.state ≡ after d progress.old.state (closing_events node front leaf) }
{
    if let Some(leaf) = leaf {
        progress.close(node, front, leaf);
    }
}

/// The search stops, where its units are spent and it isn't done.
pub(crate) fn enter_stop(progress: &mut Progress, spent: bool)
    requires { HasPlace progress.old.state }
    ensures { (d : Decomposition) → progress.new.state ≡ after d progress.old.state (stop_events spent) }
{
    if spent {
        progress.stop(&Why::Budget);
    }
}

/// Enters the events of an answer, and the stop for the budget where the units are spent: whether they are comes back.
pub(crate) fn enter_answer(
    _split: &Split,
    progress: &mut Progress,
    budget: u32,
    number: u32,
    planned: Planned,
) -> bool
    requires first { EntersFirst progress.old planned.first }
    requires place { progress.old.state.entries + 4 < 2 ^ 64 }
    requires units { progress.old.state.units + 1 < number_limit }
    ensures state { progress.new.state
        ≡ after _split.now progress.old.state (and_stop _split.now budget progress.old.state (planned_events number planned)) }
    ensures spent { result ≡ is_spent budget (after _split.now progress.old.state (planned_events number planned)) }
{
    let Planned { first, completion } = planned;
    enter_first(progress, first);
    enter_best(progress, number, completion.better);
    enter_closing(progress, completion.node, completion.front, completion.leaf);
    let spent = is_spent(progress, budget);
    enter_stop(progress, spent);
    spent
}

/// The stamp of the worker's next entry.
fn next(stamp: Stamp) -> Stamp
    requires { stamp.count + 1 < 2 ^ 64 }
    ensures { result ≡ record { worker = stamp.worker; count = stamp.count + 1 } }
{
    Stamp {
        worker: stamp.worker,
        count: stamp.count + 1,
    }
}

/// Appends an event, stamped. The stamp of the next entry comes back.
fn push(history: &mut Vec<Entry>, stamp: Stamp, event: Event) -> Stamp
    requires room { length history.old.items < vec_capacity history.old }
    requires count { stamp.count + 1 < 2 ^ 64 }
    ensures items { history.new.items ≡ history.old.items ++ stamped stamp.worker stamp.count (event ∷ []) }
    ensures capacity { vec_capacity history.new ≡ vec_capacity history.old }
    ensures next { result ≡ later stamp (event ∷ []) }
{
    history.push_reserved(Entry { stamp, event });
    next(stamp)
}

/// Appends that the post is the best, where it is better. The stamp of the next entry comes back.
fn push_best(history: &mut Vec<Entry>, stamp: Stamp, number: u32, better: bool) -> Stamp
    requires room { length history.old.items < vec_capacity history.old }
    requires count { stamp.count + 1 < 2 ^ 64 }
    ensures items { history.new.items ≡ history.old.items ++ stamped stamp.worker stamp.count (best_events number better) }
    ensures capacity { vec_capacity history.new ≡ vec_capacity history.old }
    ensures next { result ≡ later stamp (best_events number better) }
{
    if !better {
        return stamp;
    }
    push(history, stamp, Event::Incumbent { post: number })
}

/// Appends that the leaf closes the node, where there is one. The stamp of the next entry comes back.
fn push_closing(
    history: &mut Vec<Entry>,
    stamp: Stamp,
    node: u32,
    front: u32,
    leaf: Option<Leaf>,
) -> Stamp
    requires room { length history.old.items < vec_capacity history.old }
    requires count { stamp.count + 1 < 2 ^ 64 }
    ensures items { history.new.items ≡ history.old.items ++ stamped stamp.worker stamp.count (closing_events node front leaf) }
    ensures capacity { vec_capacity history.new ≡ vec_capacity history.old }
    ensures next { result ≡ later stamp (closing_events node front leaf) }
{
    match leaf {
        None => stamp,
        Some(leaf) => {
            let how = How::Leaf { front, leaf };
            push(history, stamp, Event::Close { node, how })
        }
    }
}

/// Appends the stop for the budget, where the units are spent.
fn push_stop(history: &mut Vec<Entry>, stamp: Stamp, spent: bool)
    requires room { length history.old.items < vec_capacity history.old }
    requires count { stamp.count + 1 < 2 ^ 64 }
    ensures { history.new.items ≡ history.old.items ++ stamped stamp.worker stamp.count (stop_events spent) }
{
    if spent {
        push(history, stamp, Event::Stop { why: Why::Budget });
    }
}

/// Appends the events of an answer.
pub(crate) fn push_events(
    history: &mut Vec<Entry>,
    stamp: Stamp,
    first: Event,
    number: u32,
    completion: Completion,
    spent: bool,
)
    requires room { length history.old.items + 4 ≤ vec_capacity history.old }
    requires count { stamp.count + 4 < 2 ^ 64 }
    ensures { history.new.items ≡ history.old.items ++ stamped stamp.worker stamp.count (answer_events first number completion spent) }
{
    let second = push(history, stamp, first);
    let third = push_best(history, second, number, completion.better);
    let last = push_closing(
        history,
        third,
        completion.node,
        completion.front,
        completion.leaf,
    );
    push_stop(history, last, spent);
}

/// How many events the answer has.
pub(crate) fn count_events(completion: &Completion, spent: bool) -> u32
    ensures { (first : Event) (number : ℕ) → result ≡ length (answer_events first number completion.now spent) }
{
    1 + completion.better as u32 + completion.leaf.is_some() as u32 + spent as u32
}
