//! Entries appended to the history, in the room that is there.
ghost use Rattle.std.specs.Prelude.{ℕ, ◌≡◌, ◌<◌, ◌++◌, ◌∷◌, [], length, vec_capacity};
ghost use Rattle.bz_model.specs.Splits.{Decomposition};
ghost use Rattle.bz_history.specs.States.{effect};
ghost use Rattle.bz_rules.specs.Following.{stamped};
ghost use Rattle.bz_state.specs.Views.{HasPlace};
ghost use Rattle.bz_core.specs.Floors.{EntersFloor};

use bz_event::{Entry, Event, Stamp};
use bz_state::Progress;

/// Appends an event, stamped.
pub(crate) fn push_entry(history: &mut Vec<Entry>, stamp: Stamp, event: Event)
    requires { length history.old.items < vec_capacity history.old }
    ensures { history.new.items ≡ history.old.items ++ stamped stamp.worker stamp.count (event ∷ []) }
{
    history.push_reserved(Entry { stamp, event });
}

/// What the event of a floor's answer makes of the state.
pub(crate) fn enter_floor(progress: &mut Progress, event: Event)
    requires { EntersFloor progress.old event }
    ensures { (d : Decomposition) → progress.new.state ≡ effect d progress.old.state event }
{
    match event {
        Event::Floor { cut, .. } => progress.add_floor(cut),
        Event::Ray { block, d } => progress.set_ray(block, d),
        _ => unreachable!(),
    }
}
