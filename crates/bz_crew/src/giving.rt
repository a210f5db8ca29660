//! Answers and stops given to a search by worker 0, when all rules hold of them.
ghost use Rattle.std.specs.Prelude.{◌≡◌, IfOk};
ghost use Rattle.bz_first.specs.Tests.{AllHold};
ghost use Rattle.bz_event.specs.Floors.{SolvesSomeFloor};
ghost use Rattle.bz_event.specs.Nodes.{SolvesSomeNode};
ghost use Rattle.bz_event.specs.Separations.{SolvesSomeSeparation};
ghost use Rattle.bz_history.specs.Histories.{count_of};
ghost use Rattle.bz_ending.specs.Laws.{IsLiveTask};
ghost use Rattle.bz_rules.specs.Rules.{floor_answer_rules, node_answer_rules, separation_answer_rules};
ghost use Rattle.bz_core.specs.Searches.{now};
ghost use Rattle.bz_crew.specs.Alone.{IsAloneWith};
ghost use Rattle.bz_crew.specs.Turns.{LeadsOn, MayGiveStop, MayGiveWide};

use bz_core::{Search, Taken};
use bz_event::{FloorAnswer, NodeAnswer, SepAnswer, Solved, Stamp, TaskStop};
use bz_num::OutOfMemory;
use bz_tableau::WideAt;

/// The next stamp of worker 0.
fn next_stamp(search: &Search<'_>) -> Stamp
    ensures { result ≡ record { worker = 0; count = count_of 0 search.now.history } }
{
    Stamp {
        worker: 0,
        count: search.count_of(0),
    }
}

/// Gives the answer of a floor.
pub(crate) fn give_floor(
    search: &mut Search<'_>,
    s: &Solved<FloorAnswer>,
) -> Result<(), OutOfMemory>
    requires promise { SolvesSomeFloor search.old.split.model search.old.split.part s.now }
    requires rules { AllHold (floor_answer_rules search.old.split (now search.old) s.now) }
    requires alone { IsAloneWith s.now.task search.old }
    ensures { IfOk result (λ _. LeadsOn search.old search.new) }
{
    // The call tells what a search keeps in its type.
    let _history = search.history();
    let stamp = next_stamp(search);
    match search.give_floor(stamp, s)? {
        Taken::Done { .. } => Ok(()),
        Taken::Late { .. } => unreachable!(),
        Taken::Unfit => unreachable!(),
    }
}

/// Gives the answer of a node.
pub(crate) fn give_node(search: &mut Search<'_>, s: &Solved<NodeAnswer>) -> Result<(), OutOfMemory>
    requires promise { SolvesSomeNode search.old.split.model search.old.split.part s.now }
    requires rules { AllHold (node_answer_rules search.old.split (now search.old) s.now) }
    requires alone { IsAloneWith s.now.task search.old }
    ensures { IfOk result (λ _. LeadsOn search.old search.new) }
{
    let _history = search.history();
    let stamp = next_stamp(search);
    match search.give_node(stamp, s)? {
        Taken::Done { .. } => Ok(()),
        Taken::Late { .. } => unreachable!(),
        Taken::Unfit => unreachable!(),
    }
}

/// Gives the answer of a separation, at a post that is live.
pub(crate) fn give_separation(
    search: &mut Search<'_>,
    s: &Solved<SepAnswer>,
) -> Result<(), OutOfMemory>
    requires promise { SolvesSomeSeparation search.old.split.model search.old.split.part s.now }
    requires rules { AllHold (separation_answer_rules search.old.split (now search.old) s.now) }
    requires live { IsLiveTask (now search.old) s.now.task }
    requires alone { IsAloneWith s.now.task search.old }
    ensures { IfOk result (λ _. LeadsOn search.old search.new) }
{
    let _history = search.history();
    let stamp = next_stamp(search);
    match search.give_sep(stamp, s)? {
        Taken::Done { .. } => Ok(()),
        Taken::Late { .. } => unreachable!(),
        Taken::Unfit => unreachable!(),
    }
}

/// Gives the place where a task stops.
fn give_wide(search: &mut Search<'_>, s: &Solved<WideAt>) -> Result<(), OutOfMemory>
    requires { MayGiveWide search.old s.now }
    ensures { IfOk result (λ _. LeadsOn search.old search.new) }
{
    let _history = search.history();
    let stamp = next_stamp(search);
    match search.give_stop(stamp, s)? {
        Taken::Done { .. } => Ok(()),
        Taken::Late { .. } => unreachable!(),
        Taken::Unfit => unreachable!(),
    }
}

/// Gives the stop of a task, where it isn't want of memory.
pub(crate) fn give_stop(search: &mut Search<'_>, stop: TaskStop) -> Result<(), OutOfMemory>
    requires { MayGiveStop search.old stop }
    ensures { IfOk result (λ _. LeadsOn search.old search.new) }
{
    match stop {
        TaskStop::Wide(s) => give_wide(search, &s),
        TaskStop::OutOfMemory => Err(OutOfMemory),
    }
}
