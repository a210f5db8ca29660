//! Turns of a worker that is alone: a task is handed out, solved, and its answer or its stop given.
ghost use Rattle.std.specs.Prelude.{◌≡◌, IfOk, false};
ghost use Rattle.bz_event.specs.declared.tasks.TaskName.TheVariants as name;
ghost use Rattle.bz_history.specs.States.{is_done};
ghost use Rattle.bz_core.specs.Searches.{now};
ghost use Rattle.bz_core.specs.Tasks.{IsFloorTask, IsSeparationTask};
ghost use Rattle.bz_crew.specs.Alone.{IsAlone, IsAloneWith};
ghost use Rattle.bz_crew.specs.Turns.{ComesToItsEnd, IsNodeTaskOver, LeadsOn, Turns};

use crate::giving::{give_floor, give_node, give_separation, give_stop};
use crate::solving::{solve_next_floor, solve_next_node, solve_next_separation};
use bz_core::{Next, Role, Search};
use bz_num::OutOfMemory;
use std::alloc::Global;

/// Does the floor of the next block.
fn do_floor(alloc: Global, search: &mut Search<'_>, block: u32) -> Result<(), OutOfMemory>
    requires running { is_done (now search.old) ≡ false }
    requires task { IsFloorTask search.old.split (now search.old) block }
    requires alone { IsAloneWith (name.Floor block) search.old }
    ensures { IfOk result (λ _. LeadsOn search.old search.new) }
{
    match solve_next_floor(alloc, search, block) {
        Ok(solved) => give_floor(search, &solved),
        Err(stop) => give_stop(search, stop),
    }
}

/// Does a node, over the first `front` cuts.
fn do_node(alloc: Global, search: &mut Search<'_>, node: u32, front: u32) -> Result<(), OutOfMemory>
    requires running { is_done (now search.old) ≡ false }
    requires task { IsNodeTaskOver search.old.split (now search.old) node front }
    requires alone { IsAloneWith (name.Node node front) search.old }
    ensures { IfOk result (λ _. LeadsOn search.old search.new) }
{
    match solve_next_node(alloc, search, node, front) {
        Ok(solved) => give_node(search, &solved),
        Err(stop) => give_stop(search, stop),
    }
}

/// Does the separation of a block at a posted point.
fn do_separation(
    alloc: Global,
    search: &mut Search<'_>,
    post: u32,
    block: u32,
) -> Result<(), OutOfMemory>
    requires running { is_done (now search.old) ≡ false }
    requires task { IsSeparationTask search.old.split (now search.old) post block }
    requires alone { IsAloneWith (name.Sep post block) search.old }
    ensures { IfOk result (λ _. LeadsOn search.old search.new) }
{
    match solve_next_separation(alloc, search, post, block) {
        Ok(solved) => give_separation(search, &solved),
        Err(stop) => give_stop(search, stop),
    }
}

/// Does the next task, and says whether there was one: there is none exactly where the search is done.
fn do_next(alloc: Global, search: &mut Search<'_>) -> Result<bool, OutOfMemory>
    requires { IsAlone search.old }
    ensures { IfOk result (Turns search.old search.new) }
{
    // The call tells what a search keeps in its type.
    let _history = search.history();
    match search.next_task(Role::Nodes) {
        Next::Floor { block } => do_floor(alloc, search, block)?,
        Next::Node { node, front } => do_node(alloc, search, node, front)?,
        Next::Sep { post, block } => do_separation(alloc, search, post, block)?,
        Next::Idle => unreachable!(),
        Next::Done => return Ok(false),
    }
    Ok(true)
}

/// Does all tasks until the search is done.
pub(crate) fn do_all(alloc: Global, search: &mut Search<'_>) -> Result<(), OutOfMemory>
    requires { IsAlone search.old }
    ensures { IfOk result (λ _. ComesToItsEnd search.old search.new) }
{
    while do_next(alloc, search)? {}
    Ok(())
}
