//! Tasks of a search, copied and solved. The search isn't changed.
ghost use Rattle.std.specs.Prelude.{IfErr, IfOk};
ghost use Rattle.bz_event.specs.Floors.{SolvesFloor};
ghost use Rattle.bz_event.specs.Stops.{EndsFloor};
ghost use Rattle.bz_core.specs.Searches.{now};
ghost use Rattle.bz_core.specs.Tasks.{IsFloorTask, IsSeparationTask};
ghost use Rattle.bz_crew.specs.Turns.{EndsNodeOf, EndsSeparationOf, IsNodeTaskOver, SolvesNodeOf, SolvesSeparationOf};

use bz_core::Search;
use bz_event::{FloorAnswer, NodeAnswer, SepAnswer, Solved, TaskStop};
use bz_floor::floor;
use bz_node::solve_node;
use bz_sep::separate;
use std::alloc::Global;

/// Solves the floor of the next block, as the search has it. It takes memory.
pub fn solve_next_floor(
    alloc: Global,
    search: &Search<'_>,
    block: u32,
) -> Result<Solved<FloorAnswer>, TaskStop>
    requires { IsFloorTask search.now.split (now search.now) block }
    ensures solved { IfOk result (SolvesFloor search.now.split.model search.now.split.part block) }
    ensures stopped { IfErr result (EndsFloor search.now.split.model search.now.split.part block) }
{
    floor(alloc, search.split(), block)
}

/// Solves a node over the first `front` cuts, as the search has it. It takes memory.
pub fn solve_next_node(
    alloc: Global,
    search: &Search<'_>,
    node: u32,
    front: u32,
) -> Result<Solved<NodeAnswer>, TaskStop>
    requires { IsNodeTaskOver search.now.split (now search.now) node front }
    ensures solved { IfOk result (SolvesNodeOf search.now.split (now search.now) node front) }
    ensures stopped { IfErr result (EndsNodeOf search.now.split (now search.now) node front) }
{
    let task = search.copy_node(node, front)?;
    solve_node(alloc, search.split(), &task)
}

/// Separates a block at a posted point, as the search has it. It takes memory.
pub fn solve_next_separation(
    alloc: Global,
    search: &Search<'_>,
    post: u32,
    block: u32,
) -> Result<Solved<SepAnswer>, TaskStop>
    requires { IsSeparationTask search.now.split (now search.now) post block }
    ensures solved { IfOk result (SolvesSeparationOf search.now.split (now search.now) post block) }
    ensures stopped { IfErr result (EndsSeparationOf search.now.split (now search.now) post block) }
{
    let task = search.copy_sep(post, block)?;
    separate(alloc, search.split(), &task)
}
