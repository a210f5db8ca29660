//! Nodes solved.
ghost use Rattle.std.specs.Prelude.{◌+◌, ◌<◌, IfErr, IfOk, length};
ghost use Rattle.std.specs.List.{AllByRecursion};
ghost use Rattle.bz_model.specs.Limits.{list_limit};
ghost use Rattle.bz_tree.specs.Ends.{box_of};
ghost use Rattle.bz_tableau.specs.Answers.{IsEmpty};
ghost use Rattle.bz_tableau.specs.Programs.{program_of};
ghost use Rattle.bz_std.specs.Tasks.{IsBoxOf, IsCutOfSplit};
ghost use Rattle.bz_event.specs.Nodes.{IsReady, SolvesNode};
ghost use Rattle.bz_event.specs.Stops.{EndsNode};
ghost use Rattle.bz_node.specs.NodePrograms.{AnswersNode, IsNodeProgram, StopsProgram, cuts_of, mode_of, part_of};

use crate::least::least_answer;
use crate::leaves::fitting_leaf;
use crate::programs::{NodeProgram, leaf_stop};
use bz_event::{NodeAnswer, NodeTask, Solved, TaskName, TaskStop, carry};
use bz_lex::solve;
use bz_model::Split;
use bz_num::Items;
use bz_std::node_lp;
use bz_tableau::{Answer, LpStop};
use bz_tree::integer_positions;
use std::alloc::Global;

/// The answer of a node whose program has no point, as the basis and its multipliers y show.
fn empty_answer(
    alloc: Global,
    program: &NodeProgram<'_>,
    basis: Items<u32>,
    y: &[i128],
) -> Result<NodeAnswer, LpStop>
    requires program { IsNodeProgram program.now }
    requires empty { IsEmpty (program_of program.now.lp.now) basis y.now }
    ensures answer { IfOk result (AnswersNode program.now) }
    ensures stop { IfErr result (StopsProgram program.now) }
{
    match fitting_leaf(alloc, program, y, 0) {
        Ok(leaf) => Ok(NodeAnswer::Empty { leaf }),
        Err(stop) => Err(leaf_stop(stop, true, basis)),
    }
}

/// What a node comes to, by its program.
fn answer_of(alloc: Global, program: &NodeProgram<'_>) -> Result<NodeAnswer, LpStop>
    requires program { IsNodeProgram program.now }
    requires ready { IsReady (part_of program.now) (cuts_of program.now) (mode_of program.now) }
    ensures answer { IfOk result (AnswersNode program.now) }
    ensures stop { IfErr result (StopsProgram program.now) }
{
    match solve(alloc, program.lp)? {
        Answer::Least { basis, z, y } => least_answer(alloc, program, basis, &z, &y),
        Answer::Empty { basis, y } => empty_answer(alloc, program, basis, y.as_slice()),
        Answer::Ray { .. } => unreachable!(),
    }
}

/// What a node comes to: that no point meets it, the first integer column in file order that isn't whole at a least
/// point, or a least point that is whole there. In mode Cost the leaf shows that no point of the node costs less. It
/// stops where a number of the program's solution or a sum of the answer is wide, which is named, or for want of memory.
pub fn solve_node(
    alloc: Global,
    split: &Split,
    task: &NodeTask,
) -> Result<Solved<NodeAnswer>, TaskStop>
    requires region { IsBoxOf split.now.model (box_of task.now.region) }
    requires cuts { AllByRecursion (IsCutOfSplit split.now.part) task.now.cuts }
    requires few { length task.now.cuts + 1024 < list_limit }
    requires ready { IsReady split.now.part task.now.cuts task.now.mode }
    ensures solved { IfOk result (SolvesNode split.now.model split.now.part task.now.node task.now.front
        (box_of task.now.region) task.now.cuts task.now.mode) }
    ensures stopped { IfErr result (EndsNode split.now.model split.now.part task.now.node task.now.front
        (box_of task.now.region) task.now.cuts task.now.mode) }
{
    let positions = integer_positions(alloc, split)?;
    let lp = node_lp(alloc, split, &task.region, task.cuts.as_slice(), task.mode)?;
    let program = NodeProgram {
        split,
        task,
        positions: positions.as_slice(),
        lp: &lp,
    };
    let found = answer_of(alloc, &program);
    let name = TaskName::Node {
        node: task.node,
        front: task.front,
    };
    carry(name, None, lp, found)
}
