//! Answers of nodes.
ghost use Rattle.std.specs.Prelude.{◌≡◌, ◌≤◌, ◌+◌, IfErr, IfOk, OnOk, length, vec_capacity};
ghost use Rattle.bz_first.specs.Tests.{AllHold};
ghost use Rattle.bz_model.specs.Parting.{blocks_of};
ghost use Rattle.bz_event.specs.declared.tasks.TaskName.TheVariants as name;
ghost use Rattle.bz_event.specs.Nodes.{SolvesSomeNode};
ghost use Rattle.bz_history.specs.Histories.{count_of};
ghost use Rattle.bz_rules.specs.Entries.{node_entries};
ghost use Rattle.bz_rules.specs.Rules.{node_answer_rules, node_rules};
ghost use Rattle.bz_core.specs.Giving.{Gives, with_entries};
ghost use Rattle.bz_core.specs.Marking.{node_marks, with_added};
ghost use Rattle.bz_core.specs.Nodes.{CanBePlanned, IsNodePlan};
ghost use Rattle.bz_core.specs.Searches.{now};

use crate::answering::{Taken, taken_as};
use crate::entering_nodes::enter_plan;
use crate::handouts::Marks;
use crate::planning_nodes::{NodePlan, prepare};
use crate::searches::Search;
use bz_event::{Entry, NodeAnswer, Solved, Stamp, TaskName};
use bz_model::Split;
use bz_num::OutOfMemory;
use bz_rules::judge_node;
use bz_state::Progress;

/// The plan, once there are marks for what it adds.
fn with_marks(marks: &mut Marks, blocks: u32, plan: NodePlan) -> Result<NodePlan, OutOfMemory>
    ensures refused { IfErr result (λ _. marks.new ≡ marks.old) }
    ensures plan { IfOk result (λ kept. kept ≡ plan) }
    ensures marks { IfOk result (λ _. marks.new ≡ with_added blocks plan.entered.first marks.old) }
{
    match marks.add(blocks, &plan.entered.first) {
        Ok(()) => Ok(plan),
        Err(refused) => {
            // By a call, which owes one fact and not one for each kind of event.
            drop(plan);
            Err(refused)
        }
    }
}

/// Plans a node's answer, once there is room in the state and in the history, and adds marks for what it adds. Where memory
/// is wanting, all stays as it is.
fn plan_with_room(
    split: &Split,
    progress: &mut Progress,
    history: &mut Vec<Entry>,
    marks: &mut Marks,
    node: u32,
    front: u32,
    answer: &NodeAnswer,
) -> Result<NodePlan, OutOfMemory>
    requires { CanBePlanned split.now progress.old.state node answer.now }
    ensures state { progress.new.state ≡ progress.old.state }
    ensures items { history.new.items ≡ history.old.items }
    ensures refused { IfErr result (λ _. marks.new ≡ marks.old) }
    ensures nodes { OnOk result (2 ≤ progress.new.room.nodes) }
    ensures posts { OnOk result (1 ≤ progress.new.room.posts) }
    ensures room { OnOk result (length history.new.items + 4 ≤ vec_capacity history.new) }
    ensures plan { IfOk result (IsNodePlan split.now progress.old.state node front answer.now) }
    ensures marks { IfOk result (λ plan. marks.new
        ≡ with_added (blocks_of split.now.part) plan.entered.first marks.old) }
{
    progress.reserve()?;
    history.reserve(4)?;
    let plan = prepare(*history.allocator(), split, progress, node, front, answer)?;
    with_marks(marks, split.blocks(), plan)
}

impl Search<'_> {
    /// Appends the events of a node's answer, and takes its mark off.
    fn accept_node(
        &mut self,
        stamp: Stamp,
        node: u32,
        front: u32,
        s: &Solved<NodeAnswer>,
    ) -> Result<u32, OutOfMemory>
        requires stamp { stamp.count ≡ count_of stamp.worker self.old.history }
        requires promise { SolvesSomeNode self.old.split.model self.old.split.part s.now }
        requires task { s.now.task ≡ name.Node node front }
        requires rules { AllHold (node_rules self.old.split (now self.old) node front s.now.lp) }
        ensures refused { IfErr result (λ _. self.new ≡ self.old) }
        ensures entries { IfOk result (λ n. n
            ≡ length (node_entries self.old.split self.old.budget (now self.old) s.now)) }
        ensures search { IfOk result (λ _. self.new ≡ with_entries self.old stamp
            (node_entries self.old.split self.old.budget (now self.old) s.now)
            (node_marks self.old.split self.old.budget (now self.old) s.now self.old.marks)) }
    {
        let plan = plan_with_room(
            self.split,
            &mut self.progress,
            &mut self.history,
            &mut self.marks,
            node,
            front,
            &s.answer,
        )?;
        self.marks.take_off(s.task);
        Ok(enter_plan(
            self.split,
            &mut self.progress,
            &mut self.history,
            self.budget,
            stamp,
            plan,
        ))
    }

    /// Takes the answer of a node, where the node is open without a live post, and the program is its own over a front that
    /// it may have: the node is closed by a leaf or split, or its point is posted. After `Late`, `Unfit` and want of memory
    /// the search is unchanged. It takes memory.
    pub fn give_node(&mut self, stamp: Stamp, s: &Solved<NodeAnswer>) -> Result<Taken, OutOfMemory>
        requires stamp { stamp.count ≡ count_of stamp.worker self.old.history }
        requires promise { SolvesSomeNode self.old.split.model self.old.split.part s.now }
        ensures refused { IfErr result (λ _. self.new ≡ self.old) }
        ensures given { IfOk result (Gives self.old self.new stamp
            (node_answer_rules self.old.split (now self.old) s.now)
            (node_entries self.old.split self.old.budget (now self.old) s.now)
            (node_marks self.old.split self.old.budget (now self.old) s.now self.old.marks)) }
    {
        let TaskName::Node { node, front } = s.task else {
            return Ok(Taken::Unfit);
        };
        let alloc = *self.history.allocator();
        match judge_node(alloc, self.split, &self.progress, node, front, &s.lp)? {
            Err(refused) => Ok(taken_as(refused)),
            Ok(()) => {
                let entries = self.accept_node(stamp, node, front, s)?;
                Ok(Taken::Done { entries })
            },
        }
    }
}
