//! By what answers of separations and stops are refused: each judge gives the first rule that doesn't hold.
ghost use Rattle.std.specs.Prelude.{◌≡◌, IfOk};
ghost use Rattle.bz_first.specs.Tests.{Judges};
ghost use Rattle.bz_event.specs.declared.tasks.TaskName.TheVariants as name;
ghost use Rattle.bz_event.specs.Stops.{StopsSomeTask};
ghost use Rattle.bz_rules.specs.Rules.{separation_answer_rules, stop_answer_rules};
ghost use Rattle.bz_rules.specs.Shapes.{FitsSplit};

use crate::floors::{judge_floor, judge_running};
use crate::nodes::judge_node;
use crate::refused::Refused;
use crate::separations::{judge_at_post, judge_stop_at_post, post_at};
use bz_event::{SepAnswer, Solved, TaskName};
use bz_model::Split;
use bz_num::OutOfMemory;
use bz_state::Progress;
use bz_tableau::WideAt;
use std::alloc::Global;

/// Judges an answer of a separation.
pub fn judge_separation(
    split: &Split,
    progress: &Progress,
    s: &Solved<SepAnswer>,
) -> Result<(), Refused>
    requires { FitsSplit split.now progress.now.state }
    ensures { Judges (separation_answer_rules split.now progress.now.state s.now) result }
{
    match s.task {
        TaskName::Sep { post, block } => {
            judge_running(progress)?;
            match post_at(progress, post) {
                None => Err(Refused::Unfit),
                Some(post) => judge_at_post(split, progress, block, s, post),
            }
        }
        _ => Err(Refused::Unfit),
    }
}

/// Judges a stop of a separation.
fn judge_stopped_separation(
    split: &Split,
    progress: &Progress,
    post: u32,
    block: u32,
    s: &Solved<WideAt>,
) -> Result<(), Refused>
    requires task { s.now.task ≡ name.Sep post block }
    requires fits { FitsSplit split.now progress.now.state }
    requires stops { StopsSomeTask split.now.model split.now.part s.now }
    ensures { Judges (stop_answer_rules split.now progress.now.state s.now) result }
{
    judge_running(progress)?;
    match post_at(progress, post) {
        None => Err(Refused::Unfit),
        Some(post) => judge_stop_at_post(split, progress, block, s, post),
    }
}

/// Judges a stop of a task, whose maker's promise it keeps. It takes memory for the box of a node.
pub fn judge_stop(
    alloc: Global,
    split: &Split,
    progress: &Progress,
    s: &Solved<WideAt>,
) -> Result<Result<(), Refused>, OutOfMemory>
    requires fits { FitsSplit split.now progress.now.state }
    requires stops { StopsSomeTask split.now.model split.now.part s.now }
    ensures { IfOk result (λ judged. Judges (stop_answer_rules split.now progress.now.state s.now) judged) }
{
    match s.task {
        TaskName::Floor { block } => Ok(judge_floor(split, progress, block, &s.lp)),
        TaskName::Node { node, front } => { judge_node(alloc, split, progress, node, front, &s.lp) }
        TaskName::Sep { post, block } => {
            Ok(judge_stopped_separation(split, progress, post, block, s))
        }
    }
}
