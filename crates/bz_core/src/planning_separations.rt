//! The events of a separation's answer, made before anything is changed. It takes memory for their lists.
ghost use Rattle.std.specs.Prelude.{ℕ, ◌≡◌, ◌∷◌, [], IfOk, Some, cond};
ghost use Rattle.std.specs.List.{slice_get};
ghost use Rattle.bz_first.specs.Tests.{AllHold};
ghost use Rattle.bz_model.specs.declared.BlockPart.{BlockPart};
ghost use Rattle.bz_event.specs.declared.tasks.TaskName.TheVariants as name;
ghost use Rattle.bz_rules.specs.Entries.{complete_events, cut_events, fill_events, is_last, separation_events};
ghost use Rattle.bz_rules.specs.Rules.{IsBlock, separation_answer_rules};
ghost use Rattle.bz_rules.specs.Shapes.{FitsSplit, IsShapedPost};
ghost use Rattle.bz_core.specs.Separations.{completion_events, planned_events};

use crate::completing::{closing_leaf, no_completion};
use crate::entering::{Completion, Planned};
use bz_cut::Cut;
use bz_event::{Event, SepAnswer, Solved};
use bz_history::Post;
use bz_model::{BlockPart, Split};
use bz_num::{Items, OutOfMemory};
use bz_rules::{is_better, is_last_block};
use bz_state::Progress;
use std::alloc::Global;

/// What follows where the post is complete.
fn completion_of_post(
    alloc: Global,
    split: &Split,
    progress: &Progress,
    post: &Post,
) -> Result<Completion, OutOfMemory>
    requires fits { FitsSplit split.now progress.now.state }
    requires post { IsShapedPost split.now progress.now.state post.now }
    ensures { IfOk result (λ completion. (number : ℕ) → completion_events number completion
        ≡ complete_events split.now progress.now.state number post.now.node post.now.front post.now.point post.now.leaf) }
{
    Ok(Completion {
        better: is_better(split, progress, &post.point),
        node: post.node,
        front: post.front,
        leaf: closing_leaf(alloc, progress.mode(), &post.leaf)?,
    })
}

/// What follows where a block of the post is filled: something only where it was the last.
fn completion_of(
    alloc: Global,
    split: &Split,
    progress: &Progress,
    block: u32,
    post: &Post,
) -> Result<Completion, OutOfMemory>
    requires fits { FitsSplit split.now progress.now.state }
    requires post { IsShapedPost split.now progress.now.state post.now }
    requires block { IsBlock split.now block }
    ensures { IfOk result (λ completion. (number : ℕ) (y : BlockPart) (at : ℕ) → completion_events number completion
        ≡ cond (is_last block y at post.now)
        (complete_events split.now progress.now.state number post.now.node post.now.front post.now.point post.now.leaf) []) }
{
    if is_last_block(post, block) {
        return completion_of_post(alloc, split, progress, post);
    }
    Ok(no_completion())
}

/// The event of a cut: one that the pool has is not appended again.
fn cut_event(
    alloc: Global,
    post: u32,
    basis: &Items<u32>,
    cut: &Cut,
    known: Option<u32>,
) -> Result<Event, OutOfMemory>
    ensures { IfOk result (λ event. event ∷ [] ≡ cut_events post basis.now cut.now known) }
{
    let basis = basis.copy(alloc)?;
    match known {
        Some(number) => Ok(Event::Again {
            post,
            basis,
            number,
        }),
        None => {
            let cut = cut.copy(alloc)?;
            Ok(Event::Append { post, basis, cut })
        },
    }
}

/// What a cut makes.
fn plan_cut(
    alloc: Global,
    post: u32,
    basis: &Items<u32>,
    cut: &Cut,
    known: Option<u32>,
) -> Result<Planned, OutOfMemory>
    ensures { IfOk result (λ plan. planned_events post plan ≡ cut_events post basis.now cut.now known) }
{
    Ok(Planned {
        first: cut_event(alloc, post, basis, cut, known)?,
        completion: no_completion(),
    })
}

/// What the fill of a block makes.
fn plan_fill(
    alloc: Global,
    split: &Split,
    progress: &Progress,
    number: u32,
    block: u32,
    post: &Post,
    y: &BlockPart,
) -> Result<Planned, OutOfMemory>
    requires fits { FitsSplit split.now progress.now.state }
    requires post { IsShapedPost split.now progress.now.state post.now }
    requires block { IsBlock split.now block }
    ensures { IfOk result (λ plan. planned_events number plan
        ≡ fill_events split.now progress.now.state number block y.now (Some post.now)) }
{
    let y = y.copy(alloc)?;
    Ok(Planned {
        first: Event::Fill {
            post: number,
            block,
            y,
        },
        completion: completion_of(alloc, split, progress, block, post)?,
    })
}

/// What the answer of a separation of a block at the post makes.
fn plan_at_post(
    alloc: Global,
    split: &Split,
    progress: &Progress,
    number: u32,
    block: u32,
    post: &Post,
    answer: &SepAnswer,
    known: Option<u32>,
) -> Result<Planned, OutOfMemory>
    requires fits { FitsSplit split.now progress.now.state }
    requires post { slice_get progress.now.state.posts number ≡ Some post.now }
    requires block { IsBlock split.now block }
    ensures { IfOk result (λ plan. planned_events number plan
        ≡ separation_events split.now progress.now.state number block known answer.now) }
{
    match answer {
        SepAnswer::Cut { basis, cut } => plan_cut(alloc, number, basis, cut, known),
        SepAnswer::Fill { y } => plan_fill(alloc, split, progress, number, block, post, y),
    }
}

/// What the answer of the separation of a block at a posted point makes, where `known` is the number that the pool has for
/// its cut.
pub(crate) fn plan_separation(
    alloc: Global,
    split: &Split,
    progress: &Progress,
    number: u32,
    block: u32,
    s: &Solved<SepAnswer>,
    known: Option<u32>,
) -> Result<Planned, OutOfMemory>
    requires fits { FitsSplit split.now progress.now.state }
    requires task { s.now.task ≡ name.Sep number block }
    requires rules { AllHold (separation_answer_rules split.now progress.now.state s.now) }
    ensures { IfOk result (λ plan. planned_events number plan
        ≡ separation_events split.now progress.now.state number block known s.now.answer) }
{
    let post = &progress.posts()[number as usize];
    plan_at_post(
        alloc, split, progress, number, block, post, &s.answer, known,
    )
}
