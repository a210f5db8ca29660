//! By what is carried for a separation is refused.
ghost use Rattle.std.specs.Prelude.{◌≡◌, ◌↔◌, ◌<◌, ◌≤◌, ◌∷◌, [], IsTrue, Some, length};
ghost use Rattle.std.specs.List.{slice_get};
ghost use Rattle.std.specs.Option.{option_copied};
ghost use Rattle.bz_first.specs.Tests.{Judges};
ghost use Rattle.bz_std.specs.Tasks.{IsMasterOf};
ghost use Rattle.bz_rules.specs.Rules.{IsBlock, carried_rules, cut_rules, fill_rules, needed_rules, separation_rules, stop_rules, stopped_rules};
ghost use Rattle.bz_rules.specs.Shapes.{IsShapedPost, IsWideWhere};

use crate::floors::has_block;
use crate::refused::Refused;
use bz_event::{SepAnswer, Solved};
use bz_first::judge;
use bz_history::Post;
use bz_model::{Master, Split};
use bz_num::Items;
use bz_state::Progress;
use bz_std::is_separation_lp;
use bz_tableau::{Lp, WideAt};

/// The post with this number.
pub(crate) fn post_at(progress: &Progress, number: u32) -> Option<&Post>
    ensures { option_copied result ≡ slice_get progress.now.state.posts number }
{
    progress.posts().get(number as usize)
}

/// Whether the numbers are equal.
fn are_equal(a: i128, b: i128) -> bool
    ensures { IsTrue result ↔ (a ≡ b) }
{
    a == b
}

/// Whether the lists have the same numbers.
fn have_same_numbers(a: &Items<i128>, b: &Items<i128>) -> bool
    ensures { IsTrue result ↔ (a.now ≡ b.now) }
{
    a.as_slice() == b.as_slice()
}

/// Whether the points are the same.
fn is_same_point(a: &Master, b: &Master) -> bool
    ensures { IsTrue result ↔ (a.now ≡ b.now) }
{
    are_equal(a.den, b.den) && have_same_numbers(&a.x, &b.x) && have_same_numbers(&a.eta, &b.eta)
}

/// Whether the point is there, and the same.
fn has_point(point: &Option<Master>, own: &Master) -> bool
    ensures { IsTrue result ↔ (point.now ≡ Some own.now) }
{
    match point {
        None => false,
        Some(point) => is_same_point(point, own),
    }
}

/// Judges the point and the program that are carried for the separation of a block at the post.
fn judge_carried(
    split: &Split,
    progress: &Progress,
    block: u32,
    point: &Option<Master>,
    lp: &Lp,
    post: &Post,
) -> Result<(), Refused>
    requires block { IsBlock split.now block }
    requires point { IsMasterOf split.now.part post.now.point }
    ensures { Judges (carried_rules split.now progress.now.state block point.now lp.now post.now) result }
{
    if !has_point(point, &post.point) {
        return Err(Refused::Unfit);
    }
    judge(
        is_separation_lp(split, block, &post.point, progress.mode(), lp),
        Refused::Unfit,
    )
}

/// Tests that the post is live and the block isn't filled.
fn judge_needed(block: u32, post: &Post) -> Result<(), Refused>
    requires first { 0 < block }
    requires last { block ≤ length post.now.fills }
    ensures { Judges (needed_rules block [] post.now) result }
{
    if let Some(at) = post.ended {
        return Err(Refused::Late { ended_by: at });
    }
    if let Some(fill) = &post.fills.as_slice()[block as usize - 1] {
        return Err(Refused::Late { ended_by: fill.at });
    }
    Ok(())
}

/// Judges what is carried with a cut of a block.
fn judge_cut(
    split: &Split,
    progress: &Progress,
    block: u32,
    point: &Option<Master>,
    lp: &Lp,
    post: &Post,
) -> Result<(), Refused>
    requires { IsShapedPost split.now progress.now.state post.now }
    ensures { Judges (cut_rules split.now progress.now.state block point.now lp.now post.now) result }
{
    if !has_block(split, block) {
        return Err(Refused::Unfit);
    }
    judge_carried(split, progress, block, point, lp, post)
}

/// Judges what is carried with a fill of a block.
fn judge_fill(
    split: &Split,
    progress: &Progress,
    block: u32,
    point: &Option<Master>,
    lp: &Lp,
    post: &Post,
) -> Result<(), Refused>
    requires { IsShapedPost split.now progress.now.state post.now }
    ensures { Judges (fill_rules split.now progress.now.state block point.now lp.now post.now) result }
{
    if !has_block(split, block) {
        return Err(Refused::Unfit);
    }
    judge_needed(block, post)?;
    judge_carried(split, progress, block, point, lp, post)
}

/// Judges what is carried for the separation of a block at a post that is there.
pub(crate) fn judge_at_post(
    split: &Split,
    progress: &Progress,
    block: u32,
    s: &Solved<SepAnswer>,
    post: &Post,
) -> Result<(), Refused>
    requires { IsShapedPost split.now progress.now.state post.now }
    ensures { Judges (separation_rules split.now progress.now.state block s.now.point s.now.lp s.now.answer post.now) result }
{
    match &s.answer {
        SepAnswer::Cut { .. } => judge_cut(split, progress, block, &s.point, &s.lp, post),
        SepAnswer::Fill { .. } => judge_fill(split, progress, block, &s.point, &s.lp, post),
    }
}

/// Judges what is carried with a stop. That a right side's sum is wide at the carried point is known.
fn judge_stopped(
    split: &Split,
    progress: &Progress,
    block: u32,
    s: &Solved<WideAt>,
    post: &Post,
) -> Result<(), Refused>
    requires block { IsBlock split.now block }
    requires post { IsShapedPost split.now progress.now.state post.now }
    requires wide { IsWideWhere split.now block post.now.point s.now }
    ensures { Judges (stopped_rules split.now progress.now.state block s.now.point s.now.lp s.now.answer post.now) result }
{
    match &s.answer {
        WideAt::Build { .. } => judge(has_point(&s.point, &post.point), Refused::Unfit),
        _ => judge_carried(split, progress, block, &s.point, &s.lp, post),
    }
}

/// Judges what is carried with the stop of the separation of a block at a post that is there.
pub(crate) fn judge_stop_at_post(
    split: &Split,
    progress: &Progress,
    block: u32,
    s: &Solved<WideAt>,
    post: &Post,
) -> Result<(), Refused>
    requires post { IsShapedPost split.now progress.now.state post.now }
    requires wide { IsWideWhere split.now block post.now.point s.now }
    ensures { Judges (stop_rules split.now progress.now.state block s.now.point s.now.lp s.now.answer post.now) result }
{
    if !has_block(split, block) {
        return Err(Refused::Unfit);
    }
    judge_needed(block, post)?;
    judge_stopped(split, progress, block, s, post)
}
