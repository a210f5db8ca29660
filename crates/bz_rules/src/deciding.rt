//! What decides which events an accepted answer makes.
ghost use Rattle.std.specs.Prelude.{ℕ, ◌≡◌, ◌<◌, ◌≤◌, ◌<ℤ◌, ◌*ℤ◌, ◌-◌, ◌||◌, int_le, not, pos, true, false, Some, is_none, length};
ghost use Rattle.std.specs.List.{list_any};
ghost use Rattle.std.specs.Option.{option_copied};
ghost use Rattle.bz_model.specs.declared.BlockPart.{BlockPart};
ghost use Rattle.bz_cut.specs.declared.Mode.TheVariants as mode;
ghost use Rattle.bz_std.specs.Tasks.{IsMasterOf};
ghost use Rattle.bz_event.specs.Nodes.{FitsValue, value_of};
ghost use Rattle.bz_history.specs.States.{mode_of};
ghost use Rattle.bz_rules.specs.Entries.{IsKnownAnswer, best_post, is_below, is_better, is_last, is_reached, is_spent};
ghost use Rattle.bz_rules.specs.Shapes.{FitsSplit};

use bz_cut::Mode;
use bz_event::SepAnswer;
use bz_history::{Filled, Post};
use bz_judge::value_sum;
use bz_model::{Master, Split};
use bz_num::cmp_quotients;
use bz_pool::Pool;
use bz_state::Progress;
use bz_tree::Leaf;
use std::cmp::Ordering;

/// What the point costs with its etas, times its denominator. That its sum isn't wide is known.
fn value(split: &Split, point: &Master) -> i128
    requires point { IsMasterOf split.now.part point.now }
    requires fits { FitsValue split.now.model split.now.part mode.Cost point.now }
    ensures { result ≡ value_of split.now.model split.now.part point.now }
{
    let Ok(sum) = value_sum(split, point) else {
        unreachable!()
    };
    sum
}

/// The best post so far.
fn best_of(progress: &Progress) -> Option<&Post>
    ensures { option_copied result ≡ best_post progress.now.state }
{
    match progress.best() {
        None => None,
        Some(number) => progress.posts().get(number as usize),
    }
}

/// Whether n / d is above m / e. No product is formed.
fn is_above(n: i128, d: i128, m: i128, e: i128) -> bool
    requires left { pos 0 <ℤ d }
    requires right { pos 0 <ℤ e }
    ensures { result ≡ not (int_le (n *ℤ e) (m *ℤ d)) }
{
    cmp_quotients(n, d, m, e) == Ordering::Greater
}

/// Whether the value of the post is at most the leaf's bound over its delta.
fn bounds(split: &Split, leaf: &Leaf, best: &Post) -> bool
    requires point { IsMasterOf split.now.part best.now.point }
    requires fits { FitsValue split.now.model split.now.part mode.Cost best.now.point }
    requires delta { pos 0 <ℤ leaf.now.delta }
    ensures { result ≡ is_reached split.now leaf.now (Some best.now) }
{
    let value = value(split, &best.point);
    !is_above(value, best.point.den, leaf.bound, leaf.delta)
}

/// Whether the leaf's bound over its delta is at least the value of the best post so far: not where there is none.
pub fn reaches_best(split: &Split, progress: &Progress, leaf: &Leaf) -> bool
    requires fits { FitsSplit split.now progress.now.state }
    requires cost { mode_of progress.now.state ≡ mode.Cost }
    requires delta { pos 0 <ℤ leaf.now.delta }
    ensures { result ≡ is_reached split.now leaf.now (best_post progress.now.state) }
{
    match best_of(progress) {
        None => false,
        Some(best) => bounds(split, leaf, best),
    }
}

/// Whether the point's value is below that of the post.
fn is_less(split: &Split, point: &Master, best: &Post) -> bool
    requires point { IsMasterOf split.now.part point.now }
    requires fits { FitsValue split.now.model split.now.part mode.Cost point.now }
    requires best_point { IsMasterOf split.now.part best.now.point }
    requires best_fits { FitsValue split.now.model split.now.part mode.Cost best.now.point }
    ensures { result ≡ is_below split.now point.now (Some best.now) }
{
    let own = value(split, point);
    let other = value(split, &best.point);
    is_above(other, best.point.den, own, point.den)
}

/// Whether the point's value is below that of the best post so far, where there is one.
fn is_least(split: &Split, progress: &Progress, point: &Master) -> bool
    requires fits { FitsSplit split.now progress.now.state }
    requires cost { mode_of progress.now.state ≡ mode.Cost }
    requires point { IsMasterOf split.now.part point.now }
    requires narrow { FitsValue split.now.model split.now.part mode.Cost point.now }
    ensures { result ≡ is_below split.now point.now (best_post progress.now.state) }
{
    match best_of(progress) {
        None => true,
        Some(best) => is_less(split, point, best),
    }
}

/// Whether the point may become the best: in mode Cost where its value is below that of the best post so far, and in mode
/// Point always.
pub fn is_better(split: &Split, progress: &Progress, point: &Master) -> bool
    requires fits { FitsSplit split.now progress.now.state }
    requires point { IsMasterOf split.now.part point.now }
    requires narrow { FitsValue split.now.model split.now.part (mode_of progress.now.state) point.now }
    ensures { result ≡ is_better split.now progress.now.state (mode_of progress.now.state) point.now }
{
    match progress.mode() {
        Mode::Cost => is_least(split, progress, point),
        Mode::Point => true,
    }
}

/// Whether a block is not filled.
fn any_empty(fills: &[Option<Filled>]) -> bool
    ensures { result ≡ list_any (λ fill. is_none fill) fills.now }
{
    fills.iter().any(|fill| fill.is_none())
}

/// Whether the blocks before and behind one are filled.
fn are_others_filled(before: &[Option<Filled>], behind: &[Option<Filled>]) -> bool
    ensures { result ≡ not (list_any (λ fill. is_none fill) before.now || list_any (λ fill. is_none fill) behind.now) }
{
    !(any_empty(before) || any_empty(behind))
}

/// Whether each block is filled, once this one is.
pub fn is_last_block(post: &Post, block: u32) -> bool
    requires first { 0 < block }
    requires last { block ≤ length post.now.fills }
    ensures { (y : BlockPart) (at : ℕ) → result ≡ is_last block y at post.now }
{
    let fills = post.fills.as_slice();
    let place = block as usize - 1;
    are_others_filled(&fills[..place], &fills[place + 1..])
}

/// The number of the cut that says the same as the one that is answered, where the pool has one.
pub fn known_cut(pool: &Pool, answer: &SepAnswer) -> Option<u32>
    ensures { IsKnownAnswer pool.now.cuts result answer.now }
{
    match answer {
        SepAnswer::Cut { cut, .. } => pool.find(cut),
        SepAnswer::Fill { .. } => None,
    }
}

/// Whether the units are spent and the search isn't done.
pub fn is_spent(progress: &Progress, budget: u32) -> bool
    ensures { result ≡ is_spent budget progress.now.state }
{
    progress.units() == budget && !progress.is_done()
}
