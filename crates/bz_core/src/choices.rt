//! The first node and the first separation that aren't handed out.
ghost use Rattle.std.specs.Prelude.{ℕ, ◌↔◌, ◌≡◌, ◌≤◌, ◌<◌, ◌^◌, IfNone, IfSome, IsTrue, MatchBool, None, Some, false, true, length};
ghost use Rattle.std.specs.List.{AllByRecursion, slice_get};
ghost use Rattle.bz_core.specs.Handing.{IsFirstNode, IsFirstSeparation, IsFreeBlock, IsFreeNode, IsFreeSeparation, NoNodeIsFree, NoSeparationIsFree};

use bz_history::{Filled, Node, Post};
use bz_num::Items;

/// Whether the node of this number is open, has no live post, and isn't handed out.
fn is_free_node(nodes: &[Node], marks: &[bool], number: usize) -> bool
    requires node { number < length nodes.now }
    requires mark { number < length marks.now }
    ensures { MatchBool result (IsFreeNode nodes.now marks.now number) (IsFreeNode nodes.now marks.now number → ⊥) }
{
    let node = &nodes[number];
    node.closing.is_none() && node.live.is_none() && !marks[number]
}

/// The first node that is open, has no live post, and isn't handed out.
pub(crate) fn choose_node(nodes: &[Node], marks: &[bool]) -> Option<u32>
    requires few { length nodes.now < 2 ^ 32 }
    requires marks { length marks.now ≡ length nodes.now }
    ensures free { IfSome result (IsFreeNode nodes.now marks.now) }
    ensures none { IfNone result (NoNodeIsFree nodes.now marks.now) }
    ensures first { IfSome result (IsFirstNode nodes.now marks.now) }
{
    for number in 0..nodes.len() {
        if is_free_node(nodes, marks, number) {
            return Some(number as u32);
        }
    }
    None
}

/// Whether there is such a place, and nothing stands there.
fn is_gap(fills: &[Option<Filled>], place: u32) -> bool
    ensures { IsTrue result ↔ (slice_get fills.now place ≡ Some None) }
{
    match fills.get(place as usize) {
        Some(fill) => fill.is_none(),
        None => false,
    }
}

/// Whether the place isn't marked.
fn is_unmarked(marks: &[bool], place: u32) -> bool
    requires { place < length marks.now }
    ensures { IsTrue result ↔ (slice_get marks.now place ≡ Some false) }
{
    !marks[place as usize]
}

/// The first block that isn't completed and isn't handed out.
fn choose_block(blocks: u32, fills: &[Option<Filled>], marks: &[bool]) -> Option<u32>
    requires { length marks.now ≡ blocks }
    ensures free { IfSome result (IsFreeBlock blocks fills.now marks.now) }
    ensures none { IfNone result ((b : ℕ) → IsFreeBlock blocks fills.now marks.now b → ⊥) }
    ensures first { IfSome result (λ block. (b : ℕ) → b < block → IsFreeBlock blocks fills.now marks.now b → ⊥) }
{
    for place in 0..blocks {
        if is_gap(fills, place) && is_unmarked(marks, place) {
            return Some(place + 1);
        }
    }
    None
}

/// The first block of the post of this number that isn't completed and isn't handed out, where the post is live.
fn choose_in_post(blocks: u32, posts: &[Post], marks: &[Items<bool>], number: usize) -> Option<u32>
    requires post { number < length posts.now }
    requires marks { number < length marks.now }
    requires blocks { AllByRecursion (λ of_post. length of_post ≡ blocks) marks.now }
    ensures free { IfSome result (IsFreeSeparation blocks posts.now marks.now number) }
    ensures none { IfNone result ((b : ℕ) → IsFreeSeparation blocks posts.now marks.now number b → ⊥) }
    ensures first { IfSome result (λ block. (b : ℕ) → b < block → IsFreeSeparation blocks posts.now marks.now number b → ⊥) }
{
    let post = &posts[number];
    if post.ended.is_some() {
        return None;
    }
    choose_block(blocks, post.fills.as_slice(), marks[number].as_slice())
}

/// The first block of a live post that isn't completed and isn't handed out, the posts by number.
pub(crate) fn choose_separation(
    blocks: u32,
    posts: &[Post],
    marks: &[Items<bool>],
) -> Option<(u32, u32)>
    requires few { length posts.now < 2 ^ 32 }
    requires marks { length marks.now ≡ length posts.now }
    requires blocks { AllByRecursion (λ of_post. length of_post ≡ blocks) marks.now }
    ensures free { IfSome result (λ s. IsFreeSeparation blocks posts.now marks.now s.0 s.1) }
    ensures none { IfNone result (NoSeparationIsFree blocks posts.now marks.now) }
    ensures first { IfSome result (λ s. IsFirstSeparation blocks posts.now marks.now s.0 s.1) }
{
    for number in 0..posts.len() {
        if let Some(block) = choose_in_post(blocks, posts, marks, number) {
            return Some((number as u32, block));
        }
    }
    None
}
