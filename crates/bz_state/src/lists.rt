//! Changes of the lists of nodes and of posts, in the room that is there.
ghost use Rattle.std.specs.Prelude.{◌≡◌, ◌≤◌, ◌<◌, ◌+◌, ◌-◌, ◌++◌, ◌∷◌, [], Some, length, set, vec_capacity};
ghost use Rattle.std.specs.List.{slice_get};
ghost use Rattle.std.specs.Option.{ForSome};
ghost use Rattle.bz_history.specs.States.{changed, changed_at, closed_by, ended_by, filled_by, freed_by, freed_where_live, live_of, posted_by, side};
ghost use Rattle.bz_state.specs.Views.{number_limit};

use crate::states::side;
use bz_event::How;
use bz_history::{Closing, Filled, Node, Post, Region};
use bz_num::Items;
use std::alloc::Global;

/// The node's live post was ended by the cut of this number.
fn free(nodes: &mut Vec<Node>, node: u32, number: u32)
    requires { number < number_limit }
    ensures items { nodes.new.items ≡ changed (freed_by number) nodes.old.items node }
    ensures count { length nodes.new.items ≡ length nodes.old.items }
{
    if let Some(node) = nodes.get_mut(node as usize) {
        node.live = None;
        node.after = number + 1;
    }
}

/// Where the post is live, its node is freed by the cut of this number.
pub(crate) fn free_where_live(nodes: &mut Vec<Node>, posts: &[Post], post: u32, number: u32)
    requires { number < number_limit }
    ensures items { nodes.new.items ≡ freed_where_live (slice_get posts.now post) number nodes.old.items }
    ensures count { length nodes.new.items ≡ length nodes.old.items }
{
    if let Some(post) = posts.get(post as usize) {
        if post.ended.is_none() {
            free(nodes, post.node, number);
        }
    }
}

/// The node has one more posted point, which is live.
pub(crate) fn mark_posted(nodes: &mut Vec<Node>, node: u32, post: u32)
    requires { ForSome (slice_get nodes.old.items node) (λ n. n.posted < number_limit) }
    ensures items { nodes.new.items ≡ changed (posted_by post) nodes.old.items node }
    ensures count { length nodes.new.items ≡ length nodes.old.items }
{
    if let Some(node) = nodes.get_mut(node as usize) {
        node.live = Some(post);
        node.posted += 1;
    }
}

/// The node is closed by the entry at this place.
pub(crate) fn close_node(nodes: &mut Vec<Node>, node: u32, how: How, at: u64)
    requires { length nodes.old.items ≤ number_limit }
    ensures items { nodes.new.items ≡ changed (closed_by how at (length nodes.old.items)) nodes.old.items node }
    ensures count { length nodes.new.items ≡ length nodes.old.items }
    ensures capacity { vec_capacity nodes.new ≡ vec_capacity nodes.old }
{
    let kids = nodes.len() as u32;
    if let Some(node) = nodes.get_mut(node as usize) {
        node.live = None;
        node.closing = Some(Closing { how, at, kids });
    }
}

/// Two nodes are opened over so many cuts.
pub(crate) fn open_sides(nodes: &mut Vec<Node>, opened: u32, left: Region, right: Region)
    requires { length nodes.old.items + 2 ≤ vec_capacity nodes.old }
    ensures { nodes.new.items ≡ nodes.old.items ++ side opened left ∷ side opened right ∷ [] }
{
    nodes.push_reserved(side(opened, left));
    nodes.push_reserved(side(opened, right));
}

/// The post is ended by the entry at this place, where nothing ended it before.
pub(crate) fn end_post(posts: &mut Vec<Post>, post: u32, at: u64)
    ensures items { posts.new.items ≡ changed (ended_by at) posts.old.items post }
    ensures count { length posts.new.items ≡ length posts.old.items }
{
    if let Some(post) = posts.get_mut(post as usize) {
        post.ended = Some(post.ended.unwrap_or(at));
    }
}

/// The live post of the node, where there is one, is ended by the entry at this place.
pub(crate) fn end_live_post(posts: &mut Vec<Post>, nodes: &[Node], node: u32, at: u64)
    ensures items { posts.new.items ≡ changed_at (ended_by at) posts.old.items (live_of (slice_get nodes.now node)) }
    ensures count { length posts.new.items ≡ length posts.old.items }
{
    if let Some(node) = nodes.get(node as usize) {
        if let Some(post) = node.live {
            end_post(posts, post, at);
        }
    }
}

/// The fills with this one at the place.
fn put(alloc: Global, fills: &mut Items<Option<Filled>>, place: usize, filled: Filled)
    ensures { fills.new ≡ set fills.old place (Some filled) }
{
    let mut list = std::mem::replace(fills, Items::from_vec(Vec::new(alloc))).into_vec();
    if let Some(fill) = list.get_mut(place) {
        *fill = Some(filled);
    }
    *fills = Items::from_vec(list);
}

/// The block's completion in the post.
pub(crate) fn fill_block(posts: &mut Vec<Post>, post: u32, block: u32, filled: Filled)
    requires first { 0 < block }
    ensures items { posts.new.items ≡ changed (filled_by filled.at block filled.y) posts.old.items post }
    ensures count { length posts.new.items ≡ length posts.old.items }
{
    let alloc = *posts.allocator();
    if let Some(post) = posts.get_mut(post as usize) {
        put(alloc, &mut post.fills, block as usize - 1, filled);
    }
}
