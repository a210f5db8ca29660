//! What each event makes of the state, in the room that is there. It takes no memory.
ghost use Rattle.std.specs.Prelude.{ℕ, ◌≡◌, ◌≤◌, ◌<◌, ◌+◌, ◌^◌, List, None, OnOk, length, replicate};
ghost use Rattle.std.specs.List.{slice_get};
ghost use Rattle.std.specs.Option.{ForSome, IsSomeAnd};
ghost use Rattle.bz_model.specs.Parting.{blocks_of};
ghost use Rattle.bz_model.specs.Splits.{Decomposition};
ghost use Rattle.bz_event.specs.declared.events.Event.TheVariants as event;
ghost use Rattle.bz_event.specs.declared.events.How.TheVariants as how;
ghost use Rattle.bz_history.specs.States.{effect};
ghost use Rattle.bz_pool.specs.Pools.{IsNew};
ghost use Rattle.bz_state.specs.Views.{AreSides, HasPlace, number_limit};

use crate::lists::{
    close_node, end_live_post, end_post, fill_block, free_where_live, mark_posted, open_sides,
};
use crate::states::Progress;
use bz_cut::Cut;
use bz_event::{How, Why};
use bz_history::{FallingRay, Filled, Post, Region, Stopped};
use bz_model::{BlockPart, Master, Split};
use bz_num::{Items, OutOfMemory};
use bz_tree::Leaf;

impl Progress {
    /// Makes room for what one answer may add: a cut, a floor's place, two nodes and a post. There is no room either where
    /// nodes, posts or cuts can't be numbered any more. The state stays as it is.
    pub fn reserve(&mut self) -> Result<(), OutOfMemory>
        ensures state { self.new.state ≡ self.old.state }
        ensures cuts { OnOk result (1 ≤ self.new.room.cuts) }
        ensures floors { OnOk result (1 ≤ self.new.room.floors) }
        ensures nodes { OnOk result (2 ≤ self.new.room.nodes) }
        ensures posts { OnOk result (1 ≤ self.new.room.posts) }
    {
        // Nodes and posts are numbered with 32 bits.
        if self.nodes.len() > u32::MAX as usize - 2 || self.posts.len() >= u32::MAX as usize {
            return Err(OutOfMemory);
        }
        self.pool.reserve(1)?;
        self.floors.reserve(1)?;
        self.nodes.reserve(2)?;
        self.posts.reserve(1)?;
        Ok(())
    }

    /// The next block's floor is the next cut.
    pub fn add_floor(&mut self, cut: Cut)
        requires cuts { 1 ≤ self.old.room.cuts }
        requires floors { 1 ≤ self.old.room.floors }
        requires entries { HasPlace self.old.state }
        requires new { IsNew self.old.state.cuts cut }
        ensures { (d : Decomposition) (block : ℕ) (basis : List ℕ) →
            self.new.state ≡ effect d self.old.state (event.Floor block basis cut) }
    {
        self.pool.push_reserved(cut);
        self.floors.push_reserved(self.entries);
        self.entries += 1;
    }

    /// A block's cost falls along the direction.
    pub fn set_ray(&mut self, block: u32, d: Items<i128>)
        requires { HasPlace self.old.state }
        ensures { (split : Decomposition) → self.new.state ≡ effect split self.old.state (event.Ray block d) }
    {
        let at = self.entries;
        self.ray = Some(FallingRay { block, d, at });
        self.entries += 1;
    }

    /// The node has a posted point, none of whose blocks is filled.
    pub fn add_post(
        &mut self,
        split: &Split,
        node: u32,
        front: u32,
        point: Master,
        leaf: Option<Leaf>,
        fills: Items<Option<Filled>>,
    )
        requires posts { 1 ≤ self.old.room.posts }
        requires entries { HasPlace self.old.state }
        requires posted { ForSome (slice_get self.old.state.nodes node) (λ n. n.posted < number_limit) }
        requires fills { fills ≡ replicate (blocks_of split.now.part) None }
        ensures { self.new.state ≡ effect split.now self.old.state (event.Post node front point leaf) }
    {
        let number = self.posts.len() as u32;
        let at = self.entries;
        mark_posted(&mut self.nodes, node, number);
        self.posts.push_reserved(Post {
            node,
            front,
            point,
            leaf,
            fills,
            at,
            ended: None,
        });
        self.entries += 1;
    }

    /// A cut that the post's point breaks is the next cut.
    pub fn append(&mut self, post: u32, cut: Cut)
        requires cuts { 1 ≤ self.old.room.cuts }
        requires entries { HasPlace self.old.state }
        requires units { self.old.state.units < number_limit }
        requires new { IsNew self.old.state.cuts cut }
        ensures { (d : Decomposition) (basis : List ℕ) →
            self.new.state ≡ effect d self.old.state (event.Append post basis cut) }
    {
        self.pool.push_reserved(cut);
        let number = self.pool.len() - 1;
        free_where_live(&mut self.nodes, self.posts.as_slice(), post, number);
        end_post(&mut self.posts, post, self.entries);
        self.units += 1;
        self.entries += 1;
    }

    /// The post's point breaks the cut of this number.
    pub fn again(&mut self, post: u32, number: u32)
        requires entries { HasPlace self.old.state }
        requires number { number < number_limit }
        ensures { (d : Decomposition) (basis : List ℕ) →
            self.new.state ≡ effect d self.old.state (event.Again post basis number) }
    {
        free_where_live(&mut self.nodes, self.posts.as_slice(), post, number);
        end_post(&mut self.posts, post, self.entries);
        self.entries += 1;
    }

    /// The block's part completes the post's point.
    pub fn fill(&mut self, post: u32, block: u32, y: BlockPart)
        requires entries { HasPlace self.old.state }
        requires first { 0 < block }
        ensures { (d : Decomposition) → self.new.state ≡ effect d self.old.state (event.Fill post block y) }
    {
        let at = self.entries;
        fill_block(&mut self.posts, post, block, Filled { y, at });
        self.entries += 1;
    }

    /// The post is the best so far.
    pub fn set_best(&mut self, post: u32)
        requires { HasPlace self.old.state }
        ensures { (d : Decomposition) → self.new.state ≡ effect d self.old.state (event.Incumbent post) }
    {
        self.best = Some(post);
        self.entries += 1;
    }

    /// The leaf over the first `front` cuts closes the node.
    pub fn close(&mut self, node: u32, front: u32, leaf: Leaf)
        requires entries { HasPlace self.old.state }
        requires units { self.old.state.units < number_limit }
        ensures { (d : Decomposition) →
            self.new.state ≡ effect d self.old.state (event.Close node (how.Leaf front leaf)) }
    {
        end_live_post(&mut self.posts, self.nodes.as_slice(), node, self.entries);
        close_node(
            &mut self.nodes,
            node,
            How::Leaf { front, leaf },
            self.entries,
        );
        self.units += 1;
        self.entries += 1;
    }

    /// The node is split at the integer column of the position, into these two sides.
    pub fn split(
        &mut self,
        split: &Split,
        node: u32,
        front: u32,
        basis: Items<u32>,
        position: u32,
        value: i128,
        sides: (Region, Region),
    )
        requires nodes { 2 ≤ self.old.room.nodes }
        requires entries { HasPlace self.old.state }
        requires units { self.old.state.units < number_limit }
        requires sides { IsSomeAnd (slice_get self.old.state.nodes node) (AreSides split.now position value sides.0 sides.1) }
        ensures { self.new.state ≡ effect split.now self.old.state (event.Close node (how.Split front basis position value)) }
    {
        let how = How::Split {
            front,
            basis,
            position,
            value,
        };
        end_live_post(&mut self.posts, self.nodes.as_slice(), node, self.entries);
        close_node(&mut self.nodes, node, how, self.entries);
        open_sides(&mut self.nodes, self.pool.len(), sides.0, sides.1);
        self.units += 1;
        self.entries += 1;
    }

    /// The search ends.
    pub fn stop(&mut self, why: &Why)
        requires { HasPlace self.old.state }
        ensures { (d : Decomposition) → self.new.state ≡ effect d self.old.state (event.Stop why.now) }
    {
        self.stop = Some(match why {
            Why::Budget => Stopped::Budget,
            Why::Wide(_) => Stopped::Wide,
        });
        self.entries += 1;
    }
}
