//! The state of a search, and what can be read of it.
ghost use Rattle.std.specs.Prelude.{◌≡◌, ◌≤◌, IfNone, IfOk, IfSome, length, max};
ghost use Rattle.std.specs.List.{list_any};
ghost use Rattle.std.specs.Option.{option_copied};
ghost use Rattle.bz_model.specs.Parting.{blocks_of};
ghost use Rattle.bz_history.specs.States.{is_done, is_open, least_front, mode_of, opening, side};
ghost use Rattle.bz_history.specs.Steps.{AreFloorsReady, IsNextFloor};
ghost use Rattle.bz_state.specs.Views.{number_limit};

use bz_cut::Mode;
use bz_history::{FallingRay, Node, Post, Region, Stopped};
use bz_model::Split;
use bz_num::OutOfMemory;
use bz_pool::Pool;
use std::alloc::Global;
use std::marker::Model;

/// What a search knows, with room for what the next events add. Contracts see it as the state and that room.
#[derive(Drop)]
pub struct Progress {
    pub(crate) pool: Pool,
    pub(crate) floors: Vec<u64>,
    pub(crate) ray: Option<FallingRay>,
    pub(crate) nodes: Vec<Node>,
    pub(crate) posts: Vec<Post>,
    pub(crate) best: Option<u32>,
    pub(crate) units: u32,
    pub(crate) stop: Option<Stopped>,
    pub(crate) entries: u64,
}

impl Model for Progress {
    ghost use Rattle.std.specs.Prelude.{vec_capacity, length, ◌≤◌, ◌-◌};
    ghost use Rattle.bz_state.specs.Views.{number_limit, room_of};
    ghost use Rattle.bz_state.specs.Views.{Progress as ProgressView};
    ghost use Rattle.std.specs.Coded.{codes};
    ghost use Rattle.bz_history.specs.contracts.state.Node as node;
    ghost use Rattle.bz_history.specs.contracts.state.Post as post;

    ghost Value = { ProgressView };

    ghost coded = { Prim.hlevel (codes, node.the_row.coded, post.the_row.coded) };

    ghost view = { λ p. record {
      state = record {
        cuts = p.pool.cuts;
        floors = p.floors.items;
        ray = p.ray;
        nodes = p.nodes.items;
        posts = p.posts.items;
        best = p.best;
        units = p.units;
        stop = p.stop;
        entries = p.entries;
      };
      room = record {
        cuts = p.pool.spare;
        floors = vec_capacity p.floors - length p.floors.items;
        nodes = room_of (vec_capacity p.nodes) p.nodes.items;
        posts = room_of (vec_capacity p.posts) p.posts.items;
      };
    } };

    ghost invariant = { λ p. (length p.nodes.items ≤ number_limit) × (length p.posts.items ≤ number_limit) };
}

/// A node that is opened over so many cuts.
pub(crate) fn side(opened: u32, region: Region) -> Node
    ensures { result ≡ side opened region }
{
    Node {
        region,
        opened,
        after: 0,
        live: None,
        posted: 0,
        closing: None,
    }
}

/// Whether a node is open.
fn any_open(nodes: &[Node]) -> bool
    ensures { result ≡ list_any is_open nodes.now }
{
    nodes.iter().any(|node| node.closing.is_none())
}

/// The greater number.
fn greater(a: u32, b: u32) -> u32
    ensures { result ≡ max a b }
{
    if a < b { b } else { a }
}

impl Progress {
    /// The state in which a search begins in the region: its only node. It takes memory.
    pub fn opening(alloc: Global, root: Region) -> Result<Progress, OutOfMemory>
        ensures { IfOk result (λ progress. progress.state ≡ opening root) }
    {
        let mut nodes = Vec::with_capacity(alloc, 1)?;
        nodes.push_reserved(side(0, root));
        Ok(Progress {
            pool: Pool::new(alloc)?,
            floors: Vec::new(alloc),
            ray: None,
            nodes,
            posts: Vec::new(alloc),
            best: None,
            units: 0,
            stop: None,
            entries: 0,
        })
    }

    /// The cuts.
    pub fn pool(&self) -> &Pool
        ensures cuts { result.now.cuts ≡ self.now.state.cuts }
        ensures room { result.now.spare ≡ self.now.room.cuts }
    {
        &self.pool
    }

    /// The place in the history of each floor, in the order of the blocks.
    pub fn floors(&self) -> &[u64]
        ensures { result.now ≡ self.now.state.floors }
    {
        self.floors.as_slice()
    }

    /// The direction along which a block's cost falls, where one was found.
    pub fn ray(&self) -> Option<&FallingRay>
        ensures { option_copied result ≡ self.now.state.ray }
    {
        self.ray.as_ref()
    }

    /// The nodes, by number.
    pub fn nodes(&self) -> &[Node]
        ensures nodes { result.now ≡ self.now.state.nodes }
        ensures few { length result.now ≤ number_limit }
    {
        self.nodes.as_slice()
    }

    /// The posted points, by number.
    pub fn posts(&self) -> &[Post]
        ensures posts { result.now ≡ self.now.state.posts }
        ensures few { length result.now ≤ number_limit }
    {
        self.posts.as_slice()
    }

    /// The number of the best post so far.
    pub fn best(&self) -> Option<u32>
        ensures { result ≡ self.now.state.best }
    {
        self.best
    }

    /// How many units are spent.
    pub fn units(&self) -> u32
        ensures { result ≡ self.now.state.units }
    {
        self.units
    }

    /// Why the search ended before its time, where it did.
    pub fn stopped(&self) -> Option<Stopped>
        ensures { result ≡ self.now.state.stop }
    {
        self.stop
    }

    /// How many entries the history has.
    pub fn entries(&self) -> u64
        ensures { result ≡ self.now.state.entries }
    {
        self.entries
    }

    /// What is looked for: a point of least cost, or any point.
    pub fn mode(&self) -> Mode
        ensures { result ≡ mode_of self.now.state }
    {
        match &self.ray {
            None => Mode::Cost,
            Some(_) => Mode::Point,
        }
    }

    /// Whether the search is over.
    pub fn is_done(&self) -> bool
        ensures { result ≡ is_done self.now.state }
    {
        self.stop.is_some()
            || !any_open(self.nodes.as_slice())
            || (self.ray.is_some() && self.best.is_some())
    }

    /// Whether a node is open.
    pub fn has_open_node(&self) -> bool
        ensures { result ≡ list_any is_open self.now.state.nodes }
    {
        any_open(self.nodes.as_slice())
    }

    /// The next block without a floor, where floors are still made.
    pub fn next_floor(&self, split: &Split) -> Option<u32>
        requires { length self.now.state.floors ≤ blocks_of split.now.part }
        ensures some { IfSome result (IsNextFloor split.now self.now.state) }
        ensures none { IfNone result (AreFloorsReady split.now self.now.state) }
    {
        if self.ray.is_some() || self.floors.len() >= split.blocks() as usize {
            return None;
        }
        Some(self.floors.len() as u32 + 1)
    }

    /// How many cuts a node has to be solved over at least.
    pub fn least_front(&self, split: &Split, node: &Node) -> u32
        ensures { result ≡ least_front split.now (mode_of self.now.state) node.now }
    {
        let own = greater(node.opened, node.after);
        match self.mode() {
            Mode::Cost => greater(own, split.blocks()),
            Mode::Point => own,
        }
    }
}
