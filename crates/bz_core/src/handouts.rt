//! Marks of what is handed out.
ghost use Rattle.std.specs.Prelude.{◌≡◌, ◌<◌, [], ◌∷◌, ◌++◌, IfErr, IfOk, Some, false, length, replicate, set};
ghost use Rattle.bz_core.specs.Handing.{block_marked, unmarked};
ghost use Rattle.bz_core.specs.Marking.{with_added};

use bz_event::{Event, How, TaskName};
use bz_num::{Items, OutOfMemory};
use std::alloc::Global;
use std::marker::Model;

/// Which tasks are handed out: the floor of the next block, each node, and each block of each posted point.
#[derive(Drop)]
pub struct Marks {
    floor: bool,
    nodes: Vec<bool>,
    blocks: Vec<Items<bool>>,
}

impl Model for Marks {
    ghost use Rattle.bz_core.specs.Searches.{Marks as MarksView};

    ghost Value = { MarksView };

    ghost view = { λ m. record { floor = m.floor; nodes = m.nodes.items; blocks = m.blocks.items } };
}

/// The marks with this one at the place.
fn put(alloc: Global, marks: &mut Items<bool>, place: usize, mark: bool)
    ensures { marks.new ≡ set marks.old place mark }
{
    let mut list = std::mem::replace(marks, Items::from_vec(Vec::new(alloc))).into_vec();
    if let Some(old) = list.get_mut(place) {
        *old = mark;
    }
    *marks = Items::from_vec(list);
}

/// The marks of the posts with this one at a block of a post.
fn mark_block(blocks: &mut Vec<Items<bool>>, post: u32, block: u32, mark: bool)
    ensures { blocks.new.items ≡ block_marked blocks.old.items post block mark }
{
    let alloc = *blocks.allocator();
    if let Some(of_post) = blocks.get_mut(post as usize) {
        put(alloc, of_post, (block as usize).saturating_sub(1), mark);
    }
}

/// Marks of so many blocks, none of which is handed out.
fn no_blocks(alloc: Global, blocks: u32) -> Result<Items<bool>, OutOfMemory>
    ensures { IfOk result (λ marks. marks ≡ replicate blocks false) }
{
    let marks = vec![in alloc; false; blocks as usize]?;
    Ok(Items::from_vec(marks))
}

impl Marks {
    /// The marks of a search that begins: of its only node.
    pub(crate) fn new(alloc: Global) -> Result<Marks, OutOfMemory>
        ensures { IfOk result (λ marks. marks ≡ record { floor = false; nodes = false ∷ []; blocks = [] }) }
    {
        let mut nodes = Vec::with_capacity(alloc, 1)?;
        nodes.push_reserved(false);
        Ok(Marks {
            floor: false,
            nodes,
            blocks: Vec::new(alloc),
        })
    }

    /// Whether the floor of the next block is handed out.
    pub(crate) fn floor(&self) -> bool
        ensures { result ≡ self.now.floor }
    {
        self.floor
    }

    /// Which nodes are.
    pub(crate) fn nodes(&self) -> &[bool]
        ensures { result.now ≡ self.now.nodes }
    {
        self.nodes.as_slice()
    }

    /// Which blocks of which posts are.
    pub(crate) fn blocks(&self) -> &[Items<bool>]
        ensures { result.now ≡ self.now.blocks }
    {
        self.blocks.as_slice()
    }

    /// Marks the floor of the next block, or takes its mark off.
    pub(crate) fn set_floor(&mut self, mark: bool)
        ensures { self.new ≡ record self.old { floor = mark } }
    {
        self.floor = mark;
    }

    /// Marks a node, or takes its mark off.
    pub(crate) fn set_node(&mut self, node: u32, mark: bool)
        ensures { self.new ≡ record self.old { nodes = set self.old.nodes node mark } }
    {
        if let Some(old) = self.nodes.get_mut(node as usize) {
            *old = mark;
        }
    }

    /// Marks a block of a post, or takes its mark off.
    pub(crate) fn set_block(&mut self, post: u32, block: u32, mark: bool)
        ensures { self.new ≡ record self.old { blocks = block_marked self.old.blocks post block mark } }
    {
        mark_block(&mut self.blocks, post, block, mark);
    }

    /// Adds the two sides of a node, which aren't handed out. It takes memory.
    fn add_sides(&mut self) -> Result<(), OutOfMemory>
        ensures refused { IfErr result (λ _. self.new ≡ self.old) }
        ensures added { IfOk result (λ _. self.new ≡ record self.old { nodes = self.old.nodes ++ false ∷ false ∷ [] }) }
    {
        self.nodes.reserve(2)?;
        self.nodes.push_reserved(false);
        self.nodes.push_reserved(false);
        Ok(())
    }

    /// Adds a post with so many blocks, none of which is handed out. It takes memory.
    fn add_post(&mut self, blocks: u32) -> Result<(), OutOfMemory>
        ensures refused { IfErr result (λ _. self.new ≡ self.old) }
        ensures added { IfOk result (λ _. self.new
            ≡ record self.old { blocks = self.old.blocks ++ replicate blocks false ∷ [] }) }
    {
        let marks = no_blocks(*self.blocks.allocator(), blocks)?;
        self.blocks.reserve(1)?;
        self.blocks.push_reserved(marks);
        Ok(())
    }

    /// Adds what the event adds, where each post has so many blocks: none of it is handed out. It takes memory.
    pub(crate) fn add(&mut self, blocks: u32, event: &Event) -> Result<(), OutOfMemory>
        ensures refused { IfErr result (λ _. self.new ≡ self.old) }
        ensures added { IfOk result (λ _. self.new ≡ with_added blocks event.now self.old) }
    {
        match event {
            Event::Post { .. } => self.add_post(blocks),
            Event::Close {
                how: How::Split { .. },
                ..
            } => self.add_sides(),
            _ => Ok(()),
        }
    }

    /// Takes the mark of a task off.
    pub(crate) fn take_off(&mut self, task: TaskName)
        ensures { self.new ≡ unmarked task self.old }
    {
        match task {
            TaskName::Floor { .. } => self.set_floor(false),
            TaskName::Node { node, .. } => self.set_node(node, false),
            TaskName::Sep { post, block } => self.set_block(post, block, false),
        }
    }
}
