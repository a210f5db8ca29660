//! Copies of tasks, to be solved without the search.
ghost use Rattle.std.specs.Prelude.{◌≡◌, ◌≤◌, ◌<◌, IfOk, length};
ghost use Rattle.bz_std.specs.Tasks.{IsMasterOf};
ghost use Rattle.bz_core.specs.Copies.{CanBeSolved, IsCopiedNode, IsCopiedSeparation};
ghost use Rattle.bz_core.specs.Searches.{now};

use crate::searches::Search;
use bz_certify::copies;
use bz_event::{NodeTask, SepTask};
use bz_num::OutOfMemory;
use bz_rules::box_of;

impl Search<'_> {
    /// The task of a node over the first `front` cuts. It takes memory.
    pub fn copy_node(&self, node: u32, front: u32) -> Result<NodeTask, OutOfMemory>
        requires node { node < length (now self.now).nodes }
        requires front { front ≤ length (now self.now).cuts }
        ensures copied { IfOk result (IsCopiedNode (now self.now) node front) }
        ensures solvable { IfOk result (CanBeSolved self.now) }
    {
        let alloc = *self.history.allocator();
        let region = &self.progress.nodes()[node as usize].region;
        Ok(NodeTask {
            node,
            front,
            region: box_of(alloc, region)?,
            cuts: copies(alloc, self.progress.pool().front(front))?,
            mode: self.progress.mode(),
        })
    }

    /// The task of separating a block at a posted point. It takes memory.
    pub fn copy_sep(&self, post: u32, block: u32) -> Result<SepTask, OutOfMemory>
        requires { post < length (now self.now).posts }
        ensures copied { IfOk result (IsCopiedSeparation (now self.now) post block) }
        ensures point { IfOk result (λ task. IsMasterOf self.now.split.part task.point) }
    {
        let alloc = *self.history.allocator();
        let point = &self.progress.posts()[post as usize].point;
        Ok(SepTask {
            post,
            block,
            point: point.copy(alloc)?,
            mode: self.progress.mode(),
        })
    }
}
