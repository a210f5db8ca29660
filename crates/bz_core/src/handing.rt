//! Which task is handed out next.
ghost use Rattle.std.specs.Prelude.{◌↔◌, ◌≡◌, ◌<◌, IsTrue, length, option_map};
ghost use Rattle.bz_history.specs.Steps.{AreFloorsReady};
ghost use Rattle.bz_core.specs.Handing.{Chooses, GoesOn, by_role, marked};
ghost use Rattle.bz_core.specs.Searches.{now};

use crate::choices::{choose_node, choose_separation};
use crate::roles::{Next, Role};
use crate::searches::Search;

/// What a worker of the role is told, where these are the first node and the first separation that aren't handed out.
fn by_role(role: Role, front: u32, node: Option<u32>, separation: Option<(u32, u32)>) -> Next
    ensures { result ≡ by_role role front node separation }
{
    match role {
        Role::Nodes => match node {
            Some(node) => Next::Node { node, front },
            None => match separation {
                Some((post, block)) => Next::Sep { post, block },
                None => Next::Idle,
            },
        },
        Role::Cuts => match separation {
            Some((post, block)) => Next::Sep { post, block },
            None => match node {
                Some(node) => Next::Node { node, front },
                None => Next::Idle,
            },
        },
    }
}

impl Search<'_> {
    /// What is handed out next, where no floor is left.
    fn choose_further(&self, role: Role) -> Next
        requires goes_on { GoesOn (now self.now) self.now.quit }
        requires ready { AreFloorsReady self.now.split (now self.now) }
        ensures { Chooses self.now.split (now self.now) self.now.marks self.now.quit role result }
    {
        let posts = self.progress.posts();
        let node = choose_node(self.progress.nodes(), self.marks.nodes());
        let separation = choose_separation(self.split.blocks(), posts, self.marks.blocks());
        by_role(role, self.progress.pool().len(), node, separation)
    }

    /// What is handed out next.
    fn choose(&self, role: Role) -> Next
        ensures { Chooses self.now.split (now self.now) self.now.marks self.now.quit role result }
    {
        if self.quit || self.progress.is_done() {
            return Next::Done;
        }
        match self.progress.next_floor(self.split) {
            Some(_) if self.marks.floor() => Next::Idle,
            Some(block) => Next::Floor { block },
            None => self.choose_further(role),
        }
    }

    /// Marks what is handed out.
    fn mark(&mut self, next: Next)
        ensures { self.new ≡ record self.old { marks = marked next self.old.marks } }
    {
        match next {
            Next::Floor { .. } => self.marks.set_floor(true),
            Next::Node { node, .. } => self.marks.set_node(node, true),
            Next::Sep { post, block } => self.marks.set_block(post, block, true),
            Next::Idle | Next::Done => {},
        }
    }

    /// The next task for a worker of the role, which is marked: a floor before all else; then by the role a node or a
    /// separation, each the first that isn't handed out. `Idle` where each task is, and `Done` where the search is done or
    /// called off. It takes no memory, and changes nothing but the mark.
    pub fn next_task(&mut self, role: Role) -> Next
        ensures chosen { Chooses self.old.split (now self.old) self.old.marks self.old.quit role result }
        ensures mark { self.new ≡ record self.old { marks = marked result self.old.marks } }
    {
        let next = self.choose(role);
        self.mark(next);
        next
    }
}
