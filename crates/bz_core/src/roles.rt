//! What workers do first, and what they are told to do.

/// What a worker does first.
#[derive(Clone, Copy, Debug, PartialEq, Eq)]
pub enum Role {
    /// It solves nodes, and separations where no node is left.
    Nodes,
    /// It makes separations, and solves nodes where none is left.
    Cuts,
}

/// What a worker is told to do. Blocks are counted from 1, nodes and posted points from 0.
#[derive(Clone, Copy, Debug, PartialEq, Eq)]
pub enum Next {
    /// The floor of a block.
    Floor { block: u32 },
    /// A node, over the first `front` cuts.
    Node { node: u32, front: u32 },
    /// The separation of a block at a posted point.
    Sep { post: u32, block: u32 },
    /// All that can be done now is handed out.
    Idle,
    /// The search is done or called off.
    Done,
}
