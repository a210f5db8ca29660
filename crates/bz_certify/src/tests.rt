//! A split with two leaves, whose sides stand behind it, as a tree.
ghost use Rattle.std.specs.Prelude.{IfOk};
ghost use Rattle.bz_certify.specs.Walks.{AreClosed};
ghost use Rattle.bz_certify.specs.Worked.{IsEndedBy, IsLeafEnd};

use crate::tree_of;
use bz_event::How;
use bz_history::{Closing, Node, Region};
use bz_num::{Items, OutOfMemory, SparseRow};
use bz_tree::{Leaf, TreeNode};
use std::alloc::Global;
use std::test::Fail;

/// A leaf with its multipliers left out.
fn leaf(alloc: Global) -> How
    ensures { IsLeafEnd result }
{
    How::Leaf {
        front: 0,
        leaf: Leaf {
            lambda: SparseRow::from_vec(Vec::new(alloc)),
            delta: 0,
            bound: 1,
        },
    }
}

/// A node that is closed so.
fn node(alloc: Global, how: How, kids: u32) -> Node
    ensures { IsEndedBy how kids result }
{
    Node {
        region: Region {
            lower: Items::from_vec(Vec::new(alloc)),
            upper: Items::from_vec(Vec::new(alloc)),
        },
        opened: 0,
        after: 0,
        live: None,
        posted: 0,
        closing: Some(Closing { how, at: 0, kids }),
    }
}

/// A split at position 2 between 4 and 5, and its two leaves.
fn nodes(alloc: Global) -> Result<Vec<Node>, OutOfMemory>
    ensures { IfOk result (λ nodes. AreClosed nodes.items) }
{
    let split = How::Split {
        front: 0,
        basis: Items::from_vec(Vec::new(alloc)),
        position: 2,
        value: 4,
    };
    let mut nodes = Vec::with_capacity(alloc, 3)?;
    nodes.push(node(alloc, split, 1)).map_err(|_| OutOfMemory)?;
    nodes
        .push(node(alloc, leaf(alloc), 0))
        .map_err(|_| OutOfMemory)?;
    nodes
        .push(node(alloc, leaf(alloc), 0))
        .map_err(|_| OutOfMemory)?;
    Ok(nodes)
}

#[test]
fn split_comes_before_its_leaves(rt: HostRuntime) -> Result<(), Fail> {
    let alloc = rt.alloc();
    let nodes = nodes(alloc)?;
    let tree = tree_of(alloc, nodes.as_slice())?;
    let tree = tree.as_slice();
    assert!(rt; tree.len() == 3);
    assert!(rt;
        matches!(
            &tree[0],
            TreeNode::Split {
                position: 2,
                left: 4,
                right: 5
            }
        )
    );
    assert!(rt; matches!(&tree[1], TreeNode::Leaf(_)));
    assert!(rt; matches!(&tree[2], TreeNode::Leaf(_)));
    Ok(())
}
