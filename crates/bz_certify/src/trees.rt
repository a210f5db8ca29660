//! The closed nodes of a search as the tree of a certificate.
ghost use Rattle.std.specs.Prelude.{◌≡◌, ◌++◌, ◌<◌, IfOk, OnOk, length, pos, ◌+ℤ◌};
ghost use Rattle.bz_algebra.specs.Numbers.{IsNarrow};
ghost use Rattle.bz_tree.specs.Trees.{Tree, preorder};
ghost use Rattle.bz_history.specs.Certificates.{IsTreeAt};
ghost use Rattle.bz_certify.specs.Walks.{AreClosed, HasNext, IsClosingAt, head_of, sides_of};

use bz_event::How;
use bz_history::{Closing, Node};
use bz_num::{Items, OutOfMemory};
use bz_tree::TreeNode;
use std::alloc::Global;

/// The number after one.
fn next(value: i128) -> i128
    requires { IsNarrow (value +ℤ pos 1) }
    ensures { result ≡ value +ℤ pos 1 }
{
    value + 1
}

/// The node of the tree that the end of a node states.
fn head(alloc: Global, how: &How) -> Result<TreeNode, OutOfMemory>
    requires { HasNext how.now }
    ensures { IfOk result (λ node. node ≡ head_of how.now) }
{
    match how {
        How::Split {
            position,
            value,
            ..
        } => Ok(TreeNode::Split {
            position: *position,
            left: *value,
            right: next(*value),
        }),
        How::Leaf { leaf, .. } => Ok(TreeNode::Leaf(leaf.copy(alloc)?)),
    }
}

/// Puts the sides of a split on the stack, the left one on top.
fn push_sides(stack: &mut Vec<usize>, closing: &Closing) -> Result<(), OutOfMemory>
    ensures { OnOk result (stack.new.items ≡ stack.old.items ++ sides_of closing.now) }
{
    if let How::Split { .. } = closing.how {
        let left = closing.kids as usize;
        stack.push(left + 1).map_err(|_| OutOfMemory)?;
        stack.push(left).map_err(|_| OutOfMemory)?;
    }
    Ok(())
}

/// The end of the node with the number.
fn end_of(nodes: &[Node], n: usize) -> &Closing
    requires closed { AreClosed nodes.now }
    requires inside { n < length nodes.now }
    ensures { IsClosingAt nodes.now n result.now }
{
    let Some(closing) = &nodes[n].closing else {
        unreachable!()
    };
    closing
}

/// The closed nodes as the tree of a certificate: from the first one on, a split before its two sides and the left side
/// before the right.
pub fn tree_of(alloc: Global, nodes: &[Node]) -> Result<Items<TreeNode>, OutOfMemory>
    requires { AreClosed nodes.now }
    ensures { IfOk result (λ list. (tree : Tree) → IsTreeAt nodes.now 0 tree → list ≡ preorder tree) }
{
    let mut stack = Vec::new(alloc);
    stack.push(0).map_err(|_| OutOfMemory)?;
    let mut list = Vec::new(alloc);
    while let Some(n) = stack.pop() {
        let closing = end_of(nodes, n);
        let node = head(alloc, &closing.how)?;
        list.push(node).map_err(|_| OutOfMemory)?;
        push_sides(&mut stack, closing)?;
    }
    Ok(Items::from_vec(list))
}
