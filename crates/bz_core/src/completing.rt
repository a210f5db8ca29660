//! What follows where a post is complete.
ghost use Rattle.std.specs.Prelude.{ℕ, ◌≡◌, [], IfOk};
ghost use Rattle.bz_rules.specs.Entries.{leaf_events};
ghost use Rattle.bz_core.specs.Separations.{closing_events, completion_events};

use crate::entering::Completion;
use bz_cut::Mode;
use bz_num::OutOfMemory;
use bz_tree::Leaf;
use std::alloc::Global;

/// Nothing follows.
pub(crate) fn no_completion() -> Completion
    ensures { (number : ℕ) → completion_events number result ≡ [] }
{
    Completion {
        better: false,
        node: 0,
        front: 0,
        leaf: None,
    }
}

/// The same leaf, where there is one. It takes memory.
pub(crate) fn copy_leaf(alloc: Global, leaf: &Option<Leaf>) -> Result<Option<Leaf>, OutOfMemory>
    ensures { IfOk result (λ copy. copy ≡ leaf.now) }
{
    match leaf {
        None => Ok(None),
        Some(leaf) => {
            let copy = leaf.copy(alloc)?;
            Ok(Some(copy))
        },
    }
}

/// The leaf that closes the node of a complete post: in mode Cost that of the post, and in mode Point none. It takes memory.
pub(crate) fn closing_leaf(
    alloc: Global,
    mode: Mode,
    leaf: &Option<Leaf>,
) -> Result<Option<Leaf>, OutOfMemory>
    ensures { IfOk result (λ closing. (node front : ℕ) →
        closing_events node front closing ≡ leaf_events mode node front leaf.now) }
{
    match mode {
        Mode::Cost => copy_leaf(alloc, leaf),
        Mode::Point => Ok(None),
    }
}
