//! What is proved of boxes, leaves and lists of nodes.
ghost use Rattle.std.specs.Prelude.{◌≡◌, List};
ghost use Rattle.bz_tree.specs.declared.records.TreeNode.{TreeNode};
ghost use Rattle.bz_tree.specs.Laws.{LeavesKeep, SplitsCover};
ghost use Rattle.bz_tree.specs.Trees.{IsTreeOf, Tree};

/// A list of nodes is that of at most one tree. Nothing runs.
pub fn nodes_are_of_one_tree()
    ensures { (nodes : List TreeNode) (s t : Tree) → IsTreeOf nodes s → IsTreeOf nodes t → s ≡ t }
{}

/// A feasible point in a box lies in one of the two boxes of a split of it. Nothing runs.
pub fn splits_cover()
    ensures { SplitsCover }
{}

/// A leaf that holds still holds when cuts are appended, and one that fits still fits. Nothing runs.
pub fn leaves_keep()
    ensures { LeavesKeep }
{}
