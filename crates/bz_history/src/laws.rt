//! What is true of every legal history.
ghost use Rattle.bz_history.specs.BestPosts.{BestPostsAreRight};
ghost use Rattle.bz_history.specs.Budgets.{EnoughIsEnough};
ghost use Rattle.bz_history.specs.Certificates.{CertificatesAreRight, CertificatesHaveTheirShape};
ghost use Rattle.bz_history.specs.Covers.{NothingBetterIsLost};
ghost use Rattle.bz_history.specs.Finished.{FinishedSearchesAreTrue, RaysAreTrue};
ghost use Rattle.bz_history.specs.Floors.{FloorsComeFirst};
ghost use Rattle.bz_history.specs.Fronts.{FrontsRise};
ghost use Rattle.bz_history.specs.Histories.{CountsRise};
ghost use Rattle.bz_history.specs.Leaves.{LeavesAreRight};
ghost use Rattle.bz_history.specs.Lives.{LivesAreRight};
ghost use Rattle.bz_history.specs.Measures.{NodesAreFew};
ghost use Rattle.bz_history.specs.Outcomes.{OutcomesAreTrue};
ghost use Rattle.bz_history.specs.Places.{PlacesAreRight};
ghost use Rattle.bz_history.specs.Pools.{AppendedCutsAreOfBases, PoolsAreRight};
ghost use Rattle.bz_history.specs.PostCounts.{PostsAreFew, PostsHaveNumbers};
ghost use Rattle.bz_history.specs.Posts.{PostsAreRight};
ghost use Rattle.bz_history.specs.Sizes.{SizesAreRight};
ghost use Rattle.bz_history.specs.Trees.{ParentsAreOne, TreesAreWhole};

/// The counts of each worker's stamps are 0, 1, 2 and on, each once and in order.
pub fn counts_rise()
    ensures { CountsRise }
{}

/// The pool is the cuts of the floors and of the appended cuts, in their order: each is valid, with no sum wide that tells
/// so, and no two are the same.
pub fn pools_are_right()
    ensures { PoolsAreRight }
{}

/// The floors are the first cuts, in the order of their blocks, and have a number above 0 at their etas; while they are made
/// there is no other cut and no post.
pub fn floors_come_first()
    ensures { FloorsComeFirst }
{}

/// Each cut after the floors is that of a basis of its block's separation, and all are of the present mode.
pub fn appended_cuts_are_of_bases()
    ensures { AppendedCutsAreOfBases }
{}

/// Each posted point, live or ended, lies in its node's box and meets the cuts of its own front; in mode Cost its leaf bounds
/// the node by its value; and what fills a block completes it there.
pub fn posts_are_right()
    ensures { PostsAreRight }
{}

/// The nodes are one tree from the box of the whole model: each split has its two sides, and each other closed node a leaf
/// that holds over its own front.
pub fn trees_are_whole()
    ensures { TreesAreWhole }
{}

/// Each node is a side of one other at most.
pub fn parents_are_one()
    ensures { ParentsAreOne }
{}

/// Each closing leaf is empty, or its bound is no less than the value of the best post now.
pub fn leaves_are_right()
    ensures { LeavesAreRight }
{}

/// The live post of a node is one of its own that nothing has ended, and each such post is the live one of its node, which
/// is open.
pub fn lives_are_right()
    ensures { LivesAreRight }
{}

/// The fronts of a node's posts rise, and a live post is the last of its node.
pub fn fronts_rise()
    ensures { FrontsRise }
{}

/// A node tells how many posts are its own: at most one more than the cuts, and at most all posts. So all are at most so many
/// for each node.
pub fn posts_are_few()
    ensures { PostsAreFew }
{}

/// With a budget within the limit the posts are fewer than the greatest number of 32 bits.
pub fn posts_have_numbers()
    ensures { PostsHaveNumbers }
{}

/// The nodes that are there, with those that may still come, are at most twice the whole points of the root's box, less one.
pub fn nodes_are_few()
    ensures { NodesAreFew }
{}

/// The units are those of the closed nodes and of the appended cuts, and never more than the budget.
pub fn sizes_are_right()
    ensures { SizesAreRight }
{}

/// While a node is open, fewer units are spent than a number that the root's box and the sizes of the blocks tell: a budget
/// of so many is never spent with a node open.
pub fn enough_is_enough()
    ensures { EnoughIsEnough }
{}

/// Each place in the history that the state keeps is that of the entry which it speaks of. What ended a post is the first entry
/// that ends it, and none ends a live one.
pub fn places_are_right()
    ensures { PlacesAreRight }
{}

/// Nothing better is lost: each feasible point that is better than the best post so far, or each where there is none, lies in
/// the box of an open node.
pub fn nothing_better_is_lost()
    ensures { NothingBetterIsLost }
{}

/// The best post, whether a node is open or not, is completed in each block and has its shape; each point of its parts is
/// feasible, and in mode Cost their value is its objective.
pub fn best_posts_are_right()
    ensures { BestPostsAreRight }
{}

/// Where no node is open, a search without a best post shows that no point is feasible, and in mode Cost each point of the
/// best post's parts is optimal.
pub fn finished_searches_are_true()
    ensures { FinishedSearchesAreTrue }
{}

/// In mode Point a best post shows that the model is unbounded.
pub fn rays_are_true()
    ensures { RaysAreTrue }
{}

/// Where no node is open there is a tree below the first one. With it, the pool's cuts and the best post's parts, the
/// certificate of the search passes and fits, whichever its verdict.
pub fn certificates_are_right()
    ensures { CertificatesAreRight }
{}

/// What a search has come to is true: its best post is optimal, or no point is feasible, or the model is unbounded, or its
/// units are spent while a node is open, with a budget that is not enough, or its last entry is a true stop at a wide number.
/// It runs exactly until it is done.
pub fn outcomes_are_true()
    ensures { OutcomesAreTrue }
{}

/// With a budget within the limit, each certificate of a search has what its verdict needs, nothing else and no wide number, and
/// few enough cuts and nodes to be written.
pub fn certificates_have_their_shape()
    ensures { CertificatesHaveTheirShape }
{}
