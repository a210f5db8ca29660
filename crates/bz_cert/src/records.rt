//! The records of a certificate.
use bz_cut::Cut;
use bz_model::Parts;
use bz_num::Items;
use bz_tree::TreeNode;

/// What a certificate says of a model.
#[derive(Clone, Copy, Debug, PartialEq, Eq)]
pub enum Verdict {
    /// Its parts are a point, and no feasible point is better.
    Optimal,
    /// No point is feasible.
    Infeasible,
    /// For each number some feasible point is better.
    Unbounded,
}

/// A certificate: what it says, and what shows it. What its verdict has no use for is `None`, empty or 0.
#[derive(Drop)]
pub struct Certificate {
    /// What it says.
    pub verdict: Verdict,
    /// A point, part by part, where the verdict is not that there is none. The etas are empty where it is unbounded.
    pub parts: Option<Parts>,
    /// The inner cost of an optimal point, over the master's denominator.
    pub value: i128,
    /// The direction along which the objective improves without end: one number per column of an unbounded model.
    pub ray: Items<i128>,
    /// The cuts that the multipliers of the tree's leaves speak of.
    pub cuts: Items<Cut>,
    /// The nodes of the tree, a split before its two sides and the left side before the right.
    pub tree: Items<TreeNode>,
}
