//! The boxes and the trees of branch and bound, what it is for a tree to hold over a box, and what parts, cuts and a tree
//! are to show for a verdict.
//!
//! This crate knows no text and no search.
#![tactic(auto)]

mod boxes;
mod integer_columns;
mod laws;
mod leaf_sides;
mod records;
mod rounding;
mod sharing;

pub use boxes::{root_box, split_box};
pub use integer_columns::{integer_column, integer_positions};
pub use laws::{leaves_keep, nodes_are_of_one_tree, splits_cover};
pub use leaf_sides::{Side, Sides};
pub use records::{Leaf, NodeBox, TreeNode};

#[cfg(test)]
mod tests;
