//! The certificate of a search that has come to its end: its best point, its cuts, and its closed nodes as a tree.
#![tactic(auto)]

mod certificates;
mod trees;

pub use certificates::{certificate_of, copies, parts_of};
pub use trees::tree_of;

#[cfg(test)]
mod tests;
