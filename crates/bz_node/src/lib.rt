//! Nodes: what the master costs at least in a box, as far as the cuts tell. The answer is that no point meets the node,
//! a least point that isn't whole on an integer column, or one that is; in mode Cost with the leaf that bounds the cost,
//! which holds with no sum wide. Where a number is wide, it is named where.
//!
//! This crate knows no search, no block and no other node.
#![tactic(auto)]

mod fractional;
mod least;
mod leaves;
mod points;
mod programs;
mod solving;
mod sums;

pub use solving::solve_node;

#[cfg(test)]
mod tests;
