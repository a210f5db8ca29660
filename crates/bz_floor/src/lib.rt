//! Floors: whether the cost of a block falls without end along a direction that none of its inequalities forbids, or
//! has a least value along each direction, which a cut of the master states. Where a number is wide, it is named where.
//!
//! This crate knows no search, no tree and no other worker.
#![tactic(auto)]

mod directions;
mod flooring;
mod outcomes;
mod placing;

pub use flooring::floor;
pub use placing::placed;

#[cfg(test)]
mod tests;
