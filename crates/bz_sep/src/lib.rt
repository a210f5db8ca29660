//! Separations: whether a point of the master can be completed in a block. The answer is a cut that cuts the point off,
//! or the block's part of a completion; where a number is wide, it is named where.
//!
//! This crate knows no search, no tree and no other worker.
#![tactic(auto)]

mod cuts;
mod fills;
mod outcomes;
mod separating;

pub use separating::separate;

#[cfg(test)]
mod tests;
