//! Farkas' lemma over whole numbers, as a law: a cost falls along a direction that no row forbids, or rows balance it.
//!
//! This crate knows no model, no basis and no simplex.
#![tactic(auto)]

mod laws;

pub use laws::{exactly_one_end, sparse_exactly_one_end};
