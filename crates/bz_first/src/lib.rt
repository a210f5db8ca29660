//! Tests in their order, and the first that fails.
//!
//! A test is a statement with the answer that it stands for. A list of tests judges a result: it is `Ok` exactly where all
//! hold, and else it has the answer of the first that doesn't. This crate knows no model, no cut and no sum.
#![tactic(auto)]

mod each;
mod judging;

pub use each::{ItemTests, PlaceTests, judge_below, judge_each};
pub use judging::{judge, judge_equal, judge_order};
