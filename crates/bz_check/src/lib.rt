//! The check of a certificate against a split: the tests of its shape, its point, its value, its direction, its cuts and
//! its tree in their order.
//!
//! This crate knows no text and no search.
#![tactic(auto)]

mod cut_list;
mod laws;
mod open_splits;
mod shape;
mod tree_goals;
mod tree_walk;
mod trial;
mod whole;

pub use bz_judge::CheckFault;
pub use bz_model::{Stated, stated_of};
pub use laws::{all_tests_tell, check_faults_are_unique, passing_is_true};
pub use whole::check;

#[cfg(test)]
mod tests;
#[cfg(test)]
mod tree_tests;
