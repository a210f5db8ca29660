//! Cuts of the master, and what it is for one to be valid.
//!
//! This crate knows no text and no search.
#![tactic(auto)]

mod cuts;
mod faults;
mod judging;
mod laws;
mod lists;
mod mode;
mod points;
mod records;
mod sharing;
mod sums;

pub use bz_model::Terms;
pub use cuts::{fits_and_valid, judge_cut};
pub use faults::CutFault;
pub use judging::{
    judge_at_most, judge_equation, judge_fold, judge_opposite, judge_product, judge_sum,
};
pub use laws::{cut_faults_are_unique, cut_tests_tell};
pub use lists::are_multipliers;
pub use mode::Mode;
pub use points::{cuts_off, same};
pub use records::Cut;
pub use sums::{column_sum, position_sum, rhs_sum};

#[cfg(test)]
mod tests;
