//! The tests of a point, a cost, a value, a direction and a leaf, each sum with its wide place: whatever states one of them
//! has them judged here. Each function answers the first of its tests that fails.
//!
//! This crate knows no certificate, no text and no search.
#![tactic(auto)]

mod costs;
mod faults;
mod integers;
mod laws;
mod leaf_check;
mod leaf_sums;
mod numbers;
mod points;
mod ray;
mod value;

pub use costs::{judge_cost, judge_costs};
pub use faults::{
    BLOCK_DENOMINATOR, BLOCK_SUMS, COST_SUMS, CUT_SUMS, CheckFault, LEAF_SUMS, MASTER_SUMS,
    RAY_SUMS, STATED_NUMBERS, VALUE_SUM, wide_in,
};
pub use integers::judge_integers;
pub use laws::tests_tell;
pub use leaf_check::judge_leaf;
pub use points::{judge_block, judge_blocks, judge_master_rows, judge_point};
pub use ray::{judge_ray, judge_ray_rows};
pub use value::{judge_value, value_sum};
