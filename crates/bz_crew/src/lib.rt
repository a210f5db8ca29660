//! Workers of a search. One alone does all tasks that the search hands out, until there is none.
//!
//! This crate knows neither what a task's answer makes of a search nor how a task is solved.
#![tactic(auto)]

mod alone;
mod giving;
mod solving;
mod turning;

pub use alone::{Ended, run_one};
pub use solving::{solve_next_floor, solve_next_node, solve_next_separation};
