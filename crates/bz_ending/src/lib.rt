//! The law that each accepted answer, but for a late cut of a post that has ended, lowers a number, the work that is left.
//! So a search comes to its end.
//!
//! This crate knows neither who solves a task nor who is handed one.
#![tactic(auto)]

mod laws;

pub use laws::answers_lower;
