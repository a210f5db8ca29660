//! The tasks of a search and their answers, each with what its maker promises of it over the program that it carries, and
//! the events of a search's history.
//!
//! A search takes an answer by its promise alone. This crate knows neither who solves a task nor the search.
#![tactic(auto)]

mod answers;
mod carrying;
mod events;
mod laws;
mod tasks;

pub use answers::{FloorAnswer, NodeAnswer, SepAnswer, Solved, TaskStop};
pub use carrying::carry;
pub use events::{Entry, Event, How, Stamp, Why};
pub use laws::rays_fall_in_the_model;
pub use tasks::{NodeTask, SepTask, TaskName};
