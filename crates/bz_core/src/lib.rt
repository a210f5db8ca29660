//! The search: its history, and the tasks that it hands out.
//!
//! The state of a search is what its history makes of the region that it began with. This crate knows neither who solves a
//! task nor how many workers there are.
#![tactic(auto)]

mod answering;
mod appending;
mod certificates;
mod choices;
mod completing;
mod copies;
mod entering;
mod entering_nodes;
mod giving_floors;
mod giving_nodes;
mod giving_separations;
mod giving_stops;
mod handing;
mod handouts;
mod laws;
mod outcomes;
mod planning_nodes;
mod planning_separations;
mod reading;
mod reporting;
mod roles;
mod searches;
mod stops;

pub use answering::Taken;
pub use laws::tasks_are_there;
pub use roles::{Next, Role};
pub use searches::Search;
