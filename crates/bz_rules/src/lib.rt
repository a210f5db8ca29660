//! By what an answer to a task of a search is refused, what an accepted one appends to the history, and the laws that each of
//! these events may follow.
//!
//! This crate changes no state, and knows neither who solves a task nor who is handed one.
#![tactic(auto)]

mod answers;
mod deciding;
mod floors;
mod laws;
mod nodes;
mod refused;
mod separations;

pub use answers::{judge_separation, judge_stop};
pub use deciding::{is_better, is_last_block, is_spent, known_cut, reaches_best};
pub use floors::judge_floor;
pub use laws::{
    entries_are_few, floors_follow, histories_go_on, nodes_follow, separations_follow, states_fit,
    stops_follow,
};
pub use nodes::{box_of, judge_node};
pub use refused::Refused;
