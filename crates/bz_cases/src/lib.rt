//! Tasks from plain lists: splits that are read from texts, and points, boxes and cuts that are tested to fit them. And
//! worked examples of whole tasks, what `separate`, `floor` and `solve_node` come to: they stand in tables, and worked.py
//! beside src/ works each answer out from the tables' own texts.
//!
//! Only tests and measurements stand on this crate.
#![tactic(auto)]

mod reading;
mod tasks;

pub use reading::read_split;
pub use tasks::{Misfit, are_cuts_of, is_ready, master, region};

#[cfg(test)]
mod cut_rows;
#[cfg(test)]
mod floors;
#[cfg(test)]
mod nodes;
#[cfg(test)]
mod separations;
#[cfg(test)]
mod texts;
#[cfg(test)]
mod wanted;
