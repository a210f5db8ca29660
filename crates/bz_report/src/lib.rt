//! The text of a search's report: its verdict, or why it stopped, and its best point.
//!
//! This crate solves nothing and knows no file: the text comes from the search's history alone.
#![tactic(auto)]

mod laws;
mod pages;
mod places;
mod points;
mod reports;
mod stops;
mod values;

pub use laws::{best_has_values, lowest_terms_are_one, values_are_coordinates};
pub use reports::report;
