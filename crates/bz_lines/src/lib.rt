//! Texts by lines, lines by fields, and names in an order.
#![tactic(auto)]

mod cutting;
mod hashed_names;
mod names;
mod ordered_names;
mod reader;
#[cfg(test)]
mod tests;

pub use names::{Added, Names};
pub use reader::{Line, LineFault, Lines};
