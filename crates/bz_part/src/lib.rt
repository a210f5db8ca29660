//! Partitions from their texts.
#![tactic(auto)]

mod faults;
mod laws;
mod numbers;
mod part_text;
#[cfg(test)]
mod tests;

pub use faults::{PartFault, PartKind, PartStop};
pub use laws::text_has_one_reading;
pub use part_text::read_part;
