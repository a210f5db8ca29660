//! The facts that the lines of a model's text state, and the faults of lines.
#![tactic(auto)]

mod bound_lines;
mod column_lines;
mod faults;
mod given_lines;
mod headers;
mod laws;
mod pairs;
mod reading;
mod records;
mod refusals;
mod row_lines;
mod sense_lines;
mod spelled;
mod tables;
#[cfg(test)]
mod tests;
mod words;

pub use faults::{MpsFault, MpsKind, MpsStop};
pub use laws::{facts_are_sound, fields_spell_one_number, text_has_facts_or_one_fault};
pub use reading::read_facts;
pub use records::{BoundLine, BoundType, Entry, Facts, Given, Heading, RowType};
