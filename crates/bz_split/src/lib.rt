//! The split of a model by a partition of its columns, why there may be none, and how many rows each part has.
#![tactic(auto)]

mod columns;
mod counts;
mod faults;
mod laws;
mod rows;
mod sizes;
mod splitting;
#[cfg(test)]
mod tests;
mod unsplit;

pub use counts::rows_by_part;
pub use faults::SplitFault;
pub use laws::split_faults_are_unique;
pub use splitting::split;
pub use unsplit::Unsplit;
