//! Tests of whole runs of the program over files in memory: what it prints, and the status that it ends with.
//!
//! Nothing stands on this crate. Tests stand apart from what they test, since a crate with tests is proved once more
//! with them.
#![tactic(auto)]

#[cfg(test)]
mod checks;
#[cfg(test)]
mod edges;
#[cfg(test)]
mod parts;
#[cfg(test)]
mod sizes;
#[cfg(test)]
mod verdicts;
