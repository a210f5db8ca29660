//! Tests of programs: how they are built of a split, a node, a separation and a floor, and what they are solved to.
//!
//! Nothing stands on this crate. Tests stand apart from what they test, since a crate with tests is proved once more
//! with them.
#![tactic(auto)]

#[cfg(test)]
mod building;
#[cfg(test)]
mod degenerate;
#[cfg(test)]
mod solving;
