//! The state of a search: what its events have made of it so far.
//!
//! Each event has a method that has its effect, in room that is made before; what may follow a state, this crate doesn't ask.
#![tactic(auto)]

mod effects;
mod lists;
mod states;

pub use states::Progress;
