//! The pool of a search: its cuts in the order in which they came, no two the same.
//!
//! A cut's number is its place, which never changes. This crate knows no search.
#![tactic(auto)]

mod cuts;

pub use cuts::Pool;

#[cfg(test)]
mod tests;
