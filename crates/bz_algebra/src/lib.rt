//! Whole numbers without limit: sums over sparse lists, ring laws and systems of inequalities.
//!
//! This crate has definitions and lemmas alone, which the crates above cite.
#![tactic(auto)]
