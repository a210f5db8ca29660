//! Texts of numbers, fractions and lines, put into a sink piece by piece. None of it takes memory, and none knows what
//! the numbers are of.
#![tactic(auto)]

mod lines;
mod pieces;

pub use lines::{put_fraction, put_line, put_numbered, put_numbered_twice};
pub use pieces::{Piece, put_pieces};

#[cfg(test)]
mod tests;
