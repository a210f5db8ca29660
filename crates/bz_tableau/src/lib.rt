//! Linear programs in whole numbers, and the exact tableaus of their bases.
//!
//! What is told of them is defined here too: what a program comes to and which basis shows it (`specs/Answers.antt`),
//! what that says of all points (`specs/Truths.antt`), and where numbers go wide, at a pivot (`specs/Stops.antt`) or in
//! an answer (`specs/WidePlaces.antt`). `bz_lex` finds them.
#![tactic(auto)]

mod answers;
mod first;
mod laws;
mod line;
mod merging;
mod next;
mod programs;
mod reducing;
mod sharing;
mod steps;
mod tableau;

pub use answers::{Answer, LpStop, Vals, WideAt};
pub use laws::{
    answers_are_given, answers_are_true, bases_are_few, objective_rows_are_unique,
    right_sides_change_no_basis, rows_are_unique, tableau_has_rows_of_basis,
};
pub use programs::{Lp, LpRow};
pub use tableau::Tableau;

#[cfg(test)]
mod tests;
