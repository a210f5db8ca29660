//! The answers of linear programs and of their bases.
#![tactic(auto)]

mod answering;
mod entering;
mod laws;
mod least;
mod leaving;
mod multiples;
mod order;
mod phase;
mod ray;
mod relaxing;
mod signs;
mod solving;
mod towards;
mod unrelaxing;
mod values;

pub use answering::answer_at;
pub use laws::signs_are_those_of_answers;
pub use solving::{relax, solve};
