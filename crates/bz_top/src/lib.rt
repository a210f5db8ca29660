//! The top call.
#![tactic(auto)]

mod check;
mod job;
mod loading;
mod parting;
mod print;
mod put_parts;
mod running;
mod said;
mod status;
mod words;

pub use job::{FileName, Job};
pub use running::{do_alone, run};
pub use status::Status;
