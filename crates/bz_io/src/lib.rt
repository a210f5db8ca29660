//! Desks that load and save whole files, and sinks that take bytes: the traits, two fakes in memory, and the
//! machine's own files and standard output.
#![tactic(auto)]

mod desk;
mod faults;
mod host_desk;
mod host_sink;
mod mem_desk;
mod mem_sink;
mod reading;
mod retrying;
mod sink;
mod source;

pub use desk::{Desk, LoadError, SaveError};
pub use faults::FaultCount;
pub use host_desk::HostDesk;
pub use host_sink::HostSink;
pub use mem_desk::MemDesk;
pub use mem_sink::MemSink;
pub use sink::{PutFailed, Sink, put_all};

#[cfg(test)]
mod tests;
