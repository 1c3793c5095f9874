//! Sources and sinks of bytes: each tells the bytes that it has left or holds and a count of its faults,
//! and no call over them answers a fault that the count doesn't tell.
#![tactic(auto)]

mod failed;
mod memory_sink;
mod memory_source;
mod reading;
mod schedule;
mod sink;
mod source;
mod std_sink;
mod std_source;
mod steady_source;
#[cfg(test)]
mod tests;
mod writing;

pub use failed::Failed;
pub use memory_sink::MemorySink;
pub use memory_source::MemorySource;
pub use reading::{READ_SIZE, ReadAllFault, ReadPieceFault, read_all, read_buffer, read_piece};
pub use sink::Sink;
pub use source::Source;
pub use std_sink::StdSink;
pub use std_source::StdSource;
pub use steady_source::SteadySource;
pub use writing::{WriteFault, write_all};
