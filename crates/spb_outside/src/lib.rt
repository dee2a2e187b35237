//! Where a program's input comes from and its output goes: a source of bytes and a sink of bytes.
//!
//! Standard input and output are the two edges of which nothing is proved but the count of their faults. A source
//! and a sink in memory tell all their bytes, and fail at the calls that they are told to fail at.
//! A call takes time in proportion to the bytes that it moves and to the list of failing calls, and `write` of the
//! sink in memory alone takes memory.
#![tactic(auto)]

pub use memory_sink::MemorySink;
pub use memory_source::MemorySource;
pub use sink::{Sink, WriteError};
pub use source::{Failed, Source};
pub use standard::{StdSink, StdSource};

mod memory_sink;
mod memory_source;
mod plan;
mod sink;
mod source;
mod standard;
