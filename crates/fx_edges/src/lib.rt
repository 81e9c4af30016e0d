//! The byte ends of a program: where bytes come from and where they go, with counts of the faults that reading and writing
//! met, and output in pieces: what is written is gathered, and handed to a sink once it is a piece of 64 KiB at least.
//!
//! A fault comes only where the end's own count rose, so code that is generic over `Source` or `Sink` can hand a fault on, and
//! can't make one up.
#![tactic(auto)]

mod memory_sink;
mod memory_source;
mod pieces;
mod sink;
mod source;
mod std_sink;
mod std_source;
mod steady_sink;
mod steady_source;

pub use memory_sink::MemorySink;
pub use memory_source::MemorySource;
pub use pieces::Pieces;
pub use sink::{Sink, SinkFault, write_all};
pub use source::{ReadFailed, Source};
pub use std_sink::StdSink;
pub use std_source::StdSource;
pub use steady_sink::SteadySink;
pub use steady_source::SteadySource;
