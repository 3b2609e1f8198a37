//! Sources and sinks of bytes that count their faults, and the reading and writing of a whole.
//!
//! A program over `Source` and `Sink` can be run over the real ones, of which nothing is known but their faults, and over those in
//! memory, of which every byte is known. So its contract says what it reads and writes, and when it may answer that this failed.
#![tactic(auto)]

mod listed;
pub mod mem_sink;
pub mod mem_source;
pub mod memory;
pub mod real;
pub mod sink;
pub mod source;
pub mod sure;
#[cfg(test)]
mod tests;
pub mod text;
pub mod whole;

pub use mem_sink::MemSink;
pub use mem_source::MemSource;
pub use memory::NoMemory;
pub use real::{RealSink, RealSource};
pub use sink::{Flushed, Put, Sink};
pub use source::{Got, Source};
pub use sure::{SureSink, SureSource};
pub use text::Text;
pub use whole::{ReadEnd, WriteFault, read_whole, write_all};
