//! The outside of the program: where files come from, where text goes, and who may watch a node's turns.
//!
//! It gives upward: an answer has its cause, since files and sinks count their faults, and a fault comes
//! only where the count rose. Bytes are told where they can be, as in memory, and left untold at the
//! edge of the system. It knows nothing of the railway but the numbers of nodes and words.
#![tactic(auto)]

pub mod dir_files;
mod failed;
pub mod files;
pub mod gate;
pub mod mem_files;
pub mod mem_sink;
pub mod sink;
pub mod std_sink;

pub use dir_files::DirFiles;
pub use files::{Fetch, Files};
pub use gate::{Gate, OpenGate};
pub use mem_files::MemFiles;
pub use mem_sink::MemSink;
pub use sink::{Sink, SinkFault, put_all};
pub use std_sink::{StdSink, WriterSink};

#[cfg(test)]
mod tests;
