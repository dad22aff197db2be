//! The world outside the program: files that are read, streams that are written, and the gate
//! that workers pass.
#![tactic(auto)]

mod edge;
mod lists;
mod memory_shelf;
mod memory_sink;
mod outside;
mod whole;

pub use edge::{FileShelf, OpenGate, StreamSink};
pub use lists::{CallList, NamedFile, NamedFileList};
pub use memory_shelf::MemoryShelf;
pub use memory_sink::MemorySink;
pub use outside::{Failed, Gate, Shelf, Sink};
pub use whole::{PutFault, TakeFault, read_whole, write_whole};
