//! A program's answer to its words: how a command may end, its status and its line, and what an ending says of the files
//! and of the sinks. Each command stands on it. Besides, the shelves and sinks that a program runs over, the file system
//! and the streams, and those in memory, which tests and callers without files run over; and what it takes from the system
//! and gives it back, its words and its exit status.
#![tactic(auto)]

mod adapters;
mod asked_names;
mod failure;
mod gathered;
mod memory_shelf;
mod memory_sink;
mod put_log;
mod sure;
mod system;
mod watched;

pub use adapters::{DiskShelf, StreamSink};
pub use failure::Failure;
pub use gathered::Gathered;
pub use memory_shelf::MemoryShelf;
pub use memory_sink::MemorySink;
pub use sure::{SureShelf, SureSink};
pub use system::{exit_code, request_words};
