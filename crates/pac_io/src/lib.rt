// Files and sinks: the two traits through which everything above reads and writes the outside, what
// stands for them in memory with failures at will, and what reads real files and writes to a std
// writer. A page gathers text for a sink.
#![tactic(auto)]

mod bytes;
mod calls;
mod fault;
mod files;
mod mem_files;
mod mem_sink;
mod numeral;
mod page;
mod sink;
mod std_files;
mod std_sink;

pub use bytes::Bytes;
pub use fault::{FilesFault, SinkFault};
pub use files::Files;
pub use mem_files::MemFiles;
pub use mem_sink::MemSink;
pub use page::Page;
pub use sink::Sink;
pub use std_files::StdFiles;
pub use std_sink::StdSink;
