//! Streams of bytes that may fail: what a program reads and what it writes. A source and a sink count their faults,
//! so that a call over one of them can't answer a fault that the stream did not have. There are fakes in memory for
//! tests, and adapters over any reader and writer of the standard library.
#![tactic(auto)]

mod input;
mod mem_sink;
mod mem_source;
mod output;
mod reader;
mod sink;
mod source;
mod writer;

pub use input::{Input, LIMIT, read_input};
pub use mem_sink::MemSink;
pub use mem_source::MemSource;
pub use output::write_all;
pub use reader::ReadSource;
pub use sink::{Sink, SinkError};
pub use source::{Source, SourceError};
pub use writer::WriteSink;
