//! A source of bytes and a sink for bytes, which count their faults: the traits, bodies over memory, and adapters for
//! std's readers and writers.
#![tactic(auto)]

mod flow;
mod mem_sink;
mod mem_source;
mod reader_source;
mod writer_sink;

pub use flow::{ReadFailed, Sink, Source, WriteFailed};
pub use mem_sink::MemSink;
pub use mem_source::MemSource;
pub use reader_source::ReaderSource;
pub use writer_sink::WriterSink;
