//! Rows of calls of sources and sinks.

use std::io;
use vx_flow::{MemSink, MemSource, ReaderSource, Sink, Source, WriterSink};

pub fn rows(rt: &HostRuntime) -> io::Result<()> {
    let bytes = vec![in rt.alloc(); 1, 2, 3]?;
    let mut source = MemSource::new(bytes, Some(2));
    read(rt, "source that fails after 2 bytes", &mut source)?;
    read(rt, "source that fails after 2 bytes", &mut source)?;
    let Ok(mut sink) = MemSink::new(rt.alloc(), 3) else {
        return println!(rt; "no memory");
    };
    write(rt, "sink for 3 bytes", &mut sink, b"ab")?;
    write(rt, "sink for 3 bytes", &mut sink, b"cd")?;
    println!(rt; "it took abc: {}", sink.bytes() == b"abc".as_slice())?;
    let text: &[u8] = b"abc";
    let mut source = ReaderSource::new(text);
    read(rt, "reader of 3 bytes", &mut source)?;
    read(rt, "reader of 3 bytes", &mut source)?;
    let mut sink = WriterSink::new(Vec::new(rt.alloc()));
    write(rt, "writer", &mut sink, b"abc")
}

/// Reads 8 bytes at most.
fn read(rt: &HostRuntime, what: &str, source: &mut impl Source) -> io::Result<()> {
    let mut into = [0; 8];
    match source.read(&mut into) {
        Ok(count) => println!(rt;
            "{what}: {count} bytes, {} {} {}",
            into[0], into[1], into[2]
        ),
        Err(_) => println!(rt; "{what}: failed"),
    }
}

fn write(rt: &HostRuntime, what: &str, sink: &mut impl Sink, from: &[u8]) -> io::Result<()> {
    match sink.write(from) {
        Ok(()) => println!(rt; "{what}: {} bytes", from.len()),
        Err(_) => println!(rt; "{what}: failed"),
    }
}
