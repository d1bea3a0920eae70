ghost use Rattle.std.specs.Prelude.{None};

use crate::{Sink, WriteFailed};
use std::io::{self, Write};

/// A writer of std as a sink. It tells none of its bytes. Where a write is `Ok` the writer has handed all of them on.
#[derive(Drop)]
pub struct WriterSink<W> {
    inner: W,
    faults: u64,
}

impl<W: Write> WriterSink<W> {
    pub fn new(inner: W) -> WriterSink<W> {
        WriterSink { inner, faults: 0 }
    }
}

impl<W: Write> Sink for WriterSink<W> {
    ghost taken = { λ _. None };

    ghost faults = { λ s. s.faults };

    fn write(&mut self, from: &[u8]) -> Result<(), WriteFailed> {
        match hand_on(&mut self.inner, from) {
            Ok(()) => Ok(()),
            Err(_) => {
                self.faults = self.faults.saturating_add(1);
                Err(WriteFailed)
            }
        }
    }
}

/// Writes all the bytes, and has the writer hand on what it keeps. A writer that takes nothing of some bytes fails.
fn hand_on<W: Write>(inner: &mut W, from: &[u8]) -> io::Result<()> {
    inner.write_all(from)?;
    inner.flush()
}
