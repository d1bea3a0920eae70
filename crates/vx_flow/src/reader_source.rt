ghost use Rattle.std.specs.Prelude.{None};
ghost use Rattle.std.specs.Io.{ReadsAtMost};

use crate::{ReadFailed, Source};
use std::io::{self, ErrorKind, Read};

/// A reader of std as a source. It tells none of its bytes.
#[derive(Drop)]
pub struct ReaderSource<R> {
    inner: R,
    passed: u64,
    faults: u64,
}

impl<R: Read> ReaderSource<R> {
    pub fn new(inner: R) -> ReaderSource<R> {
        ReaderSource {
            inner,
            passed: 0,
            faults: 0,
        }
    }
}

impl<R: Read> Source for ReaderSource<R> {
    ghost left = { λ _. None };

    ghost passed = { λ s. s.passed };

    ghost faults = { λ s. s.faults };

    fn read(&mut self, into: &mut [u8]) -> Result<usize, ReadFailed> {
        let passed = self.passed;
        match read_again(&mut self.inner, into) {
            Ok(count) => {
                self.passed = passed.saturating_add(count as u64);
                Ok(count)
            }
            Err(_) => {
                self.faults = self.faults.saturating_add(1);
                Err(ReadFailed)
            }
        }
    }
}

/// Reads once more each time that a signal interrupts the call.
fn read_again<R: Read>(inner: &mut R, into: &mut [u8]) -> io::Result<usize>
    ensures { ReadsAtMost result into.new }
{
    for _ in 0..u64::MAX {
        match inner.read(into) {
            Err(e) if e.kind() == ErrorKind::Interrupted => {}
            result => return result,
        }
    }
    Err(io::Error::from(ErrorKind::Interrupted))
}
