ghost use Rattle.std.specs.Prelude.{◌≡◌, ◌+◌, ◌-◌, ◌<◌, ◌≤◌, ◌++◌, ◌↔◌, [], Some, length, take, vec_len, vec_capacity, IfOk, IsErr};
ghost use Rattle.vx_flow.specs.Flow.{Gives, HasCause};

use crate::{Sink, WriteFailed};
use std::alloc::Global;
use vx_base::OutOfMemory;

/// Takes bytes into memory that it holds from the start, as far as there is room.
#[derive(Drop)]
pub struct MemSink {
    bytes: Vec<u8>,
    left: usize,
    faults: u64,
    ghost room: { vec_len bytes + left ≤ vec_capacity bytes },
}

impl MemSink {
    ghost use Rattle.vx_flow.specs.MemSink.{sink_taken, sink_left, sink_faults};

    /// An empty sink with the memory for `room` bytes.
    pub fn new(alloc: Global, room: u64) -> Result<MemSink, OutOfMemory>
        ensures empty { IfOk result (λ s. sink_taken s ≡ Some []) }
        ensures left { IfOk result (λ s. sink_left s ≡ room) }
        ensures faults { IfOk result (λ s. sink_faults s ≡ 0) }
    {
        let left = room as usize;
        Ok(MemSink {
            bytes: Vec::with_capacity(alloc, left)?,
            left,
            faults: 0,
        })
    }

    /// What it took.
    pub fn bytes(&self) -> &[u8]
        ensures { sink_taken self.now ≡ Some result.now }
    {
        self.bytes.as_slice()
    }
}

impl Sink for MemSink {
    ghost use Rattle.vx_flow.specs.MemSink.{sink_taken, sink_left, sink_faults, TakesFitting};

    ghost taken = { sink_taken };

    ghost faults = { sink_faults };

    fn write(&mut self, from: &[u8]) -> Result<(), WriteFailed>
        ensures given { Gives (sink_taken self.old) (sink_taken self.new) result from.now }
        ensures cause { HasCause (sink_faults self.old) (sink_faults self.new) result }

        // It fails exactly where it would pass its room, after the bytes that fit.
        ensures full { IsErr result ↔ (sink_left self.old < length from.now) }
        ensures fitting { TakesFitting from.now self.old self.new }
        ensures left { sink_left self.new ≡ sink_left self.old - length from.now }
    {
        let fits = from.len().min(self.left);
        append(&mut self.bytes, from, fits);
        self.left -= fits;
        if fits < from.len() {
            self.faults = self.faults.saturating_add(1);
            return Err(WriteFailed);
        }
        Ok(())
    }
}

/// Appends the first `count` bytes, for which there is room.
fn append(bytes: &mut Vec<u8>, from: &[u8], count: usize)
    requires some { count ≤ length from.now }
    requires room { vec_len bytes.old + count ≤ vec_capacity bytes.old }
    ensures items { bytes.new.items ≡ bytes.old.items ++ take count from.now }
    ensures len { vec_len bytes.new ≡ vec_len bytes.old + count }
    ensures capacity { vec_capacity bytes.old ≤ vec_capacity bytes.new }
{
    let _ = bytes.extend_from_slice(&from[..count]);
}
