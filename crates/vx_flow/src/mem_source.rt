ghost use Rattle.std.specs.Prelude.{◌≡◌, ◌+◌, ◌<◌, ◌≤◌, ◌++◌, ◌↔◌, [], Some, length, drop, take, vec_len, IfOk, IfSome, IsErr, IsNone, Option, ℕ};
ghost use Rattle.vx_base.specs.Counts.{later_count};
ghost use Rattle.vx_flow.specs.Flow.{Takes, HasCause, count_of};
ghost use Rattle.vx_flow.specs.Limit.{IsPast, StaysBelow};

use crate::{ReadFailed, Source};

/// Bytes in memory, whose reads fail once some number of bytes have passed.
#[derive(Drop)]
pub struct MemSource {
    bytes: Vec<u8>,
    at: usize,
    fail_at: Option<u64>,
    faults: u64,
    ghost within: { at ≤ vec_len bytes },
}

impl MemSource {
    ghost use Rattle.vx_flow.specs.MemSource.{source_left, source_passed, source_faults, source_limit};

    /// A source of these bytes. With `fail_at` each read fails once so many bytes have passed.
    pub fn new(bytes: Vec<u8>, fail_at: Option<u64>) -> MemSource
        ensures left { source_left result ≡ Some bytes.items }
        ensures passed { source_passed result ≡ 0 }
        ensures faults { source_faults result ≡ 0 }
        ensures limit { source_limit result ≡ fail_at }
    {
        MemSource {
            bytes,
            at: 0,
            fail_at,
            faults: 0,
        }
    }
}

impl Source for MemSource {
    ghost use Rattle.vx_flow.specs.MemSource.{source_left, source_passed, source_faults, source_limit};

    ghost left = { source_left };

    ghost passed = { source_passed };

    ghost faults = { source_faults };

    fn read(&mut self, into: &mut [u8]) -> Result<usize, ReadFailed>
        ensures within { IfOk result (λ n. n ≤ length into.new) }
        ensures taken { Takes (source_left self.old) (source_left self.new) result into.new }
        ensures counted { source_passed self.new ≡ later_count (source_passed self.old) (count_of result) }
        ensures cause { HasCause (source_faults self.old) (source_faults self.new) result }

        // It fails exactly where so many bytes have passed, and no read goes past that byte.
        ensures fails { IsErr result ↔ IsPast (source_limit self.old) (source_passed self.old) }
        ensures below { StaysBelow (source_limit self.old) (source_passed self.old) (source_passed self.new) }
        ensures limit { source_limit self.new ≡ source_limit self.old }
    {
        let Some(room) = room_before(self.fail_at, self.at, into.len()) else {
            self.faults = self.faults.saturating_add(1);
            return Err(ReadFailed);
        };
        let count = copy_front(&self.bytes, self.at, room, into);
        self.at += count;
        Ok(count)
    }
}

/// How many of so many bytes may pass, where any may.
fn room_before(fail_at: Option<u64>, at: usize, wanted: usize) -> Option<usize>
    ensures none { IsNone result ↔ IsPast fail_at at }
    ensures few { IfSome result (λ n. n ≤ wanted) }
    ensures some { IfSome result (λ n. n ≡ 0 → wanted ≡ 0) }
    ensures below { IfSome result (λ n. StaysBelow fail_at at (at + n)) }
{
    match fail_at {
        None => Some(wanted),
        Some(limit) if limit <= at as u64 => None,
        Some(limit) => Some((limit - at as u64).min(wanted as u64) as usize),
    }
}

/// Copies what follows `at` to the front of `into`, `room` bytes at most.
fn copy_front(bytes: &[u8], at: usize, room: usize, into: &mut [u8]) -> usize
    requires start { at ≤ length bytes.now }
    requires room { room ≤ length into.old }
    ensures within { result ≤ room }
    ensures copied { drop at bytes.now ≡ take result into.new ++ drop (at + result) bytes.now }
    ensures ends { result ≡ 0 → 0 < room → drop at bytes.now ≡ [] }
    ensures fits { at + result ≤ length bytes.now }
{
    let count = (bytes.len() - at).min(room);
    into[..count].copy_from_slice(&bytes[at..at + count]);
    count
}
