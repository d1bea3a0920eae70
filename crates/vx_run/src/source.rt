//! Reads a source to its end.
ghost use Rattle.std.specs.Prelude.{◌≡◌, ◌+◌, ◌-◌, ◌<◌, ◌≤◌, IfOk, IsErrOf, OnOk, vec_len};
ghost use Rattle.vx_base.specs.Counts.{Rose, later_count};
ghost use Rattle.vx_run.specs.Top.{IsReadToItsEnd, HasPassedMore, HasPassedFew, longest};
ghost use Rattle.vx_run.specs.Source.{HasTaken};

use std::alloc::Global;
use vx_flow::Source;

/// The most bytes of a script.
const LONGEST: usize = 16_777_216;

/// How many bytes are asked for at a time.
const CHUNK: usize = 65_536;

/// Why a source was not read to its end.
#[derive(Clone, Copy, Debug, PartialEq, Eq)]
pub enum Unread {
    OutOfMemory,
    /// The source failed, and its count of faults rose.
    Failed,
    /// More bytes came than a script may have.
    TooLong,
}

/// All the bytes that a source has left.
pub fn read_all<A: Source>(alloc: Global, source: &mut A) -> Result<Vec<u8>, Unread>
    ensures all { IfOk result (λ all. IsReadToItsEnd (A.left source.old) (A.left source.new) all.items) }
    ensures few { IfOk result (λ all. vec_len all ≤ longest) }
    ensures failed { IsErrOf result Unread.Failed → Rose (A.faults source.old) (A.faults source.new) }
    ensures too_long { IsErrOf result Unread.TooLong → HasPassedMore (A.passed source.old) (A.passed source.new) }
    ensures not_too_long { IfOk result (λ _. HasPassedFew (A.passed source.old) (A.passed source.new)) }
    ensures not_too_long_failed { IsErrOf result Unread.Failed → HasPassedFew (A.passed source.old) (A.passed source.new) }
    ensures not_too_long_refused { IsErrOf result Unread.OutOfMemory → HasPassedFew (A.passed source.old) (A.passed source.new) }
    ensures one_past { A.passed source.new ≤ A.passed source.old + (longest + 1) }
    ensures later { A.faults source.old ≤ A.faults source.new }
    ensures quiet { OnOk result (A.faults source.new ≡ A.faults source.old) }
    ensures quiet_refused { IsErrOf result Unread.OutOfMemory → A.faults source.new ≡ A.faults source.old }
    ensures quiet_long { IsErrOf result Unread.TooLong → A.faults source.new ≡ A.faults source.old }
{
    let mut all = Vec::new(alloc);
    let Ok(mut buffer) = new_buffer(alloc) else {
        return Err(Unread::OutOfMemory);
    };
    'reads: loop {
        let room = LONGEST + 1 - all.len();
        if room < buffer.len() {
            buffer.truncate(room);
        }
        match read_some(source, &mut all, &mut buffer) {
            Ok(0) => return Ok(all),
            Ok(_) => {}
            Err(unread) => return Err(unread),
        }
    }
}

fn new_buffer(alloc: Global) -> Result<Vec<u8>, Unread>
    ensures { IfOk result (λ buffer. vec_len buffer ≡ CHUNK) }
{
    match vec![in alloc; 0u8; CHUNK] {
        Ok(buffer) => Ok(buffer),
        Err(_) => Err(Unread::OutOfMemory),
    }
}

/// Reads some bytes behind those that were read before.
fn read_some<A: Source>(
    source: &mut A,
    all: &mut Vec<u8>,
    buffer: &mut Vec<u8>,
) -> Result<usize, Unread>
    requires some { 0 < vec_len buffer.old }
    requires few { vec_len all.old ≤ longest }
    requires room { vec_len all.old + vec_len buffer.old ≤ longest + 1 }
    ensures len { vec_len buffer.new ≡ vec_len buffer.old }
    ensures taken { IfOk result (λ n. HasTaken (A.left source.old) (A.left source.new) all.old.items all.new.items n) }
    ensures few { IfOk result (λ _. vec_len all.new ≤ longest) }
    ensures passed { IfOk result (λ n. A.passed source.new ≡ later_count (A.passed source.old) n) }
    ensures failed { IsErrOf result Unread.Failed → Rose (A.faults source.old) (A.faults source.new) × (A.passed source.new ≤ A.passed source.old) }
    ensures too_long { IsErrOf result Unread.TooLong → later_count (A.passed source.old) (longest + 1 - vec_len all.old) ≤ A.passed source.new }
    ensures refused { IsErrOf result Unread.OutOfMemory → A.passed source.new ≤ A.passed source.old + (longest - vec_len all.old) }
    ensures most { A.passed source.new ≤ A.passed source.old + vec_len buffer.old }
    ensures later { A.faults source.old ≤ A.faults source.new }
    ensures quiet { OnOk result (A.faults source.new ≡ A.faults source.old) }
    ensures quiet_refused { IsErrOf result Unread.OutOfMemory → A.faults source.new ≡ A.faults source.old }
    ensures quiet_long { IsErrOf result Unread.TooLong → A.faults source.new ≡ A.faults source.old }
{
    match source.read(buffer) {
        Err(_) => Err(Unread::Failed),
        Ok(count) => {
            if all.len() + count > LONGEST {
                return Err(Unread::TooLong);
            }
            match all.extend_from_slice(&buffer[..count]) {
                Ok(()) => Ok(count),
                Err(_) => Err(Unread::OutOfMemory),
            }
        }
    }
}
