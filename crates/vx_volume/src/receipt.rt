ghost use Rattle.std.specs.Prelude.{◌≡◌, ◌<◌, ◌≤◌, IfOk};
ghost use Rattle.vx_volume.specs.Receipts.{IsReserved};

use std::alloc::Global;
use vx_base::{BLOCK, OutOfMemory};
use vx_life::{EntryKind, Part};

/// What a call on a volume has come to: how it ended, a part for each region that was begun, in order, and the blocks that
/// were read or written.
#[derive(Drop)]
pub struct Receipt {
    pub kind: EntryKind,
    /// The first block of the call, as the volume counts its blocks, and how many there are.
    pub start: u64,
    pub count: u64,
    pub parts: Vec<Part>,
    pub blocks: Vec<u8>,
}

impl Receipt {
    /// Takes all the memory that a call on so many blocks needs.
    pub fn reserve(alloc: Global, count: u64) -> Result<Receipt, OutOfMemory>
        requires some { 0 < count }
        requires few { count ≤ 2048 }
        ensures { IfOk result (λ receipt. IsReserved count receipt) }
    {
        let parts = Vec::with_capacity(alloc, (count / 32 + 2) as usize)?;
        let blocks = vec![in alloc; 0u8; BLOCK * count as usize]?;
        Ok(Receipt {
            kind: EntryKind::Missed,
            start: 0,
            count,
            parts,
            blocks,
        })
    }
}
