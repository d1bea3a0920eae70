//! The calls that are tried, on a store of the maps of a volume of four regions.

use crate::copies::are_copies;
use crate::marks::{Marks, NO_MARKS};
use crate::piece::RowPiece;
use std::alloc::{AllocError, Global};
use vx_block::Geometry;
use vx_mapfmt::DcoShape;
use vx_maps::{MapStore, StoreFault, StoreRefused};
use vx_marks::{MarkFault, Marker};
use vx_volume::WholeMaps;

#[derive(Clone, Copy, PartialEq, Eq)]
pub enum Call {
    Create,
    Load,
    /// Region 1 is marked in maps 3 and 5.
    Mark,
    /// Region 1 is unmarked there.
    Unmark,
    /// Region 2 is marked in maps 5 and 31.
    MarkOther,
    Firm,
    /// Map 5 is cleared.
    Clear,
    /// Map 5 is set from this byte.
    Set(u8),
}

impl Call {
    /// Whether the call makes a store of copies.
    pub fn opens(&self) -> bool {
        matches!(self, Call::Create | Call::Load)
    }
}

/// How a call was answered.
#[derive(Clone, Copy, PartialEq, Eq)]
pub enum Answer {
    Done,
    Failed { copy: u8, device: u32 },
    NoCopy,
    PowerLost,
    /// As no call is here: for want of memory, or since a page is out.
    Other,
}

pub fn shape() -> Option<DcoShape> {
    let geometry = Geometry::new(256, 64)?;
    DcoShape::of(&geometry, 32)
}

/// Opens a store of the copies, by creating or loading it.
pub fn open(
    alloc: Global,
    shape: &DcoShape,
    call: Call,
    copies: Vec<Vec<RowPiece>>,
) -> Result<Result<MapStore<RowPiece>, StoreRefused<RowPiece>>, AllocError> {
    if shape.map_bytes != 8192 || !are_copies(&copies, 16) {
        return Err(AllocError);
    }
    if call == Call::Create {
        Ok(MapStore::create(alloc, *shape, copies))
    } else {
        Ok(MapStore::load(alloc, *shape, copies))
    }
}

/// The answer of a store that was refused.
pub fn refusal(fault: StoreFault) -> Answer {
    match fault {
        StoreFault::Failed { copy, device } => Answer::Failed { copy, device },
        StoreFault::NoCopy => Answer::NoCopy,
        StoreFault::PowerLost => Answer::PowerLost,
        StoreFault::OutOfMemory => Answer::Other,
    }
}

fn answer_of(answer: Result<(), MarkFault>) -> Answer {
    match answer {
        Ok(()) => Answer::Done,
        Err(MarkFault::Failed { copy, device }) => Answer::Failed { copy, device },
        Err(MarkFault::PowerLost) => Answer::PowerLost,
        Err(MarkFault::Busy) => Answer::Other,
    }
}

/// Marks a region, or takes its marks away.
fn put(store: &mut MapStore<RowPiece>, region: u64, bits: u64, on: bool) -> Answer {
    if region >= store.shape().regions || bits == 0 || bits >= 1 << 32 {
        return Answer::Other;
    }
    if on {
        answer_of(store.mark(region, bits))
    } else {
        answer_of(store.unmark(region, bits))
    }
}

/// Makes the call on a store that was opened.
pub fn make(store: &mut MapStore<RowPiece>, call: Call) -> Answer {
    match call {
        Call::Create | Call::Load => Answer::Done,
        Call::Mark => put(store, 1, 1 << 3 | 1 << 5, true),
        Call::Unmark => put(store, 1, 1 << 3 | 1 << 5, false),
        Call::MarkOther => put(store, 2, 1 << 5 | 1 << 31, true),
        Call::Firm => answer_of(store.firm()),
        Call::Clear => answer_of(store.clear(5)),
        Call::Set(byte) => answer_of(store.set_from(5, &[byte])),
    }
}

/// What the store claims: of each map the one byte that it lists.
pub fn claims(alloc: Global, store: &MapStore<RowPiece>) -> Result<Marks, AllocError> {
    let mut marks = NO_MARKS;
    for map in 0..32u32 {
        let Ok(bytes) = store.list(alloc, map) else {
            return Err(AllocError);
        };
        match bytes.as_slice() {
            [byte] => marks[map as usize] = *byte,
            _ => return Err(AllocError),
        }
    }
    Ok(marks)
}
