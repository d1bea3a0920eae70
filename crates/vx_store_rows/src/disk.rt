//! The copies of a log on disks: what a store is made of, and what is read back by the format alone.

ghost use Rattle.std.specs.Prelude.{◌≡◌, true, map};
ghost use Rattle.vx_maps.specs.Copies.{AreCopies, IsCopy};
ghost use Rattle.vx_maps.specs.Spares.{copies_seen};

use crate::region::REGION;
use std::alloc::Global;
use vx_block::Geometry;
use vx_mapfmt::DcoShape;
use vx_maps::{MapStore, StoreRefused};
use vx_marks::Marker;
use vx_piece::Piece;

/// The sectors of a plex with the maps.
pub const SECTORS: usize = 560;

/// A volume of four regions.
fn shape() -> Option<DcoShape> {
    let geometry = Geometry::new(128, 32)?;
    DcoShape::of(&geometry, 32)
}

/// Whether one piece is a copy of slots of 16 sectors.
fn is_copy<P: Piece>(pieces: &Vec<P>) -> bool
    ensures { result ≡ true → IsCopy 16 (map P.seen pieces.now.items) }
{
    match pieces.as_slice() {
        [piece] => piece.sectors() >= 35 * 16,
        _ => false,
    }
}

/// Whether these are one copy or two.
fn are_copies<P: Piece>(copies: &Vec<Vec<P>>) -> bool
    ensures { result ≡ true → AreCopies 16 (copies_seen P.seen copies.now.items) }
{
    match copies.as_slice() {
        [first] => is_copy(first),
        [first, second] => is_copy(first) && is_copy(second),
        _ => false,
    }
}

/// The store of new copies, of which the region has these marks.
pub fn create<P: Piece + Drop>(
    alloc: Global,
    copies: Vec<Vec<P>>,
    bits: u64,
) -> Option<MapStore<P>> {
    let shape = shape()?;
    if shape.map_bytes != 8192 || !are_copies(&copies) {
        return None;
    }
    let Ok(mut store) = MapStore::create(alloc, shape, copies) else {
        return None;
    };
    if bits != 0 && !mark(&mut store, bits) {
        return None;
    }
    Some(store)
}

/// Marks the region. Whether that was done.
fn mark<P: Piece + Drop>(store: &mut MapStore<P>, bits: u64) -> bool {
    if store.shape().regions <= REGION || bits == 0 || bits >= 1 << 32 {
        return false;
    }
    store.mark(REGION, bits).is_ok()
}

/// The store that is loaded from these copies, or why there is none.
pub fn load<P: Piece + Drop>(
    alloc: Global,
    copies: Vec<Vec<P>>,
) -> Option<Result<MapStore<P>, StoreRefused<P>>> {
    let shape = shape()?;
    if shape.map_bytes != 8192 || !are_copies(&copies) {
        return None;
    }
    Some(MapStore::load(alloc, shape, copies))
}

/// The first bytes of a copy: its name, the blocks of the volume and of a region, and the number of maps.
const HEADER: [u8; 28] = [
    b'v', b'x', b'd', b'c', b'o', b'0', b'2', b'0', 0, 0, 0, 0, 0, 0, 0, 128, 0, 0, 0, 0, 0, 0, 0,
    32, 0, 0, 0, 32,
];

const ZEROS: [u8; 511] = [0; 511];

fn is_header(sector: &[u8]) -> Option<bool> {
    let named = sector.get(..28)? == HEADER.as_slice();
    Some(named && sector.get(28..)? == ZEROS.get(..484)?)
}

/// The marks of region 1 that a copy shows: the second lowest bit of the first byte of each map's page, which lies in the
/// second of the 16 sectors of the map, behind three such runs. None where the copy has another header, or marks other regions.
pub fn shown(copy: &Vec<u8>) -> Option<u64> {
    let mut marks = 0;
    if !is_header(copy.get(..512)?)? {
        return None;
    }
    for map in 0..32_usize {
        let at = (49 + 16 * map) * 512;
        let (first, others) = copy.get(at..at + 512)?.split_first()?;
        if others != ZEROS.as_slice() {
            return None;
        }
        match *first {
            0 => {}
            2 => marks = vx_mask::with(marks, vx_mask::of(map as u32)),
            _ => return None,
        }
    }
    Some(marks)
}
