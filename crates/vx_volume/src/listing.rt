ghost use Rattle.std.specs.Prelude.{◌≡◌, ℕ, ◌+◌, ◌*◌, ◌^◌, ◌<◌, ◌&&◌, length, IfOk};
ghost use Rattle.vx_mask.specs.Mask.{has};
ghost use Rattle.vx_mapfmt.specs.Sizes.{parts_of};
ghost use Rattle.vx_maps.specs.Stores.{shape_of, store_seen};
ghost use Rattle.vx_volume.specs.Bytes.{map_bit};

use std::alloc::Global;
use vx_base::OutOfMemory;
use vx_maps::MapStore;
use vx_marks::Marker;
use vx_mask::contains;
use vx_pages::{LocalPiece, with_bit};

/// The marks of a map that are claimed.
pub fn list<P: LocalPiece>(
    alloc: Global,
    store: &MapStore<P>,
    map: u32,
) -> Result<Vec<u8>, OutOfMemory>
    ensures length { IfOk result (λ bits. length bits.items ≡ parts_of 8 (shape_of store.now).regions) }
    ensures bits { IfOk result (λ bits. (region : ℕ) → map_bit bits.items region ≡ ((store_seen P.seen store.now).has_region region && (store_seen P.seen store.now).claims region map)) }
{
    let count = store.shape().regions.div_ceil(8);
    let mut bits = Vec::with_capacity(alloc, count as usize)?;
    for place in 0..count {
        bits.push(byte_of(store, map, 8 * place))?;
    }
    Ok(bits)
}

/// The marks of eight regions.
fn byte_of<P: LocalPiece>(store: &MapStore<P>, map: u32, first: u64) -> u8
    requires { first + 7 < 2 ^ 64 }
    ensures { (k : ℕ) → k < 8 → has result k ≡ ((store_seen P.seen store.now).has_region (first + k) && (store_seen P.seen store.now).claims (first + k) map) }
{
    let mut byte = 0;
    for k in 0..8 {
        byte = with_bit(byte, k, is_listed(store, map, first + k as u64));
    }
    byte
}

/// Whether the store has the region and claims its mark.
fn is_listed<P: LocalPiece>(store: &MapStore<P>, map: u32, region: u64) -> bool
    ensures { result ≡ ((store_seen P.seen store.now).has_region region && (store_seen P.seen store.now).claims region map) }
{
    region < store.shape().regions && contains(store.marked(region), map)
}
