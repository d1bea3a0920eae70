//! The pieces of a plex come out of the pool of a group, and lie among what is left over until they are taken again.

ghost use Rattle.std.specs.Prelude.{◌≡◌, ◌<◌, ◌≤◌, ◌++◌, [], ◌∷◌, map as map_of, vec_len, vec_capacity, OnOk};
ghost use Rattle.vx_carve.specs.Carved.{HaveNumbers, StaysBeside};
ghost use Rattle.vx_carve.specs.Strips.{ArePlexes, EachStrip, IsFreeStrip};
ghost use Rattle.vx_carve.specs.Together.{AreOnce, SameSectors};
ghost use Rattle.vx_layout.specs.Columns.{capacity};
ghost use Rattle.vx_volume.specs.Opening.{regions_seen};
ghost use Rattle.vx_lending.specs.RegionPieces.{all_pieces};
ghost use Rattle.vx_lending.specs.Public.{still_pieces};
ghost use Rattle.vx_plex_pieces.specs.Parked.{EndsInPlex, HasParked, IsParked, IsUnparked};

use std::alloc::Global;
use std::slice::from_ref;
use vx_base::OutOfMemory;
use vx_block::Geometry;
use vx_cell::Plex;
use vx_layout::Layout;
use vx_lending::{LogLeft, Public, Remains, take_regions};
use vx_piece::Piece;

/// Takes the plex of each region of a volume out of the pool, in order, and leaves them among what is left over, as the last of
/// it. After a refusal what was taken is back in the pool, and what it has no room for is among what is left over.
pub fn park_plex<P: Piece + Drop>(
    alloc: Global,
    public: &mut Public<P>,
    numbers: &[u32],
    map: u8,
    layout: &Layout,
    geometry: &Geometry,
) -> Result<(), OutOfMemory>
    requires inside { geometry.now.length ≤ capacity layout.now.columns }
    requires apart { HaveNumbers numbers.now }
    requires plexes { ArePlexes numbers.now (layout.now ∷ []) }
    requires once { AreOnce (map_of P.seen public.old.pool.items.items) }
    requires free { EachStrip (IsFreeStrip numbers.now (map_of P.seen public.old.pool.items.items)) layout.now.columns }
    ensures parked { OnOk result (IsParked P.seen numbers.now map layout.now geometry.now public.old public.new) }
    ensures beside { OnOk result (StaysBeside numbers.now (layout.now ∷ []) 0 geometry.now.length (map_of P.seen public.old.pool.items.items) (map_of P.seen public.new.pool.items.items)) }
    ensures still { SameSectors (still_pieces P.seen public.old) (still_pieces P.seen public.new) }
    ensures running { public.new.running ≡ public.old.running }
    ensures stuck { public.new.stuck ≡ public.old.stuck }
{
    public.left.reserve(1)?;
    match take_regions(
        alloc,
        &mut public.pool,
        numbers,
        &[map],
        from_ref(layout),
        geometry,
    ) {
        Ok(regions) => {
            leave(alloc, public, regions);
            Ok(())
        }
        Err((regions, _)) => {
            if !regions.is_empty() {
                leave(alloc, public, regions);
            }
            Err(OutOfMemory)
        }
    }
}

/// Leaves the plexes of regions among what is left over.
fn leave<P: Piece + Drop>(alloc: Global, public: &mut Public<P>, regions: Vec<Vec<Plex<P>>>)
    requires { vec_len public.old.left < vec_capacity public.old.left }
    ensures parked { HasParked P.seen regions.items public.old public.new }
    ensures pool { public.new.pool ≡ public.old.pool }
    ensures running { public.new.running ≡ public.old.running }
    ensures stuck { public.new.stuck ≡ public.old.stuck }
{
    let log = LogLeft::Copies(Vec::new(alloc));
    public.left.push_reserved(Remains { regions, log });
}

/// Takes the plex of each region that was parked last, in order. It takes no memory.
pub fn unpark_plex<P: Piece + Drop>(public: &mut Public<P>) -> Vec<Vec<Plex<P>>>
    requires { EndsInPlex P.seen public.old.left.items }
    ensures unparked { IsUnparked result public.old.left.items public.new.left.items }
    ensures still { SameSectors (still_pieces P.seen public.old) (all_pieces (regions_seen P.seen result.items) ++ still_pieces P.seen public.new) }
    ensures pool { public.new.pool ≡ public.old.pool }
    ensures running { public.new.running ≡ public.old.running }
    ensures stuck { public.new.stuck ≡ public.old.stuck }
{
    let Remains { regions, log: _ } = public.left.pop().unwrap();
    regions
}
