ghost use Rattle.std.specs.Prelude.{◌≡◌, ℕ, ◌<◌, ◌≤◌, ◌++◌, length, map, slice_index_or, IfOk, IfErr};
ghost use Rattle.std.specs.List.{All};
ghost use Rattle.vx_block.specs.Regions.{region_count};
ghost use Rattle.vx_layout.specs.Columns.{capacity};
ghost use Rattle.vx_layout.specs.declared.layout.Layout.{Layout};
ghost use Rattle.vx_carve.specs.Together.{AreOnce, SameSectors};
ghost use Rattle.vx_carve.specs.Carved.{HaveNumbers, StaysBeside};
ghost use Rattle.vx_carve.specs.Strips.{ArePlexes, EachStrip, IsFreeStrip};
ghost use Rattle.vx_volume.specs.Opening.{regions_seen};
ghost use Rattle.vx_lending.specs.RegionPieces.{all_pieces};
ghost use Rattle.vx_lending.specs.RegionsTaken.{AreDifferent, AreTakenRegions};

use crate::region::take_region;
use crate::regions_back::put_last;
use std::alloc::Global;
use vx_base::OutOfMemory;
use vx_block::Geometry;
use vx_carve::Pool;
use vx_cell::Plex;
use vx_layout::Layout;
use vx_piece::Piece;

/// Takes the plexes of all regions of a volume out of the pool, in order: one of each layout with its map. The last region is
/// taken first. After a refusal what was taken is put back, and what the pool has no room for comes back, the last region
/// first.
pub fn take_regions<P: Piece + Drop>(
    alloc: Global,
    pool: &mut Pool<P>,
    numbers: &[u32],
    maps: &[u8],
    layouts: &[Layout],
    geometry: &Geometry,
) -> Result<Vec<Vec<Plex<P>>>, (Vec<Vec<Plex<P>>>, OutOfMemory)>
    requires maps { length maps.now ≡ length layouts.now }
    requires differ { AreDifferent maps.now }
    requires inside { (k : ℕ) (d : Layout) → k < length layouts.now → geometry.now.length ≤ capacity (slice_index_or layouts.now k d).columns }
    requires apart { HaveNumbers numbers.now }
    requires plexes { ArePlexes numbers.now layouts.now }
    requires once { AreOnce (map P.seen pool.old.items.items) }
    requires free { All (λ (l : Layout). EachStrip (IsFreeStrip numbers.now (map P.seen pool.old.items.items)) l.columns) layouts.now }
    ensures long { IfOk result (λ v. length v.items ≡ region_count geometry.now.length geometry.now.region) }
    ensures regions { IfOk result (λ v. AreTakenRegions numbers.now maps.now layouts.now geometry.now.length geometry.now.region (regions_seen P.seen v.items)) }
    ensures taken { IfOk result (λ v. SameSectors (map P.seen pool.old.items.items) (all_pieces (regions_seen P.seen v.items) ++ map P.seen pool.new.items.items)) }
    ensures beside { IfOk result (λ v. StaysBeside numbers.now layouts.now 0 geometry.now.length (map P.seen pool.old.items.items) (map P.seen pool.new.items.items)) }
    ensures kept { IfErr result (λ x. SameSectors (map P.seen pool.old.items.items) (all_pieces (regions_seen P.seen x.0.items) ++ map P.seen pool.new.items.items)) }
{
    let mut regions = Vec::new(alloc);
    let count = geometry.regions();
    if regions.reserve_exact(count as usize).is_err() {
        return Err((regions, OutOfMemory));
    }
    let mut region = count;
    'regions: while region > 0 {
        region -= 1;
        match take_region(
            alloc,
            pool,
            numbers,
            maps,
            layouts,
            geometry.range_of(region),
        ) {
            Ok(plexes) => regions.push_reserved(plexes),
            Err((plexes, _)) => {
                regions.push_reserved(plexes);
                return Err(refused(alloc, pool, regions));
            }
        }
    }
    regions.reverse();
    Ok(regions)
}

/// Puts what was taken back, and answers with what the pool has no room for.
fn refused<P: Piece + Drop>(
    alloc: Global,
    pool: &mut Pool<P>,
    taken: Vec<Vec<Plex<P>>>,
) -> (Vec<Vec<Plex<P>>>, OutOfMemory)
    ensures { SameSectors (all_pieces (regions_seen P.seen taken.items) ++ map P.seen pool.old.items.items) (all_pieces (regions_seen P.seen result.0.items) ++ map P.seen pool.new.items.items) }
{
    match put_last(alloc, pool, taken) {
        Ok(_) => (Vec::new(alloc), OutOfMemory),
        Err(left) => (left, OutOfMemory),
    }
}
