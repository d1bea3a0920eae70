ghost use Rattle.std.specs.Prelude.{◌≡◌, ◌≢◌, ℕ, ◌+◌, ◌^◌, ◌<◌, ◌≤◌, ◌++◌, length, map, slice_index_or, IfOk, IfErr};
ghost use Rattle.vx_layout.specs.Columns.{capacity};
ghost use Rattle.vx_layout.specs.declared.layout.Layout.{Layout};
ghost use Rattle.vx_carve.specs.Together.{AreOnce, SameSectors};
ghost use Rattle.vx_carve.specs.Carved.{HaveNumbers, AreOn, AreFreeBlocks, AreApartBlocks, StaysBeside};
ghost use Rattle.vx_cell.specs.Plexes.{plexes_seen};
ghost use Rattle.vx_lending.specs.RegionPieces.{pieces_of};
ghost use Rattle.vx_lending.specs.RegionsTaken.{AreDifferent, IsTakenRegion};

use std::alloc::Global;
use vx_base::OutOfMemory;
use vx_block::Span;
use vx_carve::{Pool, carve_span};
use vx_cell::Plex;
use vx_layout::Layout;
use vx_piece::Piece;

/// Takes a range of blocks out of the pool, one plex of each layout with its map. After a refusal what was taken comes back.
pub fn take_region<P: Piece + Drop>(
    alloc: Global,
    pool: &mut Pool<P>,
    numbers: &[u32],
    maps: &[u8],
    layouts: &[Layout],
    span: Span,
) -> Result<Vec<Plex<P>>, (Vec<Plex<P>>, OutOfMemory)>
    requires maps { length maps.now ≡ length layouts.now }
    requires differ { AreDifferent maps.now }
    requires inside { (k : ℕ) (d : Layout) → k < length layouts.now → span.start + span.count ≤ capacity (slice_index_or layouts.now k d).columns }
    requires few { span.count < 2 ^ 32 }
    requires fits { span.start + span.count < 2 ^ 64 }
    requires apart { HaveNumbers numbers.now }
    requires once { AreOnce (map P.seen pool.old.items.items) }
    requires on { (k : ℕ) (d : Layout) → k < length layouts.now → AreOn numbers.now (slice_index_or layouts.now k d).unit (slice_index_or layouts.now k d).columns span.start (span.start + span.count) }
    requires free { (k : ℕ) (d : Layout) → k < length layouts.now → AreFreeBlocks numbers.now (slice_index_or layouts.now k d).unit (slice_index_or layouts.now k d).columns span.start (span.start + span.count) (map P.seen pool.old.items.items) }
    requires plexes { (j k : ℕ) (d : Layout) → j < length layouts.now → k < length layouts.now → j ≢ k →
        AreApartBlocks numbers.now (slice_index_or layouts.now j d).unit (slice_index_or layouts.now j d).columns (slice_index_or layouts.now k d).unit (slice_index_or layouts.now k d).columns span.start (span.start + span.count) }
    ensures region { IfOk result (λ v. IsTakenRegion numbers.now maps.now layouts.now span.start span.count (plexes_seen P.seen v.items)) }
    ensures taken { IfOk result (λ v. SameSectors (map P.seen pool.old.items.items) (pieces_of (plexes_seen P.seen v.items) ++ map P.seen pool.new.items.items)) }
    ensures beside { IfOk result (λ v. StaysBeside numbers.now layouts.now span.start (span.start + span.count) (map P.seen pool.old.items.items) (map P.seen pool.new.items.items)) }
    ensures kept { IfErr result (λ x. SameSectors (map P.seen pool.old.items.items) (pieces_of (plexes_seen P.seen x.0.items) ++ map P.seen pool.new.items.items)) }
{
    let mut plexes = Vec::new(alloc);
    if plexes.reserve_exact(layouts.len()).is_err() {
        return Err((plexes, OutOfMemory));
    }
    let mut i = 0;
    'plexes: while i < layouts.len() {
        match carve_span(pool, alloc, numbers, &layouts[i], span) {
            Ok(pieces) => plexes.push_reserved(Plex {
                map: maps[i],
                pieces,
            }),
            Err(_) => return Err((plexes, OutOfMemory)),
        }
        i += 1;
    }
    Ok(plexes)
}
