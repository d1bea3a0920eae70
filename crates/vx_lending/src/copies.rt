ghost use Rattle.std.specs.Prelude.{◌≡◌, ◌++◌, ◌≤◌, length, map, IfOk, IfErr};
ghost use Rattle.std.specs.List.{All};
ghost use Rattle.vx_layout.specs.declared.layout.Layout.{Layout};
ghost use Rattle.vx_carve.specs.Together.{AreOnce, SameSectors};
ghost use Rattle.vx_carve.specs.Carved.{HaveNumbers, StaysBeside};
ghost use Rattle.vx_carve.specs.Strips.{ArePlexes, EachStrip, IsFreeStrip};
ghost use Rattle.vx_maps.specs.Spares.{copies_seen};
ghost use Rattle.vx_lending.specs.Pieces.{copy_pieces};
ghost use Rattle.vx_lending.specs.Taken.{AreLogCopies, AreTakenCopies, HaveBlocks, log_sectors, slot_of};

use std::alloc::Global;
use vx_base::OutOfMemory;
use vx_block::{Geometry, Span};
use vx_carve::{Pool, carve_region};
use vx_layout::Layout;
use vx_mapfmt::DcoShape;
use vx_piece::Piece;

/// The shape of the log of a volume.
pub fn log_shape(geometry: &Geometry) -> DcoShape
    ensures { result.geometry ≡ geometry.now }
{
    DcoShape::of(geometry, 32).unwrap()
}

/// The blocks of the log of a volume.
fn log_span(geometry: &Geometry) -> Span
    ensures start { result.start ≡ 0 }
    ensures count { result.count ≡ log_sectors geometry.now }
{
    Span {
        start: 0,
        count: 35 * (log_shape(geometry).map_bytes / 512),
    }
}

/// Takes a copy of the log of a volume out of the pool for each log plex. After a refusal what was taken comes back.
pub fn take_copies<P: Piece + Drop>(
    alloc: Global,
    pool: &mut Pool<P>,
    numbers: &[u32],
    geometry: &Geometry,
    logs: &[Layout],
) -> Result<Vec<Vec<P>>, (Vec<Vec<P>>, OutOfMemory)>
    requires few { length logs.now ≤ 2 }
    requires inside { HaveBlocks (log_sectors geometry.now) logs.now }
    requires apart { HaveNumbers numbers.now }
    requires plexes { ArePlexes numbers.now logs.now }
    requires once { AreOnce (map P.seen pool.old.items.items) }
    requires free { All (λ (l : Layout). EachStrip (IsFreeStrip numbers.now (map P.seen pool.old.items.items)) l.columns) logs.now }
    ensures copies { IfOk result (λ v. AreTakenCopies numbers.now logs.now (log_sectors geometry.now) (copies_seen P.seen v.items)) }
    ensures log { IfOk result (λ v. AreLogCopies (slot_of geometry.now) (copies_seen P.seen v.items)) }
    ensures taken { IfOk result (λ v. SameSectors (map P.seen pool.old.items.items) (copy_pieces (copies_seen P.seen v.items) ++ map P.seen pool.new.items.items)) }
    ensures beside { IfOk result (λ v. StaysBeside numbers.now logs.now 0 (log_sectors geometry.now) (map P.seen pool.old.items.items) (map P.seen pool.new.items.items)) }
    ensures kept { IfErr result (λ x. SameSectors (map P.seen pool.old.items.items) (copy_pieces (copies_seen P.seen x.0.items) ++ map P.seen pool.new.items.items)) }
{
    carve_region(pool, alloc, numbers, logs, log_span(geometry))
}
