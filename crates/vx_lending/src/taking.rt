ghost use Rattle.std.specs.Prelude.{◌≡◌, ◌++◌, ◌≤◌, length, map, IfOk, IfErr};
ghost use Rattle.std.specs.List.{All};
ghost use Rattle.vx_block.specs.Regions.{region_count};
ghost use Rattle.vx_layout.specs.declared.layout.Layout.{Layout};
ghost use Rattle.vx_carve.specs.Together.{AreOnce, SameSectors};
ghost use Rattle.vx_carve.specs.Carved.{HaveNumbers};
ghost use Rattle.vx_carve.specs.Strips.{ArePlexes, EachStrip, IsFreeStrip};
ghost use Rattle.vx_maps.specs.Spares.{copies_seen};
ghost use Rattle.vx_volume.specs.Opening.{regions_seen};
ghost use Rattle.vx_lending.specs.RegionsTaken.{AreDifferent, AreTakenRegions};
ghost use Rattle.vx_lending.specs.Pieces.{volume_pieces};
ghost use Rattle.vx_lending.specs.Taken.{AreLogCopies, AreTakenCopies, HaveBlocks, OthersStay, log_sectors, slot_of};

use crate::back::put_pieces;
use crate::copies::take_copies;
use crate::pieces::VolumePieces;
use crate::{VolumeForm, take_regions};
use std::alloc::Global;
use vx_base::OutOfMemory;
use vx_carve::Pool;
use vx_piece::Piece;

/// Takes the pieces of a volume out of the pool: a plex of each layout in each region, and of each log plex as many of its
/// first blocks as the log has. After a refusal what was taken is put back, and what the pool has no room for comes back.
pub fn take_pieces<P: Piece + Drop>(
    alloc: Global,
    pool: &mut Pool<P>,
    numbers: &[u32],
    form: &VolumeForm,
) -> Result<VolumePieces<P>, (VolumePieces<P>, OutOfMemory)>
    requires maps { length form.now.maps.items ≡ length form.now.layouts.items }
    requires differ { AreDifferent form.now.maps.items }
    requires few { length form.now.logs.items ≤ 2 }
    requires inside { HaveBlocks form.now.shape.geometry.length form.now.layouts.items }
    requires roomy { HaveBlocks (log_sectors form.now.shape.geometry) form.now.logs.items }
    requires apart { HaveNumbers numbers.now }
    requires plexes { ArePlexes numbers.now (form.now.layouts.items ++ form.now.logs.items) }
    requires once { AreOnce (map P.seen pool.old.items.items) }
    requires free { All (λ (l : Layout). EachStrip (IsFreeStrip numbers.now (map P.seen pool.old.items.items)) l.columns) (form.now.layouts.items ++ form.now.logs.items) }
    ensures long { IfOk result (λ v. length v.regions.items ≡ region_count form.now.shape.geometry.length form.now.shape.geometry.region) }
    ensures regions { IfOk result (λ v. AreTakenRegions numbers.now form.now.maps.items form.now.layouts.items form.now.shape.geometry.length form.now.shape.geometry.region (regions_seen P.seen v.regions.items)) }
    ensures copies { IfOk result (λ v. AreTakenCopies numbers.now form.now.logs.items (log_sectors form.now.shape.geometry) (copies_seen P.seen v.copies.items)) }
    ensures log { IfOk result (λ v. AreLogCopies (slot_of form.now.shape.geometry) (copies_seen P.seen v.copies.items)) }
    ensures taken { IfOk result (λ v. SameSectors (map P.seen pool.old.items.items) (volume_pieces P.seen v ++ map P.seen pool.new.items.items)) }
    ensures others { IfOk result (λ v. OthersStay numbers.now (form.now.layouts.items ++ form.now.logs.items) (map P.seen pool.old.items.items) (map P.seen pool.new.items.items)) }
    ensures kept { IfErr result (λ x. SameSectors (map P.seen pool.old.items.items) (volume_pieces P.seen x.0 ++ map P.seen pool.new.items.items)) }
{
    match take_regions(
        alloc,
        pool,
        numbers,
        &form.maps,
        &form.layouts,
        &form.shape.geometry,
    ) {
        Ok(regions) => {
            match take_copies(alloc, pool, numbers, &form.shape.geometry, &form.logs) {
                Ok(copies) => Ok(VolumePieces { regions, copies }),
                Err((copies, _)) => { Err(refused(alloc, pool, VolumePieces { regions, copies })) }
            }
        }
        Err((regions, _)) => {
            let copies = Vec::new(alloc);
            Err((VolumePieces { regions, copies }, OutOfMemory))
        }
    }
}

/// Puts what was taken back, and answers with what the pool has no room for.
fn refused<P: Piece + Drop>(
    alloc: Global,
    pool: &mut Pool<P>,
    taken: VolumePieces<P>,
) -> (VolumePieces<P>, OutOfMemory)
    ensures { SameSectors (volume_pieces P.seen taken ++ map P.seen pool.old.items.items) (volume_pieces P.seen result.0 ++ map P.seen pool.new.items.items) }
{
    match put_pieces(alloc, pool, taken) {
        Ok(_) => {
            let regions = Vec::new(alloc);
            let copies = Vec::new(alloc);
            (VolumePieces { regions, copies }, OutOfMemory)
        }
        Err(left) => (left, OutOfMemory),
    }
}
