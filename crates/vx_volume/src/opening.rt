//! A volume is opened over its pieces.

ghost use Rattle.std.specs.Prelude.{◌≡◌, ◌≤◌, ◌<◌, ℕ, IfOk, IfErr, IfSome, IfNone, [], length, true, vec_capacity};
ghost use Rattle.vx_cell.specs.Changes.{cell_seen};
ghost use Rattle.vx_cell.specs.Plexes.{plexes_seen};
ghost use Rattle.vx_volume.specs.Log.{log_seen};
ghost use Rattle.vx_volume.specs.Opening.{AreOpenable, AreOpenedCells, AreVolumeMasks, HasCurrent, IsFirstUnread, IsOpened, IsOpenedCell, IsRefusedAs, count_of, regions_seen, stage_of};
ghost use Rattle.vx_volume.specs.Volume.{IsVolume, cells_seen, log_of, volume_seen, shape_of};

use crate::fault::{OpenFault, OpenRefused};
use crate::log::VolumeLog;
use crate::volume::{Volume, VolumeShape};
use std::alloc::Global;
use vx_base::BLOCK;
use vx_cell::{Cell, Plex};
use vx_core::{Phase, Stage};
use vx_marks::Marker;
use vx_pages::LocalPiece;
use vx_picker::Policy;
use vx_piece::Piece;

/// The map of the dirty region log.
const DIRTY: u32 = 30;

impl<P: Piece + Drop> Volume<P> {
    /// Opens a volume as a life begins: `regions` are the plexes of each region, in order, each of its sectors. A region is
    /// unsettled where its dirty bit is set in the log, else settled. Reads
    /// choose among plexes by the policy. After a refusal all comes back as it was.
    pub fn open(
        alloc: Global,
        shape: VolumeShape,
        policy: Policy,
        regions: Vec<Vec<Plex<P>>>,
        log: VolumeLog<P>,
    ) -> Result<Volume<P>, OpenRefused<P>>
        requires { AreOpenable shape (log_seen P.seen log) (regions_seen P.seen regions.items) }
        ensures opened { IfOk result (λ volume. IsOpened shape (log_seen P.seen log) (regions_seen P.seen regions.items) (volume_seen P.seen volume)) }
        ensures whole { IfOk result (λ volume. IsVolume (volume_seen P.seen volume)) }
        ensures log { IfOk result (λ volume. log_of volume ≡ log) }
        ensures shape { IfOk result (λ volume. shape_of volume ≡ shape) }
        ensures cause { IfErr result (λ refused. IsRefusedAs refused.fault shape (log_seen P.seen log)) }
        ensures kept { IfErr result (λ refused. (refused.regions ≡ regions) × (refused.log ≡ log)) }
    {
        let Ok(cells) = Vec::with_capacity(alloc, regions.len()) else {
            return Err(refused(OpenFault::OutOfMemory, regions, log));
        };
        let Ok(scratch) = vec![in alloc; 0u8; BLOCK * shape.geometry.region as usize] else {
            return Err(refused(OpenFault::OutOfMemory, regions, log));
        };
        match first_unread(&shape, &log) {
            Some(region) => Err(refused(OpenFault::NoCurrent(region), regions, log)),
            None => Ok(Volume {
                shape,
                policy,
                cells: cells_of(&shape, cells, regions, &log),
                log,
                scratch,
                most: 0,
            }),
        }
    }
}

fn refused<P: LocalPiece>(
    fault: OpenFault,
    regions: Vec<Vec<Plex<P>>>,
    log: VolumeLog<P>,
) -> OpenRefused<P>
    ensures { result ≡ record { fault = fault; regions = regions; log = log } }
{
    OpenRefused {
        fault,
        regions,
        log,
    }
}

/// The first region of which no plex that is on is unmarked.
fn first_unread<P: LocalPiece>(shape: &VolumeShape, log: &VolumeLog<P>) -> Option<u64>
    requires { AreVolumeMasks shape.now (log_seen P.seen log.now) }
    ensures some { IfSome result (IsFirstUnread shape.now (log_seen P.seen log.now)) }
    ensures none { IfNone result ((r : ℕ) → r < count_of shape.now → HasCurrent shape.now (log_seen P.seen log.now) r) }
{
    for region in 0..shape.geometry.regions() {
        if vx_mask::less(shape.on, log.marked(region)) == 0 {
            return Some(region);
        }
    }
    None
}

/// The cells of the regions, in order, in a list that has room for them.
fn cells_of<P: Piece + Drop>(
    shape: &VolumeShape,
    mut cells: Vec<Cell<P>>,
    regions: Vec<Vec<Plex<P>>>,
    log: &VolumeLog<P>,
) -> Vec<Cell<P>>
    requires masks { AreVolumeMasks shape.now (log_seen P.seen log.now) }
    requires count { length regions.items ≡ count_of shape.now }
    requires empty { cells.items ≡ [] }
    requires room { length regions.items ≤ vec_capacity cells }
    ensures { AreOpenedCells shape.now (log_seen P.seen log.now) (regions_seen P.seen regions.items) (cells_seen P.seen result.items) }
{
    let mut left = regions;
    left.reverse();
    let mut region = 0;
    'opening: while let Some(plexes) = left.pop() {
        cells.push_reserved(cell_of(shape, log, region, plexes));
        region += 1;
    }
    cells
}

/// The cell of a region as a life begins.
fn cell_of<P: Piece + Drop>(
    shape: &VolumeShape,
    log: &VolumeLog<P>,
    region: u64,
    plexes: Vec<Plex<P>>,
) -> Cell<P>
    requires known { (log_seen P.seen log.now).has_region region ≡ true }
    requires inside { region < count_of shape.now }
    ensures { IsOpenedCell shape.now (log_seen P.seen log.now) region (plexes_seen P.seen plexes.items) (cell_seen P.seen result) }
{
    let stage = stage_of(shape, log.is_there(), log.marked(region));
    Cell::new(stage, region, shape.geometry.range_of(region), plexes)
}

/// How a region begins that the log marks so.
fn stage_of(shape: &VolumeShape, logged: bool, bits: u64) -> Stage
    ensures { result ≡ stage_of shape.now logged bits }
{
    Stage {
        on: shape.on,
        off: shape.off,
        snaps: shape.snaps,
        bits,
        logged,
        phase: if vx_mask::contains(bits, DIRTY) {
            Phase::Unsettled
        } else {
            Phase::Settled
        },
    }
}
