//! A free map of a running volume is marked in each region.
ghost use Rattle.std.specs.Prelude.{◌≡◌, is_some, OnOk};
ghost use Rattle.std.specs.BTreeMap.{get};
ghost use Rattle.std.specs.Cmp.Lexicographic.{slice_cmp};
ghost use Rattle.std.specs.Ordering.{nat_cmp};
ghost use Rattle.vx_house.specs.View.{IsGroupKept};
ghost use Rattle.vx_lending.specs.Public.{running_at};
ghost use Rattle.vx_volume.specs.Changing.{HaveRoom, IsFreeIn};
ghost use Rattle.vx_volume.specs.Log.{LogGoes};
ghost use Rattle.vx_volume.specs.Volume.{IsVolume, log_of, shape_of, volume_seen};
ghost use Rattle.vx_stage_mirrors.specs.MarkingLaws.{EachFreeMapIsFree, EachMarkingRests};
ghost use Rattle.vx_stage_mirrors.specs.Marking.{MarkEnds, MarksOne, MarksVolume, MayMark, as_io};

use std::alloc::Global;
use std::collections::BTreeMap;
use vx_cell::Place;
use vx_change_laws::{
    each_failure_is_noted, each_setting_keeps_places, each_setting_runs_on,
    each_setting_stays_exact,
};
use vx_house::{House, Imported, Stop};
use vx_lending::Running;
use vx_marks::MarkFault;
use vx_names::Name;
use vx_piece::Piece;
use vx_stage_volumes::told;
use vx_volume::{IoFault, Volume};

/// Why the regions are not marked.
#[derive(Clone, Copy)]
pub enum Unmarked {
    OutOfMemory,
    Fault(MarkFault),
}

/// Marks a free map in each region of the running volume of the name, on its log, and makes room in each for one plex more. The first
/// page of the log that fails ends it; want of memory comes before anything is marked.
pub fn mark_plex<P: Piece + Drop>(
    alloc: Global,
    group: &mut Imported<P>,
    name: &Name,
    map: u8,
) -> Result<(), Stop>
    requires kept { IsGroupKept P.seen group.old }
    requires alike { (p q : P) → is_some (P.seen p).told ≡ is_some (P.seen q).told }
    requires may { MayMark P.seen map (running_at group.old.public name.now) }
    ensures ends { MarkEnds P.seen name.now map result group.old group.new }
{
    each_setting_keeps_places();
    each_setting_runs_on();
    each_setting_stays_exact();
    each_failure_is_noted();
    match mark_running(alloc, &mut group.public.running, name, map) {
        Ok(()) => Ok(()),
        Err(Unmarked::OutOfMemory) => Err(Stop::OutOfMemory),
        Err(Unmarked::Fault(fault)) => Err(told(alloc, group.base.disks(), as_io(fault))),
    }
}

/// The fault of the log as one of the volume.
pub(crate) fn as_io(fault: MarkFault) -> IoFault
    ensures { result ≡ as_io fault }
{
    match fault {
        MarkFault::Failed { copy, device } => IoFault::Fault(Place::Log { copy, device }),
        MarkFault::PowerLost | MarkFault::Busy => IoFault::PowerLost,
    }
}

fn mark_running<P: Piece + Drop>(
    alloc: Global,
    running: &mut BTreeMap<Name, Running<P>>,
    name: &Name,
    map: u8,
) -> Result<(), Unmarked>
    requires may { MayMark P.seen map (get (slice_cmp nat_cmp) running.old name.now) }
    ensures { MarksOne P.seen name.now map result running.old running.new }
{
    match running.get_mut(name) {
        Some(one) => mark_volume(alloc, &mut one.volume, map),
        None => unreachable!(),
    }
}

fn mark_volume<P: Piece>(alloc: Global, volume: &mut Volume<P>, map: u8) -> Result<(), Unmarked>
    requires whole { IsVolume (volume_seen P.seen volume.old) }
    requires free { IsFreeIn map (volume_seen P.seen volume.old) }
    ensures marks { MarksVolume P.seen map result volume.old volume.new }
    ensures whole { IsVolume (volume_seen P.seen volume.new) }
    ensures shape { shape_of volume.new ≡ shape_of volume.old }
    ensures follows { LogGoes P.seen (log_of volume.old) (log_of volume.new) }
    ensures room { OnOk result (HaveRoom volume.new) }
{
    let bytes = volume.shape().geometry.regions().div_ceil(8);
    let Ok(all) = vec![in alloc; 255u8; bytes as usize] else {
        return Err(Unmarked::OutOfMemory);
    };
    if volume.reserve_plex(alloc).is_err() || !volume.knows_map(map) {
        return Err(Unmarked::OutOfMemory);
    }
    match volume.set_map(map, &all) {
        Ok(()) => Ok(()),
        Err(fault) => Err(Unmarked::Fault(fault)),
    }
}

/// What marking does in the world: the volume comes to rest, so far as its devices let it, or the command is ended so. A law, as a
/// function that does nothing and promises it.
pub fn each_marking_rests<P: Piece + Drop>(house: &House<P>, old: &Imported<P>, new: &Imported<P>)
    ensures { EachMarkingRests P.seen house.now old.now new.now }
{
    each_setting_keeps_places();
    each_setting_runs_on();
    each_setting_stays_exact();
    each_failure_is_noted();
    let _ = house;
    let _ = old;
    let _ = new;
}

/// A map that no data plex and no relation of a running volume has is free in its regions: a law, as a function that does nothing and
/// promises it.
pub fn each_free_map_is_free<P: Piece + Drop>(running: &Running<P>)
    ensures { EachFreeMapIsFree P.seen running.now }
{
    let _ = running;
}
