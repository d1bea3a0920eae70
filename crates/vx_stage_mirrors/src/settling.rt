//! A running volume comes to rest with its log made firm.
ghost use Rattle.std.specs.BTreeMap.{get};
ghost use Rattle.std.specs.Cmp.Lexicographic.{slice_cmp};
ghost use Rattle.std.specs.Ordering.{nat_cmp};
ghost use Rattle.std.specs.Prelude.{◌≡◌, is_some};
ghost use Rattle.vx_house.specs.View.{IsGroupKept};
ghost use Rattle.vx_lending.specs.Public.{running_at};
ghost use Rattle.vx_stage_mirrors.specs.Settling.{ComesFirm, SettleEnds, SettlesOne};
ghost use Rattle.vx_stage_volumes.specs.Resting.{MayRest};
ghost use Rattle.vx_volume.specs.Log.{LogGoes};
ghost use Rattle.vx_volume.specs.Volume.{IsVolume, log_of, shape_of, volume_seen};

use crate::marking::as_io;
use std::alloc::Global;
use std::collections::BTreeMap;
use vx_house::{Imported, Stop};
use vx_lending::Running;
use vx_names::Name;
use vx_piece::Piece;
use vx_stage_volumes::told;
use vx_volume::{IoFault, Volume};

/// Settles each region of the running volume of the name, and then writes again what failed writes to its log have left open. The first
/// device that fails ends it.
pub fn settle<P: Piece + Drop>(
    alloc: Global,
    group: &mut Imported<P>,
    name: &Name,
) -> Result<(), Stop>
    requires kept { IsGroupKept P.seen group.old }
    requires alike { (p q : P) → is_some (P.seen p).told ≡ is_some (P.seen q).told }
    requires may { MayRest P.seen (running_at group.old.public name.now) }
    ensures ends { SettleEnds P.seen name.now result group.old group.new }
{
    match settle_running(&mut group.public.running, name) {
        Ok(()) => Ok(()),
        Err(fault) => Err(told(alloc, group.base.disks(), fault)),
    }
}

fn settle_running<P: Piece + Drop>(
    running: &mut BTreeMap<Name, Running<P>>,
    name: &Name,
) -> Result<(), IoFault>
    requires may { MayRest P.seen (get (slice_cmp nat_cmp) running.old name.now) }
    ensures settles { SettlesOne P.seen name.now result running.old running.new }
{
    match running.get_mut(name) {
        Some(one) => settle_volume(&mut one.volume),
        None => unreachable!(),
    }
}

fn settle_volume<P: Piece>(volume: &mut Volume<P>) -> Result<(), IoFault>
    requires whole { IsVolume (volume_seen P.seen volume.old) }
    ensures comes { ComesFirm (volume_seen P.seen volume.old) (volume_seen P.seen volume.new) result }
    ensures whole { IsVolume (volume_seen P.seen volume.new) }
    ensures shape { shape_of volume.new ≡ shape_of volume.old }
    ensures follows { LogGoes P.seen (log_of volume.old) (log_of volume.new) }
{
    volume.settle_all()?;
    match volume.firm() {
        Ok(()) => Ok(()),
        Err(fault) => Err(as_io(fault)),
    }
}
