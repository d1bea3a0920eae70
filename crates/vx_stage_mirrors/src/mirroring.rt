//! A running volume of the imported group gets one data plex more.
ghost use Rattle.std.specs.Prelude.{◌≡◌, is_some, IsErrAnd, IsSome, List};
ghost use Rattle.vx_script_words.specs.declared.value.DiskAt.{DiskAt};
ghost use Rattle.vx_stages.specs.declared.stage.Stage.TheVariants as stages;
ghost use Rattle.vx_house.specs.Goes.{IsReady, StageGoes};
ghost use Rattle.vx_house.specs.Holders.{holders, AreHeld};
ghost use Rattle.vx_house.specs.Scene.{Shelved};
ghost use Rattle.vx_house.specs.View.{IsGroupKept, KeepsHouse, at};
ghost use Rattle.vx_lending.specs.Public.{running_at};
ghost use Rattle.vx_stage_volumes.specs.Parting.{IsReadyToOpen};
ghost use Rattle.vx_stage_mirrors.specs.Ending.{IsPlannedMirror, JoinStopsIn, MirrorEnds};

use crate::parking::park;
use crate::{PlannedMirror, copy_plexes, join_plex, mark_plex, planned_mirror, test_mirror};
use std::alloc::Global;
use vx_answers::Refusal;
use vx_house::{House, Imported, Stop, refused};
use vx_names::Name;
use vx_new_volumes::NewPlex;
use vx_piece::Piece;
use vx_stage_volumes::{each_piece_ends, prepare};
use vx_volume_laws::lives::{each_left_volume_stands, each_pass_runs_on};

/// Adds a data plex to the running volume, on these disks, or on any where none is named, and so ends the command: its pieces are taken, its
/// map is marked in each region, its records are committed, it joins the volume, and is copied to. Where the commit is not done the volume
/// runs still, without the plex.
pub fn mirror<P: Piece + Drop>(
    alloc: Global,
    house: &mut House<P>,
    new: &NewPlex,
) -> Result<(), Stop>
    requires keeps { KeepsHouse P.seen house.old }
    requires alike { (p q : P) → is_some (P.seen p).told ≡ is_some (P.seen q).told }
    ensures goes { (disks : List DiskAt) (shelf : Shelved) → IsReady P.seen (stages.Mirror new.now) disks house.old → AreHeld shelf.held (holders P.seen house.old) → StageGoes P.seen (stages.Mirror new.now) disks result (at shelf house.old) (at shelf house.new) }
{
    each_piece_ends::<P>();
    each_pass_runs_on();
    each_left_volume_stands();
    match &mut house.group {
        None => refused(Refusal::NoGroup(None)),
        Some(group) => mirror_in(alloc, group, new),
    }
}

fn mirror_in<P: Piece + Drop>(
    alloc: Global,
    group: &mut Imported<P>,
    new: &NewPlex,
) -> Result<(), Stop>
    requires kept { IsGroupKept P.seen group.old }
    requires alike { (p q : P) → is_some (P.seen p).told ≡ is_some (P.seen q).told }
    ensures ends { IsErrAnd result (λ stop. MirrorEnds P.seen new.now.vol new.now.disks stop group.old group.new) }
{
    let runs = group.public.running.contains_key(&new.vol);
    let disks = new.disks.as_slice();
    let vol = test_mirror(alloc, &group.config, &new.vol, disks, runs)?;
    let planned = planned_mirror(alloc, &group.config, group.base.good(), &vol, disks)?;
    if prepare(alloc, group).is_err() {
        return Err(Stop::OutOfMemory);
    }
    join(alloc, group, &new.vol, disks, planned)
}

/// Adds the planned plex to the running volume of the name, once the group is ready.
fn join<P: Piece + Drop>(
    alloc: Global,
    group: &mut Imported<P>,
    name: &Name,
    disks: &[Name],
    planned: PlannedMirror,
) -> Result<(), Stop>
    requires kept { IsGroupKept P.seen group.old }
    requires alike { (p q : P) → is_some (P.seen p).told ≡ is_some (P.seen q).told }
    requires ready { IsReadyToOpen P.seen group.old }
    requires there { IsSome (running_at group.old.public name.now) }
    requires planned { IsPlannedMirror P.seen name.now disks.now planned group.old }
    ensures ends { IsErrAnd result (λ stop. JoinStopsIn P.seen name.now planned stop group.old group.new) }
{
    let _ = disks;
    let Ok(parked) = park(alloc, group, name, &planned) else {
        return Err(Stop::OutOfMemory);
    };
    let map = planned.map;
    mark_plex(alloc, group, name, map)?;
    join_plex(
        alloc,
        group,
        name,
        map,
        parked.layout,
        planned.next,
        parked.room,
    )?;
    Err(copy_plexes(alloc, group, name, vx_mask::of(u32::from(map))))
}
