//! A volume whose recovery is recorded as begun is healed, and the end is recorded.
ghost use Rattle.std.specs.Prelude.{◌≡◌, ◌<◌, is_some, None, vec_len, vec_capacity};
ghost use Rattle.vx_confdb.specs.Groups.{IsAlive};
ghost use Rattle.vx_group_start.specs.Laying.{AreStuckVolumes};
ghost use Rattle.vx_house.specs.Holders.{holders, AreHeld};
ghost use Rattle.vx_house.specs.Scene.{Shelved};
ghost use Rattle.vx_house.specs.View.{KeepsHouse, IsGroupKept, at};
ghost use Rattle.vx_lending.specs.Public.{running_at};
ghost use Rattle.vx_stage_recovery.specs.Ending.{FinishEnds, OpenEnds};
ghost use Rattle.vx_stage_recovery.specs.Steps.{FinishLeft, FinishStops, HasFinished, StepGoes};
ghost use Rattle.vx_volume.specs.Volume.{IsVolume, volume_seen};

use crate::ending::end_open;
use crate::opening::{begun, open};
use std::alloc::Global;
use vx_group_recover::laws::each_healing_heals;
use vx_group_recover::{Healed, heal};
use vx_house::{House, Imported, Stop};
use vx_image::each_image_is_sound_or_not;
use vx_lending::Running;
use vx_names::Name;
use vx_objects::Vol;
use vx_piece::Piece;
use vx_stage_gates::is_started;
use vx_stage_volumes::{copied, each_piece_ends, put_back};
use vx_state_edits::laws::each_change_restates;
use vx_volume_laws::lives::{
    each_left_volume_stands, each_opening_runs, each_pass_runs_on, each_running_forgets,
};

/// Opens the volume of the name, heals it, and records the end of its recovery; so it runs. Where a volume of the name is started,
/// memory is said to be wanting.
pub(crate) fn heal_volume<P: Piece + Drop>(
    alloc: Global,
    house: &mut House<P>,
    name: &Name,
) -> Result<Healed, Stop>
    requires keeps { KeepsHouse P.seen house.old }
    requires alike { (p q : P) → is_some (P.seen p).told ≡ is_some (P.seen q).told }
    ensures goes { (shelf : Shelved) → AreHeld shelf.held (holders P.seen house.old) → StepGoes P.seen (λ healed. HasFinished name.now healed.dirty healed.copied) (FinishStops name.now) (FinishLeft name.now) result (at shelf house.old) (at shelf house.new) }
{
    each_piece_ends::<P>();
    each_change_restates();
    each_image_is_sound_or_not();
    each_opening_runs();
    each_running_forgets();
    each_pass_runs_on();
    each_left_volume_stands();
    each_healing_heals();
    if is_started(house, name) {
        return Err(Stop::OutOfMemory);
    }
    match &mut house.group {
        None => Err(Stop::OutOfMemory),
        Some(group) => heal_in(alloc, group, name),
    }
}

fn heal_in<P: Piece + Drop>(
    alloc: Global,
    group: &mut Imported<P>,
    name: &Name,
) -> Result<Healed, Stop>
    requires kept { IsGroupKept P.seen group.old }
    requires alike { (p q : P) → is_some (P.seen p).told ≡ is_some (P.seen q).told }
    ensures ends { FinishEnds P.seen name.now result group.old group.new }
{
    let Some(vol) = begun(group, name) else {
        return Err(Stop::OutOfMemory);
    };
    let running = open(alloc, group, &vol)?;
    heal_open(alloc, group, *name, &vol, running)
}

/// Heals an open volume and records the end; where it is not healed to the end its pieces are put back.
fn heal_open<P: Piece + Drop>(
    alloc: Global,
    group: &mut Imported<P>,
    name: Name,
    vol: &Vol,
    running: Running<P>,
) -> Result<Healed, Stop>
    requires whole { IsVolume (volume_seen P.seen running.volume) }
    requires stuck { AreStuckVolumes P.seen group.old.public.stuck.items }
    requires place { vec_len group.old.public.stuck < vec_capacity group.old.public.stuck }
    requires alive { IsAlive P.seen group.old.base }
    requires going { group.old.base.lost ≡ None }
    requires absent { running_at group.old.public name ≡ None }
    ensures ends { OpenEnds P.seen name vol.now running result group.old group.new }
{
    let mut running = running;
    match heal(&mut running.volume) {
        Ok(healed) => end_open(alloc, group, name, vol, running, healed),
        Err(fault) => {
            put_back(alloc, &mut group.public, running);
            Err(copied(alloc, group.base.disks(), Err(fault)))
        }
    }
}
