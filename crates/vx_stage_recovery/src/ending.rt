//! The end of a recovery is recorded, and the volume runs.
ghost use Rattle.std.specs.Prelude.{◌≡◌, ◌<◌, ◌≤◌, length, IfOk, None, vec_len, vec_capacity};
ghost use Rattle.vx_confdb.specs.Groups.{IsAlive};
ghost use Rattle.vx_group_start.specs.Laying.{AreStuckVolumes};
ghost use Rattle.vx_lending.specs.Public.{running_at};
ghost use Rattle.vx_stage_changes.specs.Planning.{IsPlanned};
ghost use Rattle.vx_stage_recovery.specs.Ending.{EndEnds};
ghost use Rattle.vx_state_edits.specs.Edits.{recovered_edits};
ghost use Rattle.vx_volume.specs.Volume.{IsVolume, volume_seen};

use std::alloc::Global;
use vx_base::OutOfMemory;
use vx_group_recover::Healed;
use vx_house::{Imported, Stop};
use vx_lending::Running;
use vx_names::Name;
use vx_objects::{Config, Vol};
use vx_piece::Piece;
use vx_stage_changes::{NextConfig, planned};
use vx_stage_volumes::{put_back, record_start};
use vx_state_edits::recovered_edits;

/// Records the end of the recovery of an open volume, by what was told as it was healed; so it runs. Where memory is wanting before
/// anything is written its pieces are put back.
pub(crate) fn end_open<P: Piece + Drop>(
    alloc: Global,
    group: &mut Imported<P>,
    name: Name,
    vol: &Vol,
    running: Running<P>,
    healed: Healed,
) -> Result<Healed, Stop>
    requires whole { IsVolume (volume_seen P.seen running.volume) }
    requires stuck { AreStuckVolumes P.seen group.old.public.stuck.items }
    requires place { vec_len group.old.public.stuck < vec_capacity group.old.public.stuck }
    requires alive { IsAlive P.seen group.old.base }
    requires going { group.old.base.lost ≡ None }
    requires absent { running_at group.old.public name ≡ None }
    ensures ends { EndEnds P.seen name vol.now running healed result group.old group.new }
{
    let Ok(next) = planned_end(alloc, &group.config, vol, healed.marks) else {
        put_back(alloc, &mut group.public, running);
        return Err(Stop::OutOfMemory);
    };
    record_start(alloc, group, name, running, next)?;
    Ok(healed)
}

/// What the end records, by these marks. A text that would be too long is not found here, since the longest was tested before; were it,
/// memory is said to be wanting.
fn planned_end(
    alloc: Global,
    config: &Config,
    vol: &Vol,
    marks: u64,
) -> Result<NextConfig, OutOfMemory>
    ensures planned { IfOk result (IsPlanned (recovered_edits config.now vol.now marks) config.now) }
    ensures short { IfOk result (λ next. length next.text.items ≤ 522240) }
{
    let edits = recovered_edits(alloc, config, vol, marks)?;
    match planned(alloc, config, &edits) {
        Ok(next) => Ok(next),
        Err(_) => Err(OutOfMemory),
    }
}
