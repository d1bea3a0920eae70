//! Where a mirror lies, and its records.
ghost use Rattle.std.specs.Prelude.{◌≡◌, true, Err, IfErr, IfOk, Ok};
ghost use Rattle.vx_image.specs.UsedPlexes.{IsVolOf};
ghost use Rattle.vx_stages.specs.Mirroring.{HasNoPlan, HasNoRecords, IsMirrorLaid, IsMirrorUnlaid, RefusedFor};
ghost use Rattle.vx_stage_mirrors.specs.Planned.{AreRecorded, EndsAs};
ghost use Rattle.vx_new_volumes.specs.Planned.{IsPlanned};
ghost use Rattle.vx_new_volumes.specs.Rule.{is_request};
ghost use Rattle.vx_stage_changes.specs.Planning.{stop_by};
ghost use Rattle.vx_stages.specs.Sources.{plan_refusal};

use std::alloc::Global;
use vx_answers::Refusal;
use vx_config_parts::Limit;
use vx_group_edits::{each_mirror_can_be_asked_for, each_volume_has_a_lowest_plex};
use vx_house::{Stop, refused};
use vx_names::Name;
use vx_new_records::{free_map, lowest_plex, mirror_of, mirror_request};
use vx_new_volumes::{Plan, PlanFault, Request, plan};
use vx_objects::{Config, Object, Plex, Vol};

/// The records of a mirror, and its map.
#[derive(Drop)]
pub(crate) struct LaidMirror {
    pub(crate) map: u8,
    pub(crate) records: Vec<Object>,
}

/// The records of a mirror of the volume on these disks, of which those count that are good.
pub(crate) fn laid_mirror(
    alloc: Global,
    config: &Config,
    good: u32,
    vol: &Vol,
    disks: &[Name],
) -> Result<LaidMirror, Stop>
    requires recorded { IsVolOf config.now vol.now }
    ensures laid { IfOk result (λ l. IsMirrorLaid config.now good vol.now disks.now l.map l.records.items) }
    ensures unlaid { IfErr result (EndsAs (RefusedFor (IsMirrorUnlaid config.now good vol.now disks.now))) }
{
    each_volume_has_a_lowest_plex();
    each_mirror_can_be_asked_for();
    let Ok(group) = config.objects(alloc) else {
        return Err(Stop::OutOfMemory);
    };
    let lowest = lowest_plex(&group, &vol.name).unwrap();
    let Ok(request) = mirror_request(alloc, &group, vol, &lowest, disks) else {
        return Err(Stop::OutOfMemory);
    };
    let plan = plan_of(alloc, config, good, &request)?;
    recorded(alloc, &group, vol, &lowest, &plan)
}

/// Where the plexes go that are asked for, on the good disks.
pub(crate) fn plan_of(
    alloc: Global,
    config: &Config,
    good: u32,
    request: &Request,
) -> Result<Plan, Stop>
    requires { is_request request.now ≡ true }
    ensures planned { IfOk result (λ plan. IsPlanned config.now good request.now (Ok plan)) }
    ensures unplanned { IfErr result (EndsAs (RefusedFor (HasNoPlan config.now good request.now))) }
{
    match plan(alloc, config, good, request) {
        Ok(plan) => Ok(plan),
        Err(fault) => unplanned(fault),
    }
}

/// There is no plan.
fn unplanned<T>(fault: PlanFault) -> Result<T, Stop>
    ensures { result ≡ Err (stop_by (plan_refusal fault)) }
{
    match fault {
        PlanFault::OutOfMemory => Err(Stop::OutOfMemory),
        PlanFault::NoSpace { have, need } => refused(Refusal::NoSpace { have, need }),
        PlanFault::TooFewDisks(count) => refused(Refusal::TooFewDisks(count as u64)),
    }
}

/// The records that the plan makes, where a map is free and each name is short enough.
fn recorded(
    alloc: Global,
    group: &[Object],
    vol: &Vol,
    lowest: &Plex,
    plan: &Plan,
) -> Result<LaidMirror, Stop>
    ensures recorded { IfOk result (AreRecorded group.now vol.now lowest.now plan.now) }
    ensures unrecorded { IfErr result (EndsAs (RefusedFor (HasNoRecords group.now vol.now lowest.now plan.now))) }
{
    let Some(map) = free_map(group, &vol.name) else {
        return refused(Refusal::NoMap(vol.name));
    };
    match mirror_of(alloc, group, vol, lowest, map, plan) {
        Ok(Some(records)) => Ok(LaidMirror { map, records }),
        Ok(None) => refused(Refusal::Limit(Limit::Name)),
        Err(_) => Err(Stop::OutOfMemory),
    }
}
