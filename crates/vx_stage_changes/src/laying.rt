//! The records of a new volume.
ghost use Rattle.std.specs.Prelude.{◌≡◌, true, Ok, Err, Some, None, OnOk, IfOk, IfErr};
ghost use Rattle.vx_added_records.specs.Started.{is_either};
ghost use Rattle.vx_house.specs.View.{IsGroupKept};
ghost use Rattle.vx_new_volumes.specs.Records.{records_of};
ghost use Rattle.vx_new_volumes.specs.Tests.{new_fault};
ghost use Rattle.vx_new_volumes.specs.Planned.{IsPlanned};
ghost use Rattle.vx_new_volumes.specs.Rule.{is_request};
ghost use Rattle.vx_stage_changes.specs.Planning.{stop_by};
ghost use Rattle.vx_stages.specs.Sources.{IsLaid, IsUnlaid, plan_refusal};
ghost use Rattle.vx_stage_changes.specs.Judging.{HasNoPlan, IsFault, IsUnnamed, StopsAs, group_now};

use crate::broken;
use std::alloc::Global;
use std::collections::BTreeMap;
use vx_answers::Refusal;
use vx_config_parts::Limit;
use vx_house::{Imported, Stop, refused};
use vx_names::Name;
use vx_new_records::{new_fault, records_of};
use vx_new_volumes::{NewVolume, Plan, PlanFault, Request, plan};
use vx_objects::{Config, Object};
use vx_piece::Piece;

/// The records of the new volume, where the tests let it through and the good disks of the group have space for it.
pub(crate) fn laid<P: Piece, T>(
    alloc: Global,
    volumes: &BTreeMap<Name, T>,
    group: &Imported<P>,
    new: &NewVolume,
) -> Result<Vec<Object>, Stop>
    requires kept { IsGroupKept P.seen group.now }
    ensures laid { IfOk result (λ added. IsLaid (is_either volumes.now group.now.public.running) (group_now P.seen group.now) new.now added.items) }
    ensures unlaid { IfErr result (StopsAs (IsUnlaid (is_either volumes.now group.now.public.running) (group_now P.seen group.now) new.now)) }
{
    let Ok(objects) = group.config.objects(alloc) else {
        return Err(Stop::OutOfMemory);
    };
    let started = is_started(volumes, &group.public.running, &new.vol);
    tested(alloc, started, &objects, new)?;
    let plan = planned(alloc, &group.config, group.base.good(), &new.request)?;
    named(alloc, &objects, new, &plan)
}

/// Whether a volume of the name is started on a whole device, or runs.
fn is_started<T, U>(volumes: &BTreeMap<Name, T>, running: &BTreeMap<Name, U>, vol: &Name) -> bool
    ensures { result ≡ is_either volumes.now running.now vol.now }
{
    volumes.contains_key(vol) || running.contains_key(vol)
}

/// The tests before the plan.
fn tested(alloc: Global, started: bool, group: &[Object], new: &NewVolume) -> Result<(), Stop>
    ensures fine { OnOk result (new_fault started group.now new.now ≡ None) }
    ensures valid { OnOk result (is_request new.now.request ≡ true) }
    ensures faulty { IfErr result (StopsAs (IsFault (new_fault started group.now new.now))) }
{
    match new_fault(alloc, started, group, new) {
        Ok(None) => Ok(()),
        Ok(Some(fault)) => broken(&fault),
        Err(_) => Err(Stop::OutOfMemory),
    }
}

/// Where the plexes and logs of the volume go, on the good disks.
fn planned(alloc: Global, config: &Config, good: u32, request: &Request) -> Result<Plan, Stop>
    requires { is_request request.now ≡ true }
    ensures planned { IfOk result (λ plan. IsPlanned config.now good request.now (Ok plan)) }
    ensures unplanned { IfErr result (StopsAs (HasNoPlan config.now good request.now)) }
{
    match plan(alloc, config, good, request) {
        Ok(plan) => Ok(plan),
        Err(fault) => unplanned(fault),
    }
}

/// There is no plan.
fn unplanned<T>(fault: PlanFault) -> Result<T, Stop>
    ensures { result ≡ Err (stop_by (plan_refusal fault)) }
{
    match fault {
        PlanFault::OutOfMemory => Err(Stop::OutOfMemory),
        PlanFault::NoSpace { have, need } => refused(Refusal::NoSpace { have, need }),
        PlanFault::TooFewDisks(count) => refused(Refusal::TooFewDisks(count as u64)),
    }
}

/// The records that the plan makes, where each name is short enough.
fn named(alloc: Global, group: &[Object], new: &NewVolume, plan: &Plan) -> Result<Vec<Object>, Stop>
    ensures named { IfOk result (λ added. records_of group.now new.now plan.now ≡ Some added.items) }
    ensures unnamed { IfErr result (StopsAs (IsUnnamed group.now new.now plan.now)) }
{
    match records_of(alloc, group, new, plan) {
        Ok(Some(records)) => Ok(records),
        Ok(None) => refused(Refusal::Limit(Limit::Name)),
        Err(_) => Err(Stop::OutOfMemory),
    }
}
