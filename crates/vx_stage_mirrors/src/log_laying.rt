//! Where new logs lie, and their records.
ghost use Rattle.std.specs.Prelude.{◌≡◌, true, IfErr, IfOk};
ghost use Rattle.vx_image.specs.UsedPlexes.{IsVolOf};
ghost use Rattle.vx_new_volumes.specs.Logs.{logs_request};
ghost use Rattle.vx_new_volumes.specs.Rule.{is_request};
ghost use Rattle.vx_stages.specs.Logging.{AreLogsUnlaid, log_state};
ghost use Rattle.vx_stages.specs.Mirroring.{RefusedFor};
ghost use Rattle.vx_stage_mirrors.specs.Planned.{EndsAs};
ghost use Rattle.vx_stage_mirrors.specs.PlannedLogs.{AreLaid, AreNamed, AreUnnamed};

use crate::laying::plan_of;
use std::alloc::Global;
use vx_answers::Refusal;
use vx_config_parts::Limit;
use vx_group_edits::each_volume_has_a_lowest_plex;
use vx_house::{Stop, refused};
use vx_names::Name;
use vx_new_records::{dco_name, logs_of, logs_request, lowest_plex};
use vx_new_volumes::{NewLogs, Plan};
use vx_objects::{Config, Object, Plex, PlexState, Vol, VolState};

/// The records of new logs and of their subdisks, the name of the DCO, and the data plex of the volume.
#[derive(Drop)]
pub(crate) struct LaidLogs {
    pub(crate) dco: Name,
    pub(crate) plex: Plex,
    pub(crate) records: Vec<Object>,
}

/// The records of new logs of the volume, which passes the tests before the plan; `good` are the slots whose disks are good.
pub(crate) fn laid_logs(
    alloc: Global,
    config: &Config,
    good: u32,
    vol: &Vol,
    new: &NewLogs,
) -> Result<LaidLogs, Stop>
    requires recorded { IsVolOf config.now vol.now }
    requires request { is_request (logs_request vol.now new.now.count new.now.region) ≡ true }
    ensures laid { IfOk result (AreLaid config.now good vol.now new.now) }
    ensures unlaid { IfErr result (EndsAs (RefusedFor (AreLogsUnlaid config.now good vol.now new.now))) }
{
    each_volume_has_a_lowest_plex();
    let Ok(group) = config.objects(alloc) else {
        return Err(Stop::OutOfMemory);
    };
    let plex = lowest_plex(&group, &vol.name).unwrap();
    let request = logs_request(alloc, vol, new.count, new.region);
    let plan = plan_of(alloc, config, good, &request)?;
    let (dco, records) = named(alloc, &group, vol, &plan)?;
    Ok(LaidLogs { dco, plex, records })
}

/// The name of the DCO and the records that the plan makes, where each name is short enough.
fn named(
    alloc: Global,
    group: &[Object],
    vol: &Vol,
    plan: &Plan,
) -> Result<(Name, Vec<Object>), Stop>
    ensures named { IfOk result (λ x. AreNamed group.now vol.now plan.now x.0 x.1.items) }
    ensures unnamed { IfErr result (EndsAs (RefusedFor (AreUnnamed group.now vol.now plan.now))) }
{
    let Ok(dco) = dco_name(alloc, &vol.name) else {
        return Err(Stop::OutOfMemory);
    };
    let Some(dco) = dco else {
        return refused(Refusal::Limit(Limit::Name));
    };
    match logs_of(alloc, group, vol, dco, plan, log_state(vol.state)) {
        Ok(Some(records)) => Ok((dco, records)),
        Ok(None) => refused(Refusal::Limit(Limit::Name)),
        Err(_) => Err(Stop::OutOfMemory),
    }
}

/// The state of new logs: those of a volume that was never started are empty as it is.
fn log_state(state: VolState) -> PlexState
    ensures { result ≡ log_state state }
{
    match state {
        VolState::Empty => PlexState::Empty,
        VolState::Clean | VolState::Active | VolState::NeedSync | VolState::Sync =>
            PlexState::Active,
    }
}
