//! What is to be committed for new logs, and for logs that go.
ghost use Rattle.std.specs.Prelude.{◌≡◌, IfErr, IfOk, Some, map as map_of, true};
ghost use Rattle.std.specs.List.{filter};
ghost use Rattle.vx_config_parts.specs.Objects.{is_log_plex_of};
ghost use Rattle.vx_image.specs.UsedPlexes.{IsVolOf};
ghost use Rattle.vx_new_volumes.specs.Logs.{logs_request};
ghost use Rattle.vx_new_volumes.specs.Rule.{is_request};
ghost use Rattle.vx_objects.specs.declared.edit.Edit.TheVariants.{RemovePlex, SetPlex};
ghost use Rattle.vx_stages.specs.Logging.{AreLogsUnplanned, prepare_edits, unprepare_edits};
ghost use Rattle.vx_stage_mirrors.specs.Planned.{EndsAs};
ghost use Rattle.vx_stage_mirrors.specs.PlannedLogs.{AreLogsPlanned, IsLossPlanned, IsLossUnplanned};

use crate::log_laying::{LaidLogs, laid_logs};
use std::alloc::Global;
use vx_base::OutOfMemory;
use vx_config_parts::{PlexKind, refers};
use vx_group_edits::each_volume_has_a_lowest_plex;
use vx_house::Stop;
use vx_names::Name;
use vx_new_records::lowest_plex;
use vx_new_volumes::NewLogs;
use vx_objects::{Config, Dco, Edit, Listed, Plex, Vol};
use vx_stage_changes::{NextConfig, planned};

/// The maps of a DCO.
const MAPS: u32 = 32;

/// What is to be committed for new logs of the volume, which passes the tests before the plan.
pub(crate) fn planned_logs(
    alloc: Global,
    config: &Config,
    good: u32,
    vol: &Vol,
    new: &NewLogs,
) -> Result<NextConfig, Stop>
    requires recorded { IsVolOf config.now vol.now }
    requires request { is_request (logs_request vol.now new.now.count new.now.region) ≡ true }
    ensures planned { IfOk result (AreLogsPlanned config.now good vol.now new.now) }
    ensures unplanned { IfErr result (EndsAs (AreLogsUnplanned config.now good vol.now new.now)) }
{
    let laid = laid_logs(alloc, config, good, vol, new)?;
    let edits = prepare_edits(vol, new, laid);
    planned(alloc, config, &edits)
}

/// The volume gets its regions, the logs, a DCO, and its data plex the first map.
fn prepare_edits(vol: &Vol, new: &NewLogs, laid: LaidLogs) -> [Edit; 4]
    ensures { result ≡ prepare_edits vol.now new.now laid.dco laid.plex laid.records.items }
{
    let LaidLogs { dco, plex, records } = laid;
    [
        Edit::SetRegion {
            vol: vol.name,
            region: new.region.unwrap_or(vol.region),
        },
        Edit::Make(Listed::from_vec(records)),
        Edit::AddDco(Dco {
            name: dco,
            vol: vol.name,
            maps: MAPS,
        }),
        set_map(vol, &plex, Some(0)),
    ]
}

/// The data plex gets this map, or none.
fn set_map(vol: &Vol, plex: &Plex, map: Option<u8>) -> Edit
    ensures { result ≡ SetPlex plex.now.name (Some vol.now.name) plex.now.state map }
{
    Edit::SetPlex {
        plex: plex.name,
        vol: Some(vol.name),
        state: plex.state,
        map,
    }
}

/// What is to be committed where the volume loses its logs and this DCO, which nothing needs.
pub(crate) fn planned_loss(
    alloc: Global,
    config: &Config,
    vol: &Vol,
    dco: Name,
) -> Result<NextConfig, Stop>
    requires recorded { IsVolOf config.now vol.now }
    ensures planned { IfOk result (IsLossPlanned config.now vol.now dco) }
    ensures unplanned { IfErr result (EndsAs (IsLossUnplanned config.now vol.now dco)) }
{
    each_volume_has_a_lowest_plex();
    let Ok(group) = config.objects(alloc) else {
        return Err(Stop::OutOfMemory);
    };
    let plex = lowest_plex(&group, &vol.name).unwrap();
    let Ok(edits) = unprepare_edits(alloc, config, vol, dco, &plex) else {
        return Err(Stop::OutOfMemory);
    };
    planned(alloc, config, &edits)
}

/// The logs go, and the DCO, and the data plex has no map.
fn unprepare_edits(
    alloc: Global,
    config: &Config,
    vol: &Vol,
    dco: Name,
    plex: &Plex,
) -> Result<Vec<Edit>, OutOfMemory>
    ensures { IfOk result (λ edits. edits.items ≡ unprepare_edits config.now vol.now dco plex.now) }
{
    let mut edits = removals(alloc, config.plexes.as_slice(), &vol.name)?;
    edits.push(Edit::RemoveDco(dco))?;
    edits.push(set_map(vol, plex, None))?;
    Ok(edits)
}

/// The log plexes of the volume go.
fn removals(alloc: Global, plexes: &[Plex], vol: &Name) -> Result<Vec<Edit>, OutOfMemory>
    ensures { IfOk result (λ edits. edits.items ≡ map_of (λ (p : Plex). RemovePlex p.name) (filter (is_log_plex_of vol.now) plexes.now)) }
{
    let mut edits = Vec::new(alloc);
    for plex in plexes {
        if refers(&plex.vol, vol) && plex.kind == PlexKind::Log {
            edits.push(Edit::RemovePlex(plex.name))?;
        }
    }
    Ok(edits)
}
