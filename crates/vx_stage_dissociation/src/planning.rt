//! What is to be committed where a plex leaves its volume.
ghost use Rattle.std.specs.Prelude.{◌≡◌, IfErr, IfOk};
ghost use Rattle.vx_stages.specs.Logging.{AreEditsRefused};
ghost use Rattle.vx_stage_changes.specs.Planning.{IsPlanned};
ghost use Rattle.vx_stage_mirrors.specs.Planned.{EndsAs};
ghost use Rattle.vx_stages.specs.Leaving.{leaving_edits};

use std::alloc::Global;
use vx_config_parts::PlexState;
use vx_house::Stop;
use vx_objects::{Config, Edit, Plex};
use vx_stage_changes::{NextConfig, planned};

/// What is to be committed where the plex is removed with its subdisks, or is of no volume.
pub(crate) fn planned_leaving(
    alloc: Global,
    config: &Config,
    plex: &Plex,
    remove: bool,
) -> Result<NextConfig, Stop>
    ensures planned { IfOk result (IsPlanned (leaving_edits remove plex.now) config.now) }
    ensures unplanned { IfErr result (EndsAs (AreEditsRefused config.now (leaving_edits remove plex.now))) }
{
    let edits = leaving_edits(plex, remove);
    planned(alloc, config, &edits)
}

fn leaving_edits(plex: &Plex, remove: bool) -> [Edit; 1]
    ensures { result ≡ leaving_edits remove plex.now }
{
    if remove {
        [Edit::RemovePlex(plex.name)]
    } else {
        [Edit::SetPlex {
            plex: plex.name,
            vol: None,
            state: PlexState::Empty,
            map: None,
        }]
    }
}
