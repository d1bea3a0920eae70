//! A plex of a configuration, and what is to be committed where it gets another state.
ghost use Rattle.std.specs.Prelude.{◌≡◌, IfErr, IfOk};
ghost use Rattle.vx_image.specs.Bytes.{map_or_zero};
ghost use Rattle.vx_stages.specs.Logging.{AreEditsRefused};
ghost use Rattle.vx_stages.specs.Plexes.{plex_in, state_edits};
ghost use Rattle.vx_stage_changes.specs.Planning.{IsPlanned};
ghost use Rattle.vx_stage_mirrors.specs.Planned.{EndsAs};

use std::alloc::Global;
use vx_config_parts::{PlexState, same};
use vx_house::Stop;
use vx_names::Name;
use vx_objects::{Config, Edit, Plex};
use vx_stage_changes::{NextConfig, planned};

/// The plex of the name in a list of them.
pub fn plex_in(plexes: &[Plex], name: &Name) -> Option<Plex>
    ensures { result ≡ plex_in name.now plexes.now }
{
    plexes.iter().find(|plex| same(&plex.name, name)).copied()
}

/// What is to be committed where the plex of the volume of this name gets the state.
pub(crate) fn planned_state(
    alloc: Global,
    config: &Config,
    vol: &Name,
    plex: &Plex,
    state: PlexState,
) -> Result<NextConfig, Stop>
    ensures planned { IfOk result (IsPlanned (state_edits vol.now plex.now state) config.now) }
    ensures unplanned { IfErr result (EndsAs (AreEditsRefused config.now (state_edits vol.now plex.now state))) }
{
    let edits = [Edit::SetPlex {
        plex: plex.name,
        vol: Some(*vol),
        state,
        map: plex.map,
    }];
    planned(alloc, config, &edits)
}

/// The map of a plex; that of the plex of a volume without a log is 0.
pub fn map_or_zero(map: Option<u8>) -> u8
    ensures { result ≡ map_or_zero map }
{
    map.unwrap_or(0)
}
