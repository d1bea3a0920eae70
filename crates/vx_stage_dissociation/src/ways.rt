//! What has to be done before a plex leaves its volume.
ghost use Rattle.std.specs.Prelude.{◌≡◌, true, false};
ghost use Rattle.vx_config_parts.specs.declared.vol.Vol.{Vol};
ghost use Rattle.vx_stages.specs.Tests.{is_data};
ghost use Rattle.vx_stages.specs.Leaving.{is_asked, way_of as world_way_of};
ghost use Rattle.vx_stage_dissociation.specs.Ways.{as_way};

use vx_config_parts::{PlexKind, VolState};
use vx_objects::{Plex, Vol};

/// How a plex is taken out of its volume: by its record alone; out of a running volume, whose log gives up the copy that lies on it, if there is
/// one; out of one that comes to rest; or out of one that does not run, whose log says which regions miss something.
#[derive(Clone, Copy, Debug, PartialEq, Eq)]
pub(crate) enum LeavingWay {
    ByRecord,
    FromLog,
    FromRest,
    ByLog,
}

/// The way of a plex of the volume, which runs or not.
pub(crate) fn way_of(plex: &Plex, runs: bool, vol: &Vol) -> LeavingWay
    ensures { as_way result ≡ world_way_of (is_data plex.now.kind) runs vol.now }
{
    if plex.kind == PlexKind::Data {
        data_way(runs, vol)
    } else {
        log_way(runs)
    }
}

fn data_way(runs: bool, vol: &Vol) -> LeavingWay
    ensures { as_way result ≡ world_way_of true runs vol.now }
{
    if runs {
        LeavingWay::FromRest
    } else if is_asked(vol) {
        LeavingWay::ByLog
    } else {
        LeavingWay::ByRecord
    }
}

fn log_way(runs: bool) -> LeavingWay
    ensures { (v : Vol) → as_way result ≡ world_way_of false runs v }
{
    if runs {
        LeavingWay::FromLog
    } else {
        LeavingWay::ByRecord
    }
}

/// A volume that was started before has a log to ask.
fn is_asked(vol: &Vol) -> bool
    ensures { result ≡ is_asked vol.now }
{
    vol.dco.is_some() && vol.state != VolState::Empty
}
