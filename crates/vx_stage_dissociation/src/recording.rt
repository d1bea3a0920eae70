//! A plex leaves its volume, or goes, by its record alone.
ghost use Rattle.std.specs.Prelude.{◌≡◌, true, None};
ghost use Rattle.vx_house.specs.View.{IsGroupKept};
ghost use Rattle.vx_stages.specs.Leaving.{ByRecord};
ghost use Rattle.vx_stage_dissociation.specs.Planned.{IsLeavingPlanned, IsPlanFor};
ghost use Rattle.vx_stage_dissociation.specs.Going.{EachHouseLeaves, EachHouseRemoves};

use std::alloc::Global;
use vx_house::{Imported, Stop};
use vx_objects::{Plex, Vol};
use vx_piece::Piece;
use vx_stage_changes::NextConfig;
use vx_stage_mirrors::commit_next;

/// The plex leaves the volume once that is committed: a data plex of one that was never started, or a log plex of one that does not run.
pub(crate) fn leave_recorded<P: Piece + Drop>(
    alloc: Global,
    group: &mut Imported<P>,
    vol: &Vol,
    plex: &Plex,
    next: NextConfig,
) -> Result<(), Stop>
    requires kept { IsGroupKept P.seen group.old }
    requires planned { IsLeavingPlanned P.seen ByRecord vol.now plex.now next group.old }
    ensures goes { EachHouseLeaves P.seen ByRecord vol.now plex.now next result group.old group.new }
{
    let _ = vol;
    let _ = plex;
    commit_next(alloc, group, next)
}

/// The plex, which is of no volume, is removed once that is committed.
pub(crate) fn remove_alone<P: Piece + Drop>(
    alloc: Global,
    group: &mut Imported<P>,
    plex: &Plex,
    next: NextConfig,
) -> Result<(), Stop>
    requires kept { IsGroupKept P.seen group.old }
    requires planned { IsPlanFor P.seen true plex.now next group.old }
    requires alone { plex.now.vol ≡ None }
    ensures goes { EachHouseRemoves P.seen plex.now next result group.old group.new }
{
    let _ = plex;
    commit_next(alloc, group, next)
}
