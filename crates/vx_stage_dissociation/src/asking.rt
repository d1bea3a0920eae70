//! A data plex leaves a volume that does not run, whose log is asked before.
ghost use Rattle.std.specs.Prelude.{◌≡◌, ◌<◌, true, is_some, IfErr, IfOk, vec_len, vec_capacity};
ghost use Rattle.vx_house.specs.View.{IsGroupKept};
ghost use Rattle.vx_image.specs.UsedPlexes.{IsVolOf};
ghost use Rattle.vx_stages.specs.Leaving.{ByLog};
ghost use Rattle.vx_stage_volumes.specs.Disks.{have_disks};
ghost use Rattle.vx_stage_volumes.specs.Opening.{IsFreeIn, IsOpenGroup, IsUnopenedIn, good_of};
ghost use Rattle.vx_stage_dissociation.specs.Asking.{AsksIn, unspared};
ghost use Rattle.vx_stage_dissociation.specs.Planned.{IsLeavingPlanned};
ghost use Rattle.vx_stage_dissociation.specs.Going.{EachHouseLeaves};

use std::alloc::Global;
use vx_answers::{End, Refusal};
use vx_house::{Imported, Stop, each_idle_volume_is_free, refused};
use vx_names::Name;
use vx_objects::{Plex, Vol};
use vx_piece::Piece;
use vx_stage_changes::NextConfig;
use vx_stage_mirrors::{commit_next, map_or_zero};
use vx_stage_volumes::{each_piece_ends, open_in, prepare, put_back};

/// The plex leaves the volume by a commit, once the log of that is read and says that each region has another plex that misses nothing there.
/// The log may be written to so that its copies come nearer to one another, also where the command ends here.
pub(crate) fn leave_asked<P: Piece + Drop>(
    alloc: Global,
    group: &mut Imported<P>,
    vol: &Vol,
    plex: &Plex,
    next: NextConfig,
) -> Result<(), Stop>
    requires kept { IsGroupKept P.seen group.old }
    requires alike { (p q : P) → is_some (P.seen p).told ≡ is_some (P.seen q).told }
    requires planned { IsLeavingPlanned P.seen ByLog vol.now plex.now next group.old }
    ensures goes { EachHouseLeaves P.seen ByLog vol.now plex.now next result group.old group.new }
{
    each_piece_ends::<P>();
    if prepare(alloc, group).is_err() {
        return Err(Stop::OutOfMemory);
    }
    each_idle_volume_is_free(group);
    match ask_log(alloc, group, vol, map_or_zero(plex.map)) {
        Ok(false) => commit_next(alloc, group, next),
        Ok(true) => refused(Refusal::OnlyPlex(plex.name)),
        Err(stop) => Err(unspared(plex.name, stop)),
    }
}

/// Whether some region of the volume has no other plex than that of this map which misses nothing, by its log. The volume is opened for that,
/// with all its plexes, and its pieces are put back.
fn ask_log<P: Piece + Drop>(
    alloc: Global,
    group: &mut Imported<P>,
    vol: &Vol,
    map: u8,
) -> Result<bool, Stop>
    requires kept { IsGroupKept P.seen group.old }
    requires parted { IsOpenGroup P.seen group.old }
    requires of { IsVolOf group.old.config vol.now }
    requires free { have_disks group.old.base.disks.items (good_of P.seen group.old) group.old.config.disks ≡ true → IsFreeIn P.seen group.old vol.now }
    requires room { vec_len group.old.public.stuck < vec_capacity group.old.public.stuck }
    ensures asks { IfOk result (λ needed. AsksIn P.seen vol.now map needed group.old group.new) }
    ensures unopened { IfErr result (IsUnopenedIn P.seen vol.now group.old group.new) }
{
    let running = open_in(alloc, group, vol)?;
    let needed = running.volume.needs_plex(map);
    put_back(alloc, &mut group.public, running);
    Ok(needed)
}

/// Where a region has no plex at all that misses nothing, it has none without the plex either.
fn unspared(plex: Name, stop: Stop) -> Stop
    ensures { result ≡ unspared plex stop }
{
    match stop {
        Stop::Ended(End::Refused(Refusal::NoCurrent(_))) => {
            Stop::Ended(End::Refused(Refusal::OnlyPlex(plex)))
        }
        other => other,
    }
}
