//! A running volume gets another log.
ghost use Rattle.std.specs.BTreeMap.{get};
ghost use Rattle.std.specs.Cmp.Lexicographic.{slice_cmp};
ghost use Rattle.std.specs.Ordering.{nat_cmp};
ghost use Rattle.std.specs.Prelude.{◌≡◌, IsSomeAnd};
ghost use Rattle.vx_volume.specs.Volume.{log_of};
ghost use Rattle.vx_joined_volumes.specs.Relogged.{IsFormRelogged};
ghost use Rattle.vx_stage_mirrors.specs.Relogging.{HasNewLog, MayRelog, RelogsOne};

use std::collections::BTreeMap;
use vx_layout::Layout;
use vx_lending::{Running, VolumeForm};
use vx_names::Name;
use vx_piece::Piece;
use vx_volume::{VolumeLog, VolumeShape};

/// Gives the running volume of the name, which has one data plex, this log on plexes that lie so, and answers the log that it had. Its plex
/// has number 0 then. It takes no memory.
pub(crate) fn relog<P: Piece + Drop>(
    running: &mut BTreeMap<Name, Running<P>>,
    name: &Name,
    log: VolumeLog<P>,
    logs: Vec<Layout>,
) -> VolumeLog<P>
    requires may { IsSomeAnd (get (slice_cmp nat_cmp) running.old name.now) (MayRelog P.seen log) }
    ensures relogs { RelogsOne P.seen name.now log logs.items running.old running.new }
    ensures was { IsSomeAnd (get (slice_cmp nat_cmp) running.old name.now) (λ r. result ≡ log_of r.volume) }
{
    match running.get_mut(name) {
        Some(one) => relog_one(one, log, logs),
        None => unreachable!(),
    }
}

fn relog_one<P: Piece + Drop>(
    one: &mut Running<P>,
    log: VolumeLog<P>,
    logs: Vec<Layout>,
) -> VolumeLog<P>
    requires may { MayRelog P.seen log one.old }
    ensures has { HasNewLog P.seen log logs.items one.old one.new }
    ensures was { result ≡ log_of one.old.volume }
{
    relog_form(&mut one.form, logs);
    one.volume.change_log(log)
}

/// Gives the form the logs that lie so. Its plexes have number 0.
fn relog_form(form: &mut VolumeForm, logs: Vec<Layout>)
    ensures { IsFormRelogged logs.items form.old form.new }
{
    form.shape = VolumeShape {
        on: vx_mask::of(0),
        off: 0,
        snaps: 0,
        ..form.shape
    };
    form.maps.fill(0);
    form.logs = logs;
}
