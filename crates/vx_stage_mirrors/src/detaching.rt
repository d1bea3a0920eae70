//! A data plex of a running volume goes out of use.
ghost use Rattle.std.specs.BTreeMap.{IsOrdered, get};
ghost use Rattle.std.specs.Cmp.Lexicographic.{slice_cmp};
ghost use Rattle.std.specs.Ordering.{nat_cmp};
ghost use Rattle.std.specs.Prelude.{◌≡◌, ◌≤◌, is_some, IsSomeAnd, IfSome, List, MatchBool, None, false, length};
ghost use Rattle.vx_confdb.specs.Groups.{IsAlive};
ghost use Rattle.vx_house.specs.Goes.{IsReady, StageGoes};
ghost use Rattle.vx_house.specs.Holders.{holders, AreHeld};
ghost use Rattle.vx_house.specs.Scene.{Shelved};
ghost use Rattle.vx_house.specs.View.{IsGroupKept, KeepsHouse, at};
ghost use Rattle.vx_lending.specs.Public.{running_at};
ghost use Rattle.vx_lending.specs.RegionsTaken.{is_among};
ghost use Rattle.vx_script_words.specs.declared.value.DiskAt.{DiskAt};
ghost use Rattle.vx_stages.specs.declared.stage.Stage.TheVariants as stages;
ghost use Rattle.vx_stage_mirrors.specs.Detaching.{DetachEnds, MayGoOff};
ghost use Rattle.vx_stage_mirrors.specs.Switching.{SwitchEnds};
ghost use Rattle.vx_volume.specs.Switching.{CanSpare, Needs};
ghost use Rattle.vx_volume.specs.Volume.{volume_seen};

use crate::committing::commit_next;
use crate::det_testing::test_detach;
use crate::plex_states::{map_or_zero, planned_state};
use crate::settling::settle;
use crate::switching::switch_plex;
use std::alloc::Global;
use std::collections::BTreeMap;
use vx_answers::Refusal;
use vx_change_laws::{each_firming_runs_on, each_switch_runs_on};
use vx_config_parts::PlexState;
use vx_house::{House, Imported, Stop, refused};
use vx_lending::Running;
use vx_names::Name;
use vx_piece::Piece;
use vx_stage_changes::NextConfig;
use vx_stage_volumes::each_piece_ends;
use vx_volume_laws::lives::{each_left_volume_stands, each_pass_runs_on, each_settling_settles};

/// Puts the data plex of the name, of a running volume, out of use. The volume comes to rest, and where each of its regions has another
/// plex that is current the state of the plex is committed; then it is written to no more. Where the commit is not done the volume runs
/// with the plex, at rest; so it may after want of memory.
pub fn detach<P: Piece + Drop>(alloc: Global, house: &mut House<P>, plex: &Name) -> Result<(), Stop>
    requires keeps { KeepsHouse P.seen house.old }
    requires alike { (p q : P) → is_some (P.seen p).told ≡ is_some (P.seen q).told }
    ensures goes { (disks : List DiskAt) (shelf : Shelved) → IsReady P.seen (stages.Detach plex.now) disks house.old → AreHeld shelf.held (holders P.seen house.old) → StageGoes P.seen (stages.Detach plex.now) disks result (at shelf house.old) (at shelf house.new) }
{
    each_piece_ends::<P>();
    each_pass_runs_on();
    each_settling_settles();
    each_firming_runs_on();
    each_switch_runs_on();
    each_left_volume_stands();
    match &mut house.group {
        None => refused(Refusal::NoGroup(None)),
        Some(group) => detach_in(alloc, group, plex),
    }
}

fn detach_in<P: Piece + Drop>(
    alloc: Global,
    group: &mut Imported<P>,
    name: &Name,
) -> Result<(), Stop>
    requires kept { IsGroupKept P.seen group.old }
    requires alike { (p q : P) → is_some (P.seen p).told ≡ is_some (P.seen q).told }
    ensures ends { DetachEnds P.seen name.now result group.old group.new }
{
    let (plex, vol) = test_detach(group, name)?;
    let next = planned_state(alloc, &group.config, &vol, &plex, PlexState::Stale)?;
    settle(alloc, group, &vol)?;
    let map = map_or_zero(plex.map);
    if needs_plex(&group.public.running, &vol, map) {
        return refused(Refusal::OnlyPlex(*name));
    }
    record_off(alloc, group, &vol, map, next)
}

/// Whether some region of the running volume of the name has no other plex that is current.
pub fn needs_plex<P: Piece>(running: &BTreeMap<Name, Running<P>>, name: &Name, map: u8) -> bool
    ensures { IfSome (get (slice_cmp nat_cmp) running.now name.now) (λ r. MatchBool result (Needs map (volume_seen P.seen r.volume)) (CanSpare map (volume_seen P.seen r.volume))) }
{
    match running.get(name) {
        Some(one) => one.volume.needs_plex(map),
        None => false,
    }
}

/// Commits the configuration in which the plex of this map is out of use, and then sets it off, if the volume was opened with it.
fn record_off<P: Piece + Drop>(
    alloc: Global,
    group: &mut Imported<P>,
    name: &Name,
    map: u8,
    next: NextConfig,
) -> Result<(), Stop>
    requires alive { IsAlive P.seen group.old.base }
    requires going { group.old.base.lost ≡ None }
    requires short { length next.text.items ≤ 522240 }
    requires may { IsSomeAnd (running_at group.old.public name.now) (MayGoOff P.seen map) }
    ensures ends { SwitchEnds P.seen name.now map false next result group.old group.new }
{
    stand_in_order(&group.public.running);
    if was_taken(&group.public.running, name, map) {
        switch_plex(alloc, group, name, map, false, next)
    } else {
        commit_next(alloc, group, next)
    }
}

/// Whether the running volume of the name was opened with the plex of this map.
fn was_taken<P: Piece>(running: &BTreeMap<Name, Running<P>>, name: &Name, map: u8) -> bool
    ensures { IfSome (get (slice_cmp nat_cmp) running.now name.now) (λ r. result ≡ is_among map r.form.maps.items) }
{
    match running.get(name) {
        Some(one) => one.form.maps.contains(&map),
        None => false,
    }
}

/// The running volumes stand in the order of their names: a law, as a function that does nothing and promises it.
fn stand_in_order<P: Piece>(running: &BTreeMap<Name, Running<P>>)
    ensures { IsOrdered (slice_cmp nat_cmp) running.now }
{
    let _ = running.len();
}
