//! A data plex of a running volume of the imported group is put into use.
ghost use Rattle.std.specs.Prelude.{◌≡◌, is_some, IsErrAnd, List};
ghost use Rattle.vx_script_words.specs.declared.value.DiskAt.{DiskAt};
ghost use Rattle.vx_house.specs.Goes.{IsReady, StageGoes};
ghost use Rattle.vx_house.specs.Holders.{holders, AreHeld};
ghost use Rattle.vx_house.specs.Scene.{Shelved};
ghost use Rattle.vx_house.specs.View.{IsGroupKept, KeepsHouse, at};
ghost use Rattle.vx_stages.specs.declared.stage.Stage.TheVariants as stages;
ghost use Rattle.vx_stage_mirrors.specs.Attaching.{IsAttachEnd};

use crate::att_testing::test_attach;
use crate::copy_plexes;
use crate::plex_states::{map_or_zero, planned_state};
use crate::switching::switch_plex;
use std::alloc::Global;
use vx_answers::Refusal;
use vx_change_laws::each_switch_runs_on;
use vx_config_parts::PlexState;
use vx_house::{House, Imported, Stop, refused};
use vx_names::Name;
use vx_piece::Piece;
use vx_stage_volumes::each_piece_ends;
use vx_volume_laws::lives::{each_left_volume_stands, each_pass_runs_on};

/// Puts the data plex into use in the running volume, and so ends the command: its state is committed, the volume writes to it, and what it
/// misses is copied to it. Where the commit is not done the volume runs on as it ran.
pub fn attach<P: Piece + Drop>(
    alloc: Global,
    house: &mut House<P>,
    vol: &Name,
    plex: &Name,
) -> Result<(), Stop>
    requires keeps { KeepsHouse P.seen house.old }
    requires alike { (p q : P) → is_some (P.seen p).told ≡ is_some (P.seen q).told }
    ensures goes { (disks : List DiskAt) (shelf : Shelved) → IsReady P.seen (stages.Attach vol.now plex.now) disks house.old → AreHeld shelf.held (holders P.seen house.old) → StageGoes P.seen (stages.Attach vol.now plex.now) disks result (at shelf house.old) (at shelf house.new) }
{
    each_piece_ends::<P>();
    each_pass_runs_on();
    each_switch_runs_on();
    each_left_volume_stands();
    match &mut house.group {
        None => refused(Refusal::NoGroup(None)),
        Some(group) => attach_in(alloc, group, vol, plex),
    }
}

fn attach_in<P: Piece + Drop>(
    alloc: Global,
    group: &mut Imported<P>,
    vol: &Name,
    name: &Name,
) -> Result<(), Stop>
    requires kept { IsGroupKept P.seen group.old }
    requires alike { (p q : P) → is_some (P.seen p).told ≡ is_some (P.seen q).told }
    ensures ends { IsErrAnd result (λ stop. IsAttachEnd P.seen vol.now name.now stop group.old group.new) }
{
    let runs = group.public.running.contains_key(vol);
    let (volume, plex) = test_attach(&group.config, group.base.good(), vol, name, runs)?;
    let next = planned_state(alloc, &group.config, &volume.name, &plex, PlexState::Active)?;
    let map = map_or_zero(plex.map);
    switch_plex(alloc, group, vol, map, true, next)?;
    Err(copy_plexes(alloc, group, vol, vx_mask::of(u32::from(map))))
}
