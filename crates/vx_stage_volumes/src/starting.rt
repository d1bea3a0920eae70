//! The stage that starts a volume of the imported group.
ghost use Rattle.std.specs.Prelude.{◌≡◌, is_some, IfErr, IfOk, IsErrAnd, List};
ghost use Rattle.vx_image.specs.UsedPlexes.{IsVolOf};
ghost use Rattle.vx_stages.specs.Starting.{may_start};
ghost use Rattle.vx_stages.specs.declared.stage.Stage.TheVariants as stages;
ghost use Rattle.vx_script_words.specs.declared.value.DiskAt.{DiskAt};
ghost use Rattle.vx_house.specs.Goes.{IsReady, StageGoes};
ghost use Rattle.vx_house.specs.Holders.{holders, AreHeld};
ghost use Rattle.vx_house.specs.Scene.{Shelved};
ghost use Rattle.vx_house.specs.View.{KeepsHouse, IsGroupKept, at};
ghost use Rattle.vx_stage_volumes.specs.Starting.{IsPlannedStart, IsRefusedStart, StartEnds};

use crate::early::test_early;
use crate::opening::{each_piece_ends, open_in, prepare};
use crate::recording::{record_start, resync};
use std::alloc::Global;
use vx_answers::Refusal;
use vx_config_parts::VolState;
use vx_group_start::is_fresh;
use vx_group_start::laws::each_fresh_region_is_missed;
use vx_house::{House, Imported, Stop, each_idle_volume_is_free, refused};
use vx_image::each_image_is_sound_or_not;
use vx_names::Name;
use vx_objects::{Config, Vol};
use vx_piece::Piece;
use vx_stage_changes::{NextConfig, planned, volume_in};
use vx_state_edits::laws::{each_change_is_fine, each_change_restates};
use vx_state_edits::start_edits;
use vx_volume_laws::each_empty_begins;
use vx_volume_laws::lives::{
    each_left_volume_stands, each_opening_runs, each_pass_runs_on, each_running_forgets,
};

/// Starts the volume of the name, and so ends the command. What is to be recorded is planned before anything is touched.
pub fn start<P: Piece + Drop>(alloc: Global, house: &mut House<P>, name: Name) -> Result<(), Stop>
    requires keeps { KeepsHouse P.seen house.old }
    requires alike { (p q : P) → is_some (P.seen p).told ≡ is_some (P.seen q).told }
    ensures goes { (disks : List DiskAt) (shelf : Shelved) → IsReady P.seen (stages.Start name) disks house.old → AreHeld shelf.held (holders P.seen house.old) → StageGoes P.seen (stages.Start name) disks result (at shelf house.old) (at shelf house.new) }
{
    each_piece_ends::<P>();
    each_change_restates();
    each_image_is_sound_or_not();
    each_empty_begins();
    each_opening_runs();
    each_left_volume_stands();
    each_running_forgets();
    each_pass_runs_on();
    each_fresh_region_is_missed();
    match &mut house.group {
        None => refused(Refusal::NoGroup(None)),
        Some(group) => start_in(alloc, group, name),
    }
}

fn start_in<P: Piece + Drop>(alloc: Global, group: &mut Imported<P>, name: Name) -> Result<(), Stop>
    requires kept { IsGroupKept P.seen group.old }
    requires alike { (p q : P) → is_some (P.seen p).told ≡ is_some (P.seen q).told }
    ensures ends { IsErrAnd result (λ stop. StartEnds P.seen name stop group.old group.new) }
{
    let Some(vol) = volume_in(group.config.volumes.as_slice(), &name) else {
        return refused(Refusal::NoObject(name));
    };
    let next = planned_start(alloc, &group.config, group.base.good(), &vol)?;
    if prepare(alloc, group).is_err() {
        return Err(Stop::OutOfMemory);
    }
    each_idle_volume_is_free(group);
    let running = open_in(alloc, group, &vol)?;
    record_start(alloc, group, name, running, next)?;
    Err(resync(alloc, group, &name, is_fresh(vol.state)))
}

/// What is to be recorded of a volume that is started, unless a test refuses it: by its state, by its logs and plexes on good disks, and by
/// the length of the text.
fn planned_start(alloc: Global, config: &Config, good: u32, vol: &Vol) -> Result<NextConfig, Stop>
    requires of { IsVolOf config.now vol.now }
    ensures planned { IfOk result (IsPlannedStart config.now good vol.now) }
    ensures refused { IfErr result (IsRefusedStart config.now good vol.now) }
{
    each_change_is_fine();
    if !may_start(vol.state) {
        return refused(Refusal::VolState(vol.state));
    }
    test_early(alloc, config, good, vol)?;
    let Ok(edits) = start_edits(alloc, config, vol) else {
        return Err(Stop::OutOfMemory);
    };
    planned(alloc, config, &edits)
}

/// Whether a volume in this state is started.
fn may_start(state: VolState) -> bool
    ensures { result ≡ may_start state }
{
    match state {
        VolState::Empty | VolState::Clean => true,
        VolState::Active | VolState::NeedSync | VolState::Sync => false,
    }
}
