//! A running volume of the imported group is stopped.
ghost use Rattle.std.specs.Prelude.{◌≡◌, is_some, List};
ghost use Rattle.vx_house.specs.Goes.{IsReady, StageGoes};
ghost use Rattle.vx_house.specs.Holders.{holders, AreHeld};
ghost use Rattle.vx_house.specs.Scene.{Shelved};
ghost use Rattle.vx_house.specs.View.{KeepsHouse, IsGroupKept, at};
ghost use Rattle.vx_image.specs.UsedPlexes.{IsVolOf};
ghost use Rattle.vx_stages.specs.declared.stage.Stage.TheVariants as stages;
ghost use Rattle.vx_script_words.specs.declared.value.DiskAt.{DiskAt};
ghost use Rattle.vx_state_edits.specs.Edits.{stop_edits};
ghost use Rattle.vx_state_texts.specs.Texts.{all_maps};
ghost use Rattle.vx_stage_volumes.specs.Stopping.{Fits, RecordEnds, StopEnds};

use crate::fitting::ready;
use crate::laying::lay;
use crate::opening::each_piece_ends;
use crate::resting::{rest, told};
use std::alloc::Global;
use vx_answers::Refusal;
use vx_group_stop::laws::each_rest_is_settled;
use vx_group_volumes::{each_record_changes_states, each_rest_runs_on};
use vx_house::{House, Imported, Stop, refused};
use vx_names::Name;
use vx_objects::Vol;
use vx_piece::Piece;
use vx_stage_changes::commit_edits;
use vx_state_edits::laws::{each_change_is_fine, each_change_restates};
use vx_state_edits::stop_edits;
use vx_state_texts::{each_mask_is_within_all, each_stop_is_no_longer};
use vx_volume_laws::lives::each_left_volume_stands;

/// Stops the volume of the name, which runs: brings it to rest, commits its new states, and takes it out of the running ones. A text that
/// may be too long is refused before anything is written. Where the commit is not done the volume runs still, at rest; so it may after
/// want of memory.
pub fn stop<P: Piece + Drop>(alloc: Global, house: &mut House<P>, vol: &Name) -> Result<(), Stop>
    requires keeps { KeepsHouse P.seen house.old }
    requires alike { (p q : P) → is_some (P.seen p).told ≡ is_some (P.seen q).told }
    ensures goes { (disks : List DiskAt) (shelf : Shelved) → IsReady P.seen (stages.Stop vol.now) disks house.old → AreHeld shelf.held (holders P.seen house.old) → StageGoes P.seen (stages.Stop vol.now) disks result (at shelf house.old) (at shelf house.new) }
{
    each_rest_runs_on();
    each_rest_is_settled();
    each_left_volume_stands();
    each_record_changes_states();
    each_change_restates();
    each_piece_ends::<P>();
    match &mut house.group {
        None => refused(Refusal::NoGroup(None)),
        Some(group) => stop_in(alloc, group, vol),
    }
}

fn stop_in<P: Piece + Drop>(alloc: Global, group: &mut Imported<P>, vol: &Name) -> Result<(), Stop>
    requires kept { IsGroupKept P.seen group.old }
    requires alike { (p q : P) → is_some (P.seen p).told ≡ is_some (P.seen q).told }
    ensures ends { StopEnds P.seen vol.now result group.old group.new }
{
    let of = ready(alloc, group, vol)?;
    if group.public.stuck.reserve(1).is_err() {
        return Err(Stop::OutOfMemory);
    }
    let marks = match rest(&mut group.public.running, vol) {
        Ok(marks) => marks,
        Err(fault) => return Err(told(alloc, group.base.disks(), fault)),
    };
    record(alloc, group, &of, marks)?;
    lay(alloc, &mut group.public, vol);
    Ok(())
}

/// Commits the states that the volume and its plexes have after the stop, where these maps are marked. No test refuses that.
fn record<P: Piece>(
    alloc: Global,
    group: &mut Imported<P>,
    vol: &Vol,
    marks: u64,
) -> Result<(), Stop>
    requires kept { IsGroupKept P.seen group.old }
    requires recorded { IsVolOf group.old.config vol.now }
    requires fits { Fits (stop_edits group.old.config vol.now all_maps) group.old.config }
    ensures ends { RecordEnds P.seen (stop_edits group.old.config vol.now marks) result group.old group.new }
{
    each_change_is_fine();
    each_stop_is_no_longer();
    each_mask_is_within_all();
    let Ok(edits) = stop_edits(alloc, &group.config, vol, marks) else {
        return Err(Stop::OutOfMemory);
    };
    commit_edits(alloc, group, &edits)
}
