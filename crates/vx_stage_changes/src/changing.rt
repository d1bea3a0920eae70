//! A change of the imported group's configuration.
ghost use Rattle.vx_house.specs.Goes.{IsReady, StageGoes};
ghost use Rattle.vx_house.specs.Holders.{holders, AreHeld};
ghost use Rattle.vx_house.specs.Scene.{Shelved};
ghost use Rattle.vx_house.specs.View.{KeepsHouse, IsGroupKept, at};
ghost use Rattle.std.specs.Prelude.{◌+◌, ◌^◌, ◌<◌, ◌≤◌, List, length, OnOk};
ghost use Rattle.vx_stages.specs.declared.stage.Stage.TheVariants as stages;
ghost use Rattle.vx_script_words.specs.declared.value.DiskAt.{DiskAt};
ghost use Rattle.vx_stage_changes.specs.Changing.{ChangeEnds, ChangeEndsBy};
ghost use Rattle.vx_confdb.specs.Texts.{text_of};
ghost use Rattle.vx_stage_changes.specs.Planning.{change_edits, IsUnplannedBy};

use crate::commit;
use crate::planning::{NextConfig, edits_of, planned_growing};
use std::alloc::Global;
use vx_answers::Refusal;
use vx_house::{House, Imported, Stop, refused};
use vx_objects::Edit;
use vx_piece::Piece;
use vx_stages::Change;

/// Changes the configuration of the imported group, and commits it.
pub fn change<P: Piece>(alloc: Global, house: &mut House<P>, change: Change) -> Result<(), Stop>
    requires keeps { KeepsHouse P.seen house.old }
    ensures goes { (disks : List DiskAt) (shelf : Shelved) → IsReady P.seen (stages.Change change) disks house.old → AreHeld shelf.held (holders P.seen house.old) → StageGoes P.seen (stages.Change change) disks result (at shelf house.old) (at shelf house.new) }
{
    match &mut house.group {
        None => refused(Refusal::NoGroup(None)),
        Some(group) => change_in(alloc, group, change),
    }
}

fn change_in<P: Piece>(alloc: Global, group: &mut Imported<P>, change: Change) -> Result<(), Stop>
    requires kept { IsGroupKept P.seen group.old }
    ensures ends { ChangeEnds P.seen (change_edits change group.old.config) result group.old group.new }
{
    let Ok(edits) = edits_of(alloc, change, &group.config) else {
        return Err(Stop::OutOfMemory);
    };
    commit_edits(alloc, group, &edits)
}

/// Applies the edits to the configuration of a group, and commits it.
pub fn commit_edits<P: Piece>(
    alloc: Global,
    group: &mut Imported<P>,
    edits: &[Edit],
) -> Result<(), Stop>
    requires kept { IsGroupKept P.seen group.old }
    ensures ends { ChangeEnds P.seen edits.now result group.old group.new }
{
    commit_growing(alloc, group, edits, 0)
}

/// Applies the edits to the configuration of a group, and commits it, where its text has room for so many bytes, by which later commits
/// of the command make it longer.
pub fn commit_growing<P: Piece>(
    alloc: Global,
    group: &mut Imported<P>,
    edits: &[Edit],
    more: u64,
) -> Result<(), Stop>
    requires kept { IsGroupKept P.seen group.old }
    requires few { more < 2 ^ 63 }
    ensures ends { ChangeEndsBy P.seen (IsUnplannedBy more edits.now group.old.config) edits.now result group.old group.new }
    ensures fits { OnOk result (length (text_of group.new.base.text) + more ≤ 522240) }
{
    let NextConfig { config, text } = planned_growing(alloc, &group.config, edits, more)?;
    commit(alloc, &mut group.base, &text)?;
    group.config = config;
    Ok(())
}
