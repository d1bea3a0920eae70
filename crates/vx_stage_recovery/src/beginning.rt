//! The recovery of a volume is recorded as begun.
ghost use Rattle.std.specs.Prelude.{◌≡◌};
ghost use Rattle.vx_house.specs.Holders.{holders, AreHeld};
ghost use Rattle.vx_house.specs.Scene.{Shelved};
ghost use Rattle.vx_house.specs.View.{KeepsHouse, IsGroupKept, at};
ghost use Rattle.vx_recovery.specs.Recovering.{StopsAtBegin, is_recovered};
ghost use Rattle.vx_recovery.specs.Steps.{HasBegun};
ghost use Rattle.vx_stage_recovery.specs.Beginning.{BeginEnds, unrefused};
ghost use Rattle.vx_stage_recovery.specs.Steps.{IsUnchanged, StepGoes};

use std::alloc::Global;
use vx_answers::End;
use vx_config_parts::VolState;
use vx_house::{House, Imported, Stop};
use vx_names::Name;
use vx_piece::Piece;
use vx_stage_changes::{commit_edits, volume_in};
use vx_stage_gates::is_started;
use vx_state_edits::laws::each_change_restates;
use vx_state_edits::recovery_edits;

/// Records that the recovery of the volume of the name is begun. It is one that does not run, and that ran as the power went or whose recovery
/// was begun before; of any other, memory is said to be wanting.
pub(crate) fn begin<P: Piece>(alloc: Global, house: &mut House<P>, name: &Name) -> Result<(), Stop>
    requires keeps { KeepsHouse P.seen house.old }
    ensures goes { (shelf : Shelved) → AreHeld shelf.held (holders P.seen house.old) → StepGoes P.seen (λ told. HasBegun name.now) (StopsAtBegin name.now) IsUnchanged result (at shelf house.old) (at shelf house.new) }
{
    each_change_restates();
    if is_started(house, name) {
        return Err(Stop::OutOfMemory);
    }
    match &mut house.group {
        None => Err(Stop::OutOfMemory),
        Some(group) => begin_in(alloc, group, name),
    }
}

/// Commits that. A text that would be too long is not found here, since the longest was tested before; were it, memory is said to be wanting.
fn begin_in<P: Piece>(alloc: Global, group: &mut Imported<P>, name: &Name) -> Result<(), Stop>
    requires kept { IsGroupKept P.seen group.old }
    ensures ends { BeginEnds P.seen name.now result group.old group.new }
{
    let Some(vol) = volume_in(group.config.volumes.as_slice(), name) else {
        return Err(Stop::OutOfMemory);
    };
    if !is_recovered(vol.state) {
        return Err(Stop::OutOfMemory);
    }
    let Ok(edits) = recovery_edits(alloc, &group.config, &vol) else {
        return Err(Stop::OutOfMemory);
    };
    unrefused(commit_edits(alloc, group, &edits))
}

/// The result, with want of memory in the place of a refusal.
fn unrefused(committed: Result<(), Stop>) -> Result<(), Stop>
    ensures { result ≡ unrefused committed }
{
    match committed {
        Err(Stop::Ended(End::Refused(_))) => Err(Stop::OutOfMemory),
        other => other,
    }
}

/// Whether a volume in this state is recovered.
pub(crate) fn is_recovered(state: VolState) -> bool
    ensures { result ≡ is_recovered state }
{
    match state {
        VolState::NeedSync | VolState::Sync => true,
        VolState::Empty | VolState::Clean | VolState::Active => false,
    }
}
