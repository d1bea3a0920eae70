//! A stop is tested before anything is written: so is the longest text that it may have.
ghost use Rattle.std.specs.Prelude.{◌≡◌, OnOk, IfOk, IfErr};
ghost use Rattle.vx_image.specs.UsedPlexes.{IsVolOf};
ghost use Rattle.vx_stages.specs.Stopping.{is_active};
ghost use Rattle.vx_state_edits.specs.Edits.{stop_edits};
ghost use Rattle.vx_state_texts.specs.Texts.{all_maps};
ghost use Rattle.vx_stage_volumes.specs.Stopping.{Fits, IsReadyToStop, IsStopTooLong, IsUnready};

use std::alloc::Global;
use vx_answers::Refusal;
use vx_house::{Imported, Stop, refused};
use vx_names::Name;
use vx_objects::{Config, Vol, VolState};
use vx_piece::Piece;
use vx_stage_changes::{planned, volume_in};
use vx_state_edits::laws::each_change_is_fine;
use vx_state_edits::stop_edits;

/// A stop after which each plex of a volume may miss something has the longest text.
const ALL_MAPS: u64 = u64::MAX;

/// The volume of the name, where it may be stopped.
pub(crate) fn ready<P: Piece>(alloc: Global, group: &Imported<P>, name: &Name) -> Result<Vol, Stop>
    ensures ready { IfOk result (IsReadyToStop name.now group.now) }
    ensures unready { IfErr result (IsUnready name.now group.now) }
{
    let Some(vol) = volume_in(group.config.volumes.as_slice(), name) else {
        return refused(Refusal::NoObject(*name));
    };
    if !is_active(vol.state) || !group.public.running.contains_key(name) {
        return refused(Refusal::VolState(vol.state));
    }
    fits(alloc, &group.config, &vol)?;
    Ok(vol)
}

fn is_active(state: VolState) -> bool
    ensures { result ≡ is_active state }
{
    match state {
        VolState::Active => true,
        VolState::Empty | VolState::Clean | VolState::NeedSync | VolState::Sync => false,
    }
}

/// The longest text that the stop of a recorded volume may have is short enough.
fn fits(alloc: Global, config: &Config, vol: &Vol) -> Result<(), Stop>
    requires recorded { IsVolOf config.now vol.now }
    ensures fits { OnOk result (Fits (stop_edits config.now vol.now all_maps) config.now) }
    ensures long { IfErr result (IsStopTooLong vol.now config.now) }
{
    each_change_is_fine();
    let Ok(edits) = stop_edits(alloc, config, vol, ALL_MAPS) else {
        return Err(Stop::OutOfMemory);
    };
    match planned(alloc, config, &edits) {
        Ok(_) => Ok(()),
        Err(stop) => Err(stop),
    }
}
