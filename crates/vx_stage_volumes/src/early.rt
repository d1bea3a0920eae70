//! What refuses the start of a volume before anything is touched.
ghost use Rattle.std.specs.Prelude.{◌≡◌, None, IfErr, OnOk};
ghost use Rattle.vx_image.specs.UsedPlexes.{IsVolOf};
ghost use Rattle.vx_stage_volumes.specs.Early.{has_current, refusal_here, refusal_of_form, IsRefusedEarly};

use std::alloc::Global;
use vx_answers::{End, Refusal};
use vx_group_start::is_fresh;
use vx_house::Stop;
use vx_lending::{VolumeForm, form_of};
use vx_objects::{Config, Vol};
use vx_volume::VolumeShape;

/// Tests whether the volume can be started by the configuration and the slots whose disks are good: a log of it has to be on good disks
/// where it has a DCO, and some plex has to be current.
pub fn test_early(alloc: Global, config: &Config, good: u32, vol: &Vol) -> Result<(), Stop>
    requires of { IsVolOf config.now vol.now }
    ensures passes { OnOk result (refusal_here config.now good vol.now ≡ None) }
    ensures refused { IfErr result (IsRefusedEarly config.now good vol.now) }
{
    let Ok(form) = form_of(alloc, config, good, vol, is_fresh(vol.state)) else {
        return Err(Stop::OutOfMemory);
    };
    match refusal_of_form(vol, &form) {
        None => Ok(()),
        Some(refusal) => Err(Stop::Ended(End::Refused(refusal))),
    }
}

fn refusal_of_form(vol: &Vol, form: &VolumeForm) -> Option<Refusal>
    ensures { result ≡ refusal_of_form vol.now form.now }
{
    if vol.dco.is_some() && form.logs.is_empty() {
        return Some(Refusal::NoLog(vol.name));
    }
    let fresh = is_fresh(vol.state);
    if (fresh || vol.dco.is_none()) && !has_current(fresh, &form.shape) {
        return Some(Refusal::NoCurrent(0));
    }
    None
}

/// Some plex may be current: of a volume that was never started the lowest, else any that is on.
fn has_current(fresh: bool, shape: &VolumeShape) -> bool
    ensures { result ≡ has_current fresh shape.now }
{
    if fresh {
        vx_mask::contains(shape.on, vx_mask::first(vx_mask::with(shape.on, shape.off)))
    } else {
        shape.on != 0
    }
}
