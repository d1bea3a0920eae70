//! The tests of a mirror before it is planned.
ghost use Rattle.std.specs.Prelude.{◌≡◌, None, Some, IfErr, IfOk, OnOk};
ghost use Rattle.vx_stages.specs.Mirroring.{IsMirrorUnfit, RefusedFor, mirror_refusal, volume_refusal};
ghost use Rattle.vx_stage_mirrors.specs.Planned.{EndsAs};
ghost use Rattle.vx_stages.specs.Tests.{volume_in};

use std::alloc::Global;
use vx_answers::Refusal;
use vx_house::{Stop, refused};
use vx_names::Name;
use vx_new_records::{absent_disk, room_fault};
use vx_objects::{Config, Vol};
use vx_stage_changes::{broken, volume_in};

/// The volume of the name, where no test before the plan refuses a mirror of it on these disks; `runs` says whether it is started.
pub fn test_mirror(
    alloc: Global,
    config: &Config,
    name: &Name,
    disks: &[Name],
    runs: bool,
) -> Result<Vol, Stop>
    ensures found { IfOk result (λ vol. volume_in name.now config.now.volumes ≡ Some vol) }
    ensures passes { OnOk result (mirror_refusal runs config.now name.now disks.now ≡ None) }
    ensures refused { IfErr result (EndsAs (RefusedFor (IsMirrorUnfit runs config.now name.now disks.now))) }
{
    let Some(vol) = volume_in(config.volumes.as_slice(), name) else {
        return refused(Refusal::NoObject(*name));
    };
    test_volume(alloc, config, &vol, disks, runs)?;
    Ok(vol)
}

fn test_volume(
    alloc: Global,
    config: &Config,
    vol: &Vol,
    disks: &[Name],
    runs: bool,
) -> Result<(), Stop>
    ensures passes { OnOk result (volume_refusal runs config.now disks.now vol.now ≡ None) }
    ensures refused { IfErr result (EndsAs (RefusedFor (λ r. volume_refusal runs config.now disks.now vol.now ≡ Some r))) }
{
    let Ok(group) = config.objects(alloc) else {
        return Err(Stop::OutOfMemory);
    };
    let Ok(absent) = absent_disk(alloc, &group, disks) else {
        return Err(Stop::OutOfMemory);
    };
    if let Some(fault) = absent {
        return broken(&fault);
    }
    if !runs {
        return refused(Refusal::NotStarted(vol.name));
    }
    match room_fault(&group, vol) {
        Some(fault) => broken(&fault),
        None => Ok(()),
    }
}
