//! What is to be committed for a mirror.
ghost use Rattle.std.specs.Prelude.{IfErr, IfOk};
ghost use Rattle.vx_image.specs.UsedPlexes.{IsVolOf};
ghost use Rattle.vx_stages.specs.Mirroring.{IsMirrorUnplanned};
ghost use Rattle.vx_stage_mirrors.specs.Planned.{EndsAs, IsFirst, IsMirrorPlanned};

use crate::laying::laid_mirror;
use std::alloc::Global;
use vx_group_edits::each_laid_mirror_is_new;
use vx_house::Stop;
use vx_names::Name;
use vx_objects::{Config, Edit, Listed, Object, Plex, Vol};
use vx_stage_changes::{NextConfig, planned};

/// A mirror that is to be recorded.
#[derive(Drop)]
pub struct PlannedMirror {
    /// Its change map in the volume's DCO.
    pub map: u8,
    /// Its record.
    pub plex: Plex,
    /// The configuration with its records, and the text of that.
    pub next: NextConfig,
}

/// What is to be committed for a mirror of a recorded volume on these disks, or on any where none is named; `good` are the slots whose
/// disks are good.
pub fn planned_mirror(
    alloc: Global,
    config: &Config,
    good: u32,
    vol: &Vol,
    disks: &[Name],
) -> Result<PlannedMirror, Stop>
    requires recorded { IsVolOf config.now vol.now }
    ensures planned { IfOk result (IsMirrorPlanned config.now good vol.now disks.now) }
    ensures unplanned { IfErr result (EndsAs (IsMirrorUnplanned config.now good vol.now disks.now)) }
{
    each_laid_mirror_is_new();
    let laid = laid_mirror(alloc, config, good, vol, disks)?;
    let plex = first_plex(&laid.records);
    let edits = [Edit::Make(Listed::from_vec(laid.records))];
    let next = planned(alloc, config, &edits)?;
    Ok(PlannedMirror {
        map: laid.map,
        plex,
        next,
    })
}

/// The plex of the records of a mirror, which is the first of them.
fn first_plex(records: &[Object]) -> Plex
    requires some { (plex : Plex) × IsFirst plex records.now }
    ensures first { IsFirst result records.now }
{
    match records {
        [Object::PlexRecord(plex), ..] => *plex,
        _ => unreachable!(),
    }
}
