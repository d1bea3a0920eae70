//! The plexes of a mask of a running volume are copied to.
ghost use Rattle.std.specs.Prelude.{◌≡◌, is_some, IsSome};
ghost use Rattle.std.specs.BTreeMap.{get};
ghost use Rattle.std.specs.Cmp.Lexicographic.{slice_cmp};
ghost use Rattle.std.specs.Ordering.{nat_cmp};
ghost use Rattle.vx_group_start.specs.Laying.{AreRunningVolumes};
ghost use Rattle.vx_house.specs.View.{IsGroupWhole};
ghost use Rattle.vx_lending.specs.Public.{running_at};
ghost use Rattle.vx_stage_volumes.specs.Resting.{HasFaultDisk};
ghost use Rattle.vx_stage_mirrors.specs.Copying.{CopiesIn, CopiesOne, CopyStops, IsTellable};
ghost use Rattle.vx_stage_mirrors.specs.CopyingLaws.{EachCopyingGoes, EachMarkedRegionIsMissed};

use std::alloc::Global;
use std::collections::BTreeMap;
use vx_answers::{Bytes, End, Parts};
use vx_change_laws::each_failure_is_noted;
use vx_copies::Disk;
use vx_group_start::copy_all;
use vx_house::{House, Imported, Stop};
use vx_lending::Running;
use vx_names::Name;
use vx_piece::Piece;
use vx_stage_volumes::told;
use vx_volume::IoFault;
use vx_volume_laws::lives::each_pass_runs_on;

/// Copies each region of the running volume of the name to the plexes of a mask that are on and miss it, and so ends the command: with the
/// number of those regions, or with the names of the device that failed first and of the disk on it.
pub fn copy_plexes<P: Piece + Drop>(
    alloc: Global,
    group: &mut Imported<P>,
    name: &Name,
    mask: u64,
) -> Stop
    requires whole { IsGroupWhole P.seen group.old }
    requires alike { (p q : P) → is_some (P.seen p).told ≡ is_some (P.seen q).told }
    requires there { IsSome (running_at group.old.public name.now) }
    ensures { CopiesIn P.seen name.now mask result group.old group.new }
{
    let outcome = copy_running(&mut group.public.running, name, mask);
    ended(alloc, group.base.disks(), outcome)
}

fn copy_running<P: Piece>(
    running: &mut BTreeMap<Name, Running<P>>,
    name: &Name,
    mask: u64,
) -> Result<u64, IoFault>
    requires there { IsSome (get (slice_cmp nat_cmp) running.old name.now) }
    requires volumes { AreRunningVolumes P.seen running.old.entries }
    ensures { CopiesOne P.seen name.now mask result running.old running.new }
{
    match running.get_mut(name) {
        Some(one) => copy_all(&mut one.volume, mask),
        None => unreachable!(),
    }
}

/// How the command ends.
fn ended<P: Piece>(alloc: Global, disks: &[Disk<P>], outcome: Result<u64, IoFault>) -> Stop
    requires { IsTellable P.seen disks.now outcome }
    ensures { CopyStops P.seen disks.now outcome result }
{
    match outcome {
        Ok(count) => Stop::Ended(End::Done {
            copied: Some(count),
            parts: Parts::from_vec(Vec::new(alloc)),
            blocks: Bytes::from_vec(Vec::new(alloc)),
        }),
        Err(fault) => told(alloc, disks, fault),
    }
}

/// What copying does in the world: a law, as a function that does nothing and promises it.
pub fn each_copying_goes<P: Piece + Drop>(house: &House<P>, old: &Imported<P>, new: &Imported<P>)
    ensures { EachCopyingGoes P.seen house.now old.now new.now }
{
    each_failure_is_noted();
    each_pass_runs_on();
    let _ = house;
    let _ = old;
    let _ = new;
}

/// A plex that is on and marked in each region misses them all: a law.
pub fn each_marked_region_is_missed()
    ensures { EachMarkedRegionIsMissed }
{}
