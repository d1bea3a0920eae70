//! A running volume is brought to rest.
ghost use Rattle.std.specs.Prelude.{◌≡◌};
ghost use Rattle.std.specs.BTreeMap.{get};
ghost use Rattle.std.specs.Cmp.Lexicographic.{slice_cmp};
ghost use Rattle.std.specs.List.{find};
ghost use Rattle.std.specs.Option.{option_map};
ghost use Rattle.std.specs.Ordering.{nat_cmp};
ghost use Rattle.vx_stage_volumes.specs.Resting.{HasFaultDisk, IsFaultTold, MayRest, RestsOne, is_on};

use crate::naming::device_of;
use std::alloc::Global;
use std::collections::BTreeMap;
use vx_answers::{End, Parts};
use vx_copies::Disk;
use vx_group_stop::quiesce;
use vx_house::Stop;
use vx_lending::Running;
use vx_names::Name;
use vx_piece::Piece;
use vx_volume::IoFault;

/// Brings the running volume of the name to rest, and answers the maps that are marked then.
pub(crate) fn rest<P: Piece + Drop>(
    running: &mut BTreeMap<Name, Running<P>>,
    name: &Name,
) -> Result<u64, IoFault>
    requires may { MayRest P.seen (get (slice_cmp nat_cmp) running.old name.now) }
    ensures rests { RestsOne P.seen name.now result running.old running.new }
{
    match running.get_mut(name) {
        Some(one) => quiesce(&mut one.volume),
        None => unreachable!(),
    }
}

/// How the command ends, with the names of the device that failed and of the disk on it.
pub fn told<P: Piece>(alloc: Global, disks: &[Disk<P>], fault: IoFault) -> Stop
    requires { HasFaultDisk P.seen disks.now fault }
    ensures { IsFaultTold P.seen disks.now fault result }
{
    let parts = Parts::from_vec(Vec::new(alloc));
    match fault {
        IoFault::Fault(place) => match disk_on(disks, device_of(place)) {
            Some((told, device)) => Stop::Ended(End::Fault {
                told,
                device,
                parts,
            }),
            None => unreachable!(),
        },
        IoFault::PowerLost => Stop::Ended(End::Lost { parts }),
        IoFault::Range => unreachable!(),
    }
}

/// The names of the first disk on the device of this number, and of the device.
fn disk_on<P: Piece>(disks: &[Disk<P>], number: u32) -> Option<(Name, Name)>
    ensures { result ≡ option_map (λ d. (d.name, d.device)) (find (is_on P.seen number) disks.now) }
{
    let disk = on_device(disks, number)?;
    Some((disk.name, disk.device))
}

fn on_device<P: Piece>(disks: &[Disk<P>], number: u32) -> Option<&Disk<P>>
    ensures { option_map (λ d. d.now) result ≡ find (is_on P.seen number) disks.now }
{
    disks.iter().find(|disk| disk.piece.device() == number)
}
