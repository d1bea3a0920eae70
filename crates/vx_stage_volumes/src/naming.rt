//! The names that are told of a device that failed.
ghost use Rattle.std.specs.Prelude.{◌≡◌, []};
ghost use Rattle.vx_answers.specs.declared.answer.End.TheVariants as ends;
ghost use Rattle.vx_group_calls.specs.Ending.{device_of};
ghost use Rattle.vx_stage_volumes.specs.Naming.{copied, fault_of, names_at, unopened};

use std::alloc::Global;
use vx_answers::{Bytes, End, Parts, Refusal};
use vx_cell::Place;
use vx_copies::Disk;
use vx_group_start::StartFault;
use vx_house::Stop;
use vx_names::Name;
use vx_piece::Piece;
use vx_volume::IoFault;

/// The name of the disk on the device of this number, and that of the device.
fn names_at<P: Piece>(disks: &[Disk<P>], number: u32) -> Option<(Name, Name)>
    ensures { result ≡ names_at P.seen disks.now number }
{
    match disks {
        [] => None,
        [first, rest @ ..] => {
            if first.piece.device() == number {
                Some((first.name, first.device))
            } else {
                names_at(rest, number)
            }
        }
    }
}

fn fault_of(alloc: Global, names: Option<(Name, Name)>) -> Stop
    ensures { result ≡ fault_of names }
{
    match names {
        None => Stop::OutOfMemory,
        Some((told, device)) => Stop::Ended(End::Fault {
            told,
            device,
            parts: Parts::from_vec(Vec::new(alloc)),
        }),
    }
}

fn lost(alloc: Global) -> End
    ensures { result ≡ ends.Lost [] }
{
    End::Lost {
        parts: Parts::from_vec(Vec::new(alloc)),
    }
}

/// How a start ends whose volume is not opened.
pub fn unopened<P: Piece>(alloc: Global, disks: &[Disk<P>], vol: Name, fault: StartFault) -> Stop
    ensures { result ≡ unopened P.seen disks.now vol fault }
{
    match fault {
        StartFault::OutOfMemory => Stop::OutOfMemory,
        StartFault::NoLog => Stop::Ended(End::Refused(Refusal::NoLog(vol))),
        StartFault::NoCurrent(region) => Stop::Ended(End::Refused(Refusal::NoCurrent(region))),
        StartFault::Failed(number) => fault_of(alloc, names_at(disks, number)),
        StartFault::PowerLost => Stop::Ended(lost(alloc)),
    }
}

/// How a start ends whose volume runs, by its copying.
pub fn copied<P: Piece>(alloc: Global, disks: &[Disk<P>], outcome: Result<u64, IoFault>) -> Stop
    ensures { result ≡ copied P.seen disks.now outcome }
{
    match outcome {
        Ok(count) => Stop::Ended(End::Done {
            copied: Some(count),
            parts: Parts::from_vec(Vec::new(alloc)),
            blocks: Bytes::from_vec(Vec::new(alloc)),
        }),
        Err(IoFault::Fault(place)) => fault_of(alloc, names_at(disks, device_of(place))),
        Err(IoFault::PowerLost) => Stop::Ended(lost(alloc)),
        Err(IoFault::Range) => Stop::OutOfMemory,
    }
}

pub(crate) fn device_of(place: Place) -> u32
    ensures { result ≡ device_of place }
{
    match place {
        Place::Data { device, .. } | Place::Log { device, .. } => device,
    }
}
