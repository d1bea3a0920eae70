//! Reads and writes of running volumes of the imported group.
ghost use Rattle.std.specs.Prelude.{◌≡◌, IfOk, OnErr};
ghost use Rattle.std.specs.List.{find};
ghost use Rattle.std.specs.Option.{option_map};
ghost use Rattle.std.specs.BTreeMap.{get};
ghost use Rattle.std.specs.Cmp.Lexicographic.{slice_cmp};
ghost use Rattle.std.specs.Ordering.{nat_cmp};
ghost use Rattle.vx_picker.specs.Picks.{PicksMember};
ghost use Rattle.vx_stages.specs.Calls.{volume_of};
ghost use Rattle.vx_lending.specs.Public.{running_at};
ghost use Rattle.vx_house.specs.View.{IsGroupWhole};
ghost use Rattle.vx_group_calls.specs.Serving.{IsWithinLimits};
ghost use Rattle.vx_run.specs.Grouped.{IsSameGroup, IsToldAs, MayRunCall, NamesFault, RunsCall, ServesInGroup, is_on};

use crate::ranges::{end_of, volume_of};
use std::alloc::Global;
use std::collections::BTreeMap;
use vx_answers::{End, Refusal};
use vx_base::OutOfMemory;
use vx_copies::Disk;
use vx_group_calls::{Served, serve};
use vx_house::Imported;
use vx_lending::Running;
use vx_names::Name;
use vx_picker::Picker;
use vx_piece::Piece;
use vx_script_forms::Call;

/// Serves a call of a volume of the group that runs. After a refusal of memory nothing has changed.
pub(crate) fn serve_in_group<P: Piece + Drop, F: Fn(u64, u64) -> u32>(
    alloc: Global,
    group: &mut Imported<P>,
    call: &Call,
    select: &Picker<F>,
) -> Result<End, OutOfMemory>
    requires picks { PicksMember (F.pre select.now.select) (F.post select.now.select) }
    requires valid { IsWithinLimits call.now }
    requires whole { IsGroupWhole P.seen group.old }
    ensures serves { IfOk result (ServesInGroup P.seen call.now (running_at group.old.public (volume_of call.now)) group.old group.new) }
    ensures refused { OnErr result (IsSameGroup group.old group.new) }
{
    let name = volume_of(call);
    match group.public.running.get(&name) {
        None => return Ok(End::Refused(Refusal::NotStarted(name))),
        Some(running) => if running.volume.shape().geometry.length < end_of(call) {
            return Ok(End::Refused(Refusal::Range));
        },
    }
    let served = serve_running(alloc, &mut group.public.running, &name, call, select)?;
    Ok(told(group.base.disks(), served))
}

/// Serves a call of the running volume of the name, whose blocks it keeps to.
fn serve_running<P: Piece + Drop, F: Fn(u64, u64) -> u32>(
    alloc: Global,
    running: &mut BTreeMap<Name, Running<P>>,
    name: &Name,
    call: &Call,
    select: &Picker<F>,
) -> Result<Served, OutOfMemory>
    requires picks { PicksMember (F.pre select.now.select) (F.post select.now.select) }
    requires valid { IsWithinLimits call.now }
    requires may { MayRunCall P.seen call.now (get (slice_cmp nat_cmp) running.old name.now) }
    ensures runs { IfOk result (λ served. RunsCall P.seen call.now name.now served running.old running.new) }
    ensures refused { OnErr result (running.new.entries ≡ running.old.entries) }
{
    match running.get_mut(name) {
        Some(one) => serve(alloc, one, call, select),
        None => unreachable!(),
    }
}

/// How a call ended, with the names of the device and of the disk on it that are told of a fault.
fn told<P: Piece>(disks: &[Disk<P>], served: Served) -> End
    requires { NamesFault P.seen disks.now served }
    ensures { IsToldAs P.seen disks.now served result }
{
    match served {
        Served::Done { parts, blocks } => End::Done {
            copied: None,
            parts,
            blocks,
        },
        Served::Fault { device, parts } => match disk_on(disks, device) {
            Some((told, device)) => End::Fault {
                told,
                device,
                parts,
            },
            None => unreachable!(),
        },
        Served::Lost { parts } => End::Lost { parts },
    }
}

/// The names of the first disk on the device of this number, and of the device.
fn disk_on<P: Piece>(disks: &[Disk<P>], number: u32) -> Option<(Name, Name)>
    ensures { result ≡ option_map (λ d. (d.name, d.device)) (find (is_on P.seen number) disks.now) }
{
    let disk = on_device(disks, number)?;
    Some((disk.name, disk.device))
}

fn on_device<P: Piece>(disks: &[Disk<P>], number: u32) -> Option<&Disk<P>>
    ensures { option_map (λ d. d.now) result ≡ find (is_on P.seen number) disks.now }
{
    disks.iter().find(|disk| disk.piece.device() == number)
}
