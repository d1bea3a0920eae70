//! Commands with the lines of their answers.
ghost use Rattle.std.specs.Prelude.{◌≡◌, ◌+◌, ◌≤◌, ◌++◌, ℕ, List, length, IsTrue, ◌&&◌, IfOk, OnOk, OnErr, IsErrOf, IfSome, ◌⊎◌, Some, ◌∷◌, [], take};
ghost use Rattle.vx_base.specs.Counts.{Rose};
ghost use Rattle.vx_picker.specs.Picks.{PicksMember};
ghost use Rattle.vx_script.specs.Kept.{is_command, is_kept};
ghost use Rattle.vx_answers.specs.Lines.{lines_of};
ghost use Rattle.vx_house.specs.Closing.{NoneHeld};
ghost use Rattle.vx_answers.specs.declared.answer.End.TheVariants as ends;
ghost use Rattle.vx_house.specs.Leaves.{IsLeft};
ghost use Rattle.vx_house.specs.Scene.{shelved};
ghost use Rattle.vx_house.specs.Holders.{AreHeld, holders};
ghost use Rattle.vx_house.specs.View.{IsGroupWhole, Keeps, at};
ghost use Rattle.vx_run.specs.Fine.{is_fine};
ghost use Rattle.vx_run.specs.Run.{HasRun, HasRunPartly};
ghost use Rattle.vx_run.specs.Stops.{HoldsSome, LeftBy, OnShort, fault_of};
ghost use Rattle.vx_run.specs.Ends.{CarriesOut, IsShut, StopsShort};
ghost use Rattle.vx_run.specs.Powers.{NoneGone};
ghost use Rattle.vx_run.specs.Soundly.{StaysSound};
ghost use Rattle.vx_run.specs.declared.lines.ServeFault.TheVariants as stops;

use crate::fine::is_fine;
use crate::{Unserved, serve};
use std::alloc::Global;
use vx_answers::{Answer, End, Parts, put_answer};
use vx_base::OutOfMemory;
use vx_flow::Sink;
use vx_house::{House, leave};
use vx_picker::Picker;
use vx_power::PowerShelf;
use vx_script::Command;
use vx_shelf::Shelf;
use vx_sound_imports::each_run_keeps_all_devices_sound;

/// Why a run ends before its last command.
#[derive(Clone, Copy, Debug, PartialEq, Eq)]
pub enum ServeFault {
    OutOfMemory,
    /// There was no memory to join the devices of a group: they are still held.
    HeldUp,
    /// The sink failed, and its count of faults rose.
    SinkFailed,
}

impl From<OutOfMemory> for ServeFault {
    ghost from_gives = { λ _ e. e ≡ stops.OutOfMemory };

    fn from(_refused: OutOfMemory) -> ServeFault {
        ServeFault::OutOfMemory
    }
}

/// Writes the line of an answer, and tells whether it is fine. The line's memory is used again for the next one.
fn write_line<B: Sink>(
    sink: &mut B,
    line: &mut Vec<u8>,
    answer: &Answer,
) -> Result<bool, ServeFault>
    ensures written { OnOk result ((text : List ℕ) → B.taken sink.old ≡ Some text → B.taken sink.new ≡ Some (text ++ lines_of answer.now)) }
    ensures partly { OnErr result ((text : List ℕ) → B.taken sink.old ≡ Some text → (n : ℕ) × (B.taken sink.new ≡ Some (text ++ take n (lines_of answer.now)))) }
    ensures fine { IfOk result (λ fine. fine ≡ is_fine answer.now) }
    ensures cause { IsErrOf result ServeFault.SinkFailed → Rose (B.faults sink.old) (B.faults sink.new) }
    ensures quiet { OnOk result (B.faults sink.new ≡ B.faults sink.old) }
    ensures quiet_refused { (IsErrOf result ServeFault.OutOfMemory ⊎ IsErrOf result ServeFault.HeldUp) → B.faults sink.new ≡ B.faults sink.old }
    ensures later { B.faults sink.old ≤ B.faults sink.new }
    ensures kinds { IsErrOf result ServeFault.HeldUp → ⊥ }
{
    line.clear();
    put_answer(answer, line)?;
    match sink.write(line) {
        Ok(()) => Ok(is_fine(answer)),
        Err(_) => Err(ServeFault::SinkFailed),
    }
}

impl From<Unserved> for ServeFault {
    ghost from_gives = { λ why e. e ≡ fault_of why };

    fn from(why: Unserved) -> ServeFault {
        match why {
            Unserved::OutOfMemory => ServeFault::OutOfMemory,
            Unserved::HeldUp => ServeFault::HeldUp,
        }
    }
}

/// Serves a command, and writes the line of its answer. No device is without its power for the switch by then: no fuse acts but in a command
/// with a word `cut=N`. What stands between does not promise that, so it is looked at, and memory is said to be wanting where it is not so.
fn one_line<S: PowerShelf, B: Sink, F: Fn(u64, u64) -> u32>(
    alloc: Global,
    house: &mut House<S::P>,
    shelf: &mut S,
    sink: &mut B,
    line: &mut Vec<u8>,
    command: &Command,
    select: &Picker<F>,
) -> Result<bool, ServeFault>
    requires picks { PicksMember (F.pre select.now.select) (F.post select.now.select) }
    requires kept { IsTrue (is_command command.now) }
    requires keeps { Keeps S.P.seen (at (shelved S.free S.held S.counted S.faults shelf.old) house.old) }
    requires empty { house.old.hand.items ≡ [] }
    ensures keeps { LeftBy S.P.seen result (at (shelved S.free S.held S.counted S.faults shelf.new) house.new) }
    ensures run { IfOk result (λ fine. (place : ℕ) → HasRun S.P.seen place (command.now ∷ [])
        (at (shelved S.free S.held S.counted S.faults shelf.old) house.old) (B.taken sink.old)
        (at (shelved S.free S.held S.counted S.faults shelf.new) house.new) (B.taken sink.new) fine) }
    ensures partly { OnShort result ((place : ℕ) → HasRunPartly S.P.seen place (command.now ∷ [])
        (at (shelved S.free S.held S.counted S.faults shelf.old) house.old) (B.taken sink.old)
        (at (shelved S.free S.held S.counted S.faults shelf.new) house.new) (B.taken sink.new)) }
    ensures powered { OnOk result (NoneGone (S.gone shelf.new)) }
    ensures cause { IsErrOf result ServeFault.SinkFailed → Rose (B.faults sink.old) (B.faults sink.new) }
    ensures quiet { OnOk result (B.faults sink.new ≡ B.faults sink.old) }
    ensures quiet_refused { (IsErrOf result ServeFault.OutOfMemory ⊎ IsErrOf result ServeFault.HeldUp) → B.faults sink.new ≡ B.faults sink.old }
    ensures later { B.faults sink.old ≤ B.faults sink.new }
{
    let answer = serve(alloc, house, shelf, command, select)?;
    if shelf.has_gone() {
        return Err(ServeFault::OutOfMemory);
    }
    write_line(sink, line, &answer)
}

fn both(one: bool, other: bool) -> bool
    ensures { result ≡ (one && other) }
{
    one && other
}

/// Serves all commands of a script, one after the other.
fn all_lines<S: PowerShelf, B: Sink, F: Fn(u64, u64) -> u32>(
    alloc: Global,
    house: &mut House<S::P>,
    shelf: &mut S,
    sink: &mut B,
    commands: &[Command],
    select: &Picker<F>,
) -> Result<bool, ServeFault>
    requires picks { PicksMember (F.pre select.now.select) (F.post select.now.select) }
    requires kept { IsTrue (is_kept commands.now) }
    requires keeps { Keeps S.P.seen (at (shelved S.free S.held S.counted S.faults shelf.old) house.old) }
    requires empty { house.old.hand.items ≡ [] }
    ensures keeps { LeftBy S.P.seen result (at (shelved S.free S.held S.counted S.faults shelf.new) house.new) }
    ensures run { IfOk result (λ fine. HasRun S.P.seen 0 commands.now
        (at (shelved S.free S.held S.counted S.faults shelf.old) house.old) (B.taken sink.old)
        (at (shelved S.free S.held S.counted S.faults shelf.new) house.new) (B.taken sink.new) fine) }
    ensures partly { OnShort result (HasRunPartly S.P.seen 0 commands.now
        (at (shelved S.free S.held S.counted S.faults shelf.old) house.old) (B.taken sink.old)
        (at (shelved S.free S.held S.counted S.faults shelf.new) house.new) (B.taken sink.new)) }
    ensures cause { IsErrOf result ServeFault.SinkFailed → Rose (B.faults sink.old) (B.faults sink.new) }
    ensures quiet { OnOk result (B.faults sink.new ≡ B.faults sink.old) }
    ensures quiet_refused { (IsErrOf result ServeFault.OutOfMemory ⊎ IsErrOf result ServeFault.HeldUp) → B.faults sink.new ≡ B.faults sink.old }
    ensures later { B.faults sink.old ≤ B.faults sink.new }
{
    let mut fine = true;
    let mut line = Vec::new(alloc);
    for command in commands {
        let this = one_line(alloc, house, shelf, sink, &mut line, command, select)?;
        fine = both(fine, this);
    }
    Ok(fine)
}

/// The power goes: all devices are given back. Where there is no memory to join those of the group, they stay held.
fn close<S: Shelf>(alloc: Global, house: &mut House<S::P>, shelf: &mut S) -> Result<(), OutOfMemory>
    requires held { AreHeld (S.held shelf.old) (holders S.P.seen house.old) }
    requires whole { IfSome house.old.group (IsGroupWhole S.P.seen) }
    ensures gone { OnOk result (IsLeft S.P.seen (ends.Lost []) (at (shelved S.free S.held S.counted S.faults shelf.old) house.old) (at (shelved S.free S.held S.counted S.faults shelf.new) house.new)) }
    ensures stuck { OnErr result (HoldsSome (S.held shelf.new)) }
{
    let parts = Parts::from_vec(Vec::new(alloc));
    leave(alloc, house, shelf, &End::Lost { parts })
}

/// The power goes, and is back once all devices were given back.
fn shut<S: PowerShelf>(
    alloc: Global,
    house: &mut House<S::P>,
    shelf: &mut S,
) -> Result<(), OutOfMemory>
    requires held { AreHeld (S.held shelf.old) (holders S.P.seen house.old) }
    requires whole { IfSome house.old.group (IsGroupWhole S.P.seen) }
    ensures gone { OnOk result (IsShut S.P.seen (at (shelved S.free S.held S.counted S.faults shelf.old) house.old) (shelved S.free S.held S.counted S.faults shelf.new) house.new) }
    ensures stuck { OnErr result (HoldsSome (S.held shelf.new)) }
    ensures powered { NoneGone (S.gone shelf.new) }
{
    let result = close(alloc, house, shelf);
    shelf.restore();
    result
}

/// Serves the commands of a script, and gives all devices back at the end; after an error those of a group may still be held, where
/// there was no memory to join them. It tells whether all answers were fine.
pub fn run_commands<S: PowerShelf, B: Sink, F: Fn(u64, u64) -> u32>(
    alloc: Global,
    shelf: &mut S,
    sink: &mut B,
    commands: &[Command],
    select: &Picker<F>,
) -> Result<bool, ServeFault>
    requires picks { PicksMember (F.pre select.now.select) (F.post select.now.select) }
    requires kept { IsTrue (is_kept commands.now) }
    requires here { NoneHeld (S.held shelf.old) }
    ensures run { IfOk result (λ fine. CarriesOut commands.now
        (shelved S.free S.held S.counted S.faults shelf.old) (B.taken sink.old)
        (shelved S.free S.held S.counted S.faults shelf.new) (B.taken sink.new) fine) }
    ensures partly { OnErr result (NoneHeld (S.held shelf.new) → StopsShort commands.now
        (shelved S.free S.held S.counted S.faults shelf.old) (B.taken sink.old)
        (shelved S.free S.held S.counted S.faults shelf.new) (B.taken sink.new)) }
    ensures sound { NoneHeld (S.held shelf.new) → StaysSound commands.now (shelved S.free S.held S.counted S.faults shelf.old) (shelved S.free S.held S.counted S.faults shelf.new) }
    ensures back { OnOk result (NoneHeld (S.held shelf.new)) }
    ensures powered { OnOk result (NoneGone (S.gone shelf.new)) }
    ensures cause { IsErrOf result ServeFault.SinkFailed → Rose (B.faults sink.old) (B.faults sink.new) }
    ensures quiet { OnOk result (B.faults sink.new ≡ B.faults sink.old) }
    ensures quiet_refused { (IsErrOf result ServeFault.OutOfMemory ⊎ IsErrOf result ServeFault.HeldUp) → B.faults sink.new ≡ B.faults sink.old }
    ensures later { B.faults sink.old ≤ B.faults sink.new }
{
    each_run_keeps_all_devices_sound();
    let mut house = House::new(alloc);
    match all_lines(alloc, &mut house, shelf, sink, commands, select) {
        Ok(fine) => match shut(alloc, &mut house, shelf) {
            Ok(()) => Ok(fine),
            Err(_) => Err(ServeFault::HeldUp),
        },
        Err(ServeFault::HeldUp) => Err(ServeFault::HeldUp),
        Err(ServeFault::OutOfMemory) => {
            let _ = shut(alloc, &mut house, shelf);
            Err(ServeFault::OutOfMemory)
        }
        Err(ServeFault::SinkFailed) => {
            let _ = shut(alloc, &mut house, shelf);
            Err(ServeFault::SinkFailed)
        }
    }
}
