//! A command, and the power switch of the shelf.
ghost use Rattle.std.specs.Prelude.{◌≡◌, ℕ, [], IsTrue, IsSome, Some};
ghost use Rattle.vx_picker.specs.Picks.{PicksMember};
ghost use Rattle.vx_run.specs.Powers.{NoneGone, StepEnds};
ghost use Rattle.vx_house.specs.Scene.{shelved};
ghost use Rattle.vx_house.specs.View.{Keeps, at};
ghost use Rattle.vx_script.specs.Kept.{is_command};

use crate::executing::execute;
use crate::unserved::Unserved;
use std::alloc::Global;
use vx_answers::Answer;
use vx_house::House;
use vx_picker::Picker;
use vx_power::PowerShelf;
use vx_script::Command;

/// Serves a command. Where it has a word `cut=N` the switch is set for it: once so many more writes were drawn every call of a device is
/// answered that its power is gone. Behind it the power is back.
pub fn serve<S: PowerShelf, F: Fn(u64, u64) -> u32>(
    alloc: Global,
    house: &mut House<S::P>,
    shelf: &mut S,
    command: &Command,
    select: &Picker<F>,
) -> Result<Answer, Unserved>
    requires picks { PicksMember (F.pre select.now.select) (F.post select.now.select) }
    requires kept { IsTrue (is_command command.now) }
    requires keeps { Keeps S.P.seen (at (shelved S.free S.held S.counted S.faults shelf.old) house.old) }
    requires empty { house.old.hand.items ≡ [] }
    ensures goes { (place : ℕ) → StepEnds S.P.seen place command.now result
        (at (shelved S.free S.held S.counted S.faults shelf.old) house.old) (at (shelved S.free S.held S.counted S.faults shelf.new) house.new) }
    ensures powered { IsSome command.now.cut → NoneGone (S.gone shelf.new) }
{
    match command.cut {
        None => execute(alloc, house, shelf, command, select),
        Some(writes) => serve_cut(alloc, house, shelf, command, writes, select),
    }
}

/// Serves a command in which the power goes once it has drawn so many writes. A number that is too large sets nothing.
fn serve_cut<S: PowerShelf, F: Fn(u64, u64) -> u32>(
    alloc: Global,
    house: &mut House<S::P>,
    shelf: &mut S,
    command: &Command,
    writes: u64,
    select: &Picker<F>,
) -> Result<Answer, Unserved>
    requires picks { PicksMember (F.pre select.now.select) (F.post select.now.select) }
    requires kept { IsTrue (is_command command.now) }
    requires keeps { Keeps S.P.seen (at (shelved S.free S.held S.counted S.faults shelf.old) house.old) }
    requires empty { house.old.hand.items ≡ [] }
    requires cut { command.now.cut ≡ Some writes }
    ensures goes { (place : ℕ) → StepEnds S.P.seen place command.now result
        (at (shelved S.free S.held S.counted S.faults shelf.old) house.old) (at (shelved S.free S.held S.counted S.faults shelf.new) house.new) }
    ensures powered { NoneGone (S.gone shelf.new) }
{
    let limit = shelf.drawn().checked_add(writes);
    shelf.set(limit);
    let result = execute(alloc, house, shelf, command, select);
    shelf.set(None);
    shelf.restore();
    result
}
