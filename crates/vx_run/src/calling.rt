//! Reads and writes of started volumes.
ghost use Rattle.std.specs.Prelude.{◌≡◌, ◌+◌, ◌≤◌, ℕ, [], IfOk, OnErr, Some};
ghost use Rattle.std.specs.BTreeMap.{get};
ghost use Rattle.std.specs.Cmp.Lexicographic.{slice_cmp};
ghost use Rattle.std.specs.Ordering.{nat_cmp};
ghost use Rattle.vx_picker.specs.Picks.{PicksMember};
ghost use Rattle.vx_started.specs.Stands.{IsSized};
ghost use Rattle.vx_started.specs.declared.started.Started.{Started as StartedValue};
ghost use Rattle.vx_stages.specs.Calls.{volume_of, start_of, count_of};
ghost use Rattle.vx_plans.specs.Steps.{DoesCall};
ghost use Rattle.vx_group_calls.specs.Serving.{IsWithinLimits};
ghost use Rattle.vx_run.specs.Calling.{IsServedBy, ServesAmong};
ghost use Rattle.vx_run.specs.Grouped.{IsSameHouse, ServesAny};
ghost use Rattle.vx_run.specs.Serving.{CommandEnds};
ghost use Rattle.vx_house.specs.Scene.{shelved};
ghost use Rattle.vx_house.specs.View.{Keeps, KeepsHouse, at};

use crate::grouped::serve_in_group;
use crate::planning::over;
use crate::ranges::{end_of, volume_of};
use crate::unserved::Unserved;
use std::alloc::Global;
use std::collections::BTreeMap;
use vx_answers::{Answer, End, Refusal, Views};
use vx_base::OutOfMemory;
use vx_house::House;
use vx_names::Name;
use vx_picker::Picker;
use vx_piece::Piece;
use vx_script_forms::Call;
use vx_shelf::Shelf;
use vx_started::Started;

/// No volume draws a number above this one: the next call finds no memory for it.
const MOST_NUMBERS: u64 = 1 << 61;

/// Serves a read or a write of a started volume.
pub fn serve_call<S: Shelf, F: Fn(u64, u64) -> u32>(
    alloc: Global,
    house: &mut House<S::P>,
    shelf: &mut S,
    call: &Call,
    select: &Picker<F>,
) -> Result<Answer, Unserved>
    requires picks { PicksMember (F.pre select.now.select) (F.post select.now.select) }
    requires keeps { Keeps S.P.seen (at (shelved S.free S.held S.counted S.faults shelf.old) house.old) }
    requires empty { house.old.hand.items ≡ [] }
    requires valid { IsWithinLimits call.now }
    ensures goes { (place : ℕ) → CommandEnds S.P.seen (DoesCall place call.now) (λ m n. n.world ≡ m.world) result
        (at (shelved S.free S.held S.counted S.faults shelf.old) house.old) (at (shelved S.free S.held S.counted S.faults shelf.new) house.new) }
{
    match serve_any(alloc, house, call, select) {
        Ok(end) => over(alloc, house, shelf, Views::from_vec(Vec::new(alloc)), end),
        Err(_) => Err(Unserved::OutOfMemory),
    }
}

/// Serves a call of a volume on a whole device, and else of one of the group. After a refusal of memory nothing has changed.
fn serve_any<P: Piece + Drop, F: Fn(u64, u64) -> u32>(
    alloc: Global,
    house: &mut House<P>,
    call: &Call,
    select: &Picker<F>,
) -> Result<End, OutOfMemory>
    requires picks { PicksMember (F.pre select.now.select) (F.post select.now.select) }
    requires valid { IsWithinLimits call.now }
    requires keeps { KeepsHouse P.seen house.old }
    ensures serves { IfOk result (ServesAny P.seen call.now house.old house.new) }
    ensures refused { OnErr result (IsSameHouse house.old house.new) }
{
    if house.volumes.contains_key(&volume_of(call)) {
        return serve_among(alloc, &mut house.volumes, call);
    }
    match &mut house.group {
        Some(group) => serve_in_group(alloc, group, call, select),
        None => Ok(End::Refused(Refusal::NotStarted(volume_of(call)))),
    }
}

/// Serves a call of one of these volumes. After a refusal of memory nothing has changed.
fn serve_among<P: Piece>(
    alloc: Global,
    volumes: &mut BTreeMap<Name, Started<P>>,
    call: &Call,
) -> Result<End, OutOfMemory>
    requires valid { IsWithinLimits call.now }
    requires sized { (b : StartedValue P) → get (slice_cmp nat_cmp) volumes.old (volume_of call.now) ≡ Some b → IsSized (P.seen b.piece) b.geometry.length }
    ensures serves { IfOk result (ServesAmong P.seen call.now (get (slice_cmp nat_cmp) volumes.old (volume_of call.now)) volumes.old volumes.new) }
    ensures refused { OnErr result (volumes.new.entries ≡ volumes.old.entries) }
{
    let name = volume_of(call);
    let Some(started) = volumes.get_mut(&name) else {
        return Ok(End::Refused(Refusal::NotStarted(name)));
    };
    if started.geometry.length < end_of(call) {
        return Ok(End::Refused(Refusal::Range));
    }
    serve(alloc, started, call)
}

/// Serves a call of a volume whose blocks it keeps to.
fn serve<P: Piece>(alloc: Global, started: &mut Started<P>, call: &Call) -> Result<End, OutOfMemory>
    requires valid { IsWithinLimits call.now }
    requires sized { IsSized (P.seen started.old.piece) started.old.geometry.length }
    requires within { start_of call.now + count_of call.now ≤ started.old.geometry.length }
    ensures served { IfOk result (λ end. IsServedBy P.seen call.now end started.old started.new) }
    ensures refused { OnErr result (started.new ≡ started.old) }
{
    if started.most > MOST_NUMBERS {
        return Err(OutOfMemory);
    }
    match call {
        Call::Read { start, count, .. } => started.read(alloc, *start, *count),
        Call::Fill {
            start,
            count,
            byte,
            ..
        } => started.fill(alloc, *start, *count, *byte),
        Call::Data { start, blocks, .. } => started.write(alloc, *start, blocks),
    }
}
