//! A region is started again from what is left of it on its devices: its store is loaded, and it is settled, cleared and read.

use crate::breach::Breach;
use crate::call::{Answer, Call, Life, WHOLE, marks_of, perform};
use crate::clock::Clock;
use crate::disk::{load, shown};
use crate::history::History;
use crate::piece::RowPiece;
use crate::rules::allows;
use crate::setup::{Form, Held, copy_of, held_by, log_device, phase_of, plex_device, plexes_of};
use crate::trace::{Left, end};
use std::alloc::Global;
use std::sync::Arc;
use vx_core::Stage;
use vx_maps::MapStore;

/// The device that is gone, if one is.
pub type Gone = Option<u32>;

/// The copies that a choice takes: 0 and 1 the copy alone, 2 all.
fn takes(choice: u8, copy: u8) -> bool {
    choice == 2 || choice == copy
}

fn are_alike(copies: &Vec<Vec<u8>>) -> bool {
    match copies.as_slice() {
        [first, second] => first.as_slice() == second.as_slice(),
        _ => false,
    }
}

/// The bytes of the copies of a choice that are there. None where it has only one of two, and none of the second copy alone
/// where that equals the first.
fn copies_left(
    alloc: Global,
    form: &Form,
    left: &Left,
    gone: Gone,
    choice: u8,
) -> Result<Vec<(u8, Vec<u8>)>, Breach> {
    let mut copies = Vec::new(alloc);
    let mut number: u8 = 0;
    for bytes in &left.copies {
        if takes(choice, number) && gone != Some(log_device(form.disks, number)) {
            let bytes = bytes.clone().ok().ok_or(Breach::NoRegion)?;
            copies.push((number, bytes)).ok().ok_or(Breach::NoRegion)?;
        }
        number = number.saturating_add(1);
    }
    if choice == 2 && copies.len() < 2 || choice == 1 && are_alike(&left.copies) {
        copies = Vec::new(alloc);
    }
    Ok(copies)
}

/// The plexes that are there.
fn plexes_left(alloc: Global, left: &Left, gone: Gone) -> Result<Vec<Held>, Breach> {
    let mut plexes = Vec::new(alloc);
    for plex in &left.plexes {
        if gone != Some(plex_device(plex.map)) {
            let blocks = plex.blocks.clone().ok().ok_or(Breach::NoRegion)?;
            plexes
                .push(Held {
                    map: plex.map,
                    blocks,
                })
                .ok()
                .ok_or(Breach::NoRegion)?;
        }
    }
    Ok(plexes)
}

fn maps_in(plexes: &Vec<Held>) -> u64 {
    let mut maps = 0;
    for plex in plexes {
        maps = vx_mask::with(maps, vx_mask::of(plex.map as u32));
    }
    maps
}

/// The stage of a region that is started with these marks and plexes.
pub fn stage_with(left: &Left, marks: u64, plexes: &Vec<Held>) -> Stage {
    let gone = vx_mask::less(
        vx_mask::with(left.stage.on, left.stage.off),
        maps_in(plexes),
    );
    Stage {
        on: vx_mask::less(left.stage.on, gone),
        off: vx_mask::less(left.stage.off, gone),
        bits: marks,
        phase: phase_of(!vx_mask::contains(marks, vx_mask::DIRTY)),
        ..left.stage
    }
}

/// Starts the region again, if there is a copy to load, and a plex to read: without a device that is gone there may be none.
pub fn restart(
    alloc: Global,
    form: &Form,
    left: &Left,
    history: &History,
    made: &Vec<Held>,
    gone: Gone,
    choice: u8,
) -> Result<(), Breach> {
    let copies = copies_left(alloc, form, left, gone, choice)?;
    let plexes = plexes_left(alloc, left, gone)?;
    let marks = match copies.first() {
        None => return Ok(()),
        Some((_, bytes)) => shown(bytes).ok_or(Breach::Marks)?,
    };
    let stage = stage_with(left, marks, &plexes);
    if gone.is_some() && vx_mask::less(stage.on, marks) == 0 {
        return Ok(());
    }
    allows(&stage, marks, &plexes, history, made)?;
    let clock = Arc::new(alloc, Clock::new()).ok().ok_or(Breach::NoRegion)?;
    let count = copies.len() as u64;
    let store = store_of(alloc, form, copies, &clock)?;
    if marks_of(&store) != Some(marks) {
        return Err(Breach::Marks);
    }
    let pieces = plexes_of(alloc, &plexes, &clock, [None, None]).ok_or(Breach::NoRegion)?;
    clock.set();
    let life = Life {
        stage,
        number: 0,
        plexes: pieces,
        store,
    };
    recover(alloc, &clock, life, &plexes, count)
}

fn store_of(
    alloc: Global,
    form: &Form,
    copies: Vec<(u8, Vec<u8>)>,
    clock: &Arc<Clock, Global>,
) -> Result<MapStore<RowPiece>, Breach> {
    let mut pieces = Vec::new(alloc);
    for (number, bytes) in copies {
        let device = log_device(form.disks, number);
        let copy = copy_of(alloc, device, bytes, clock, [None, None]).ok_or(Breach::NoRegion)?;
        pieces.push(copy).ok().ok_or(Breach::NoRegion)?;
    }
    match load(alloc, pieces) {
        None => Err(Breach::NoRegion),
        Some(Err(_)) => Err(Breach::Refused),
        Some(Ok(store)) => Ok(store),
    }
}

/// Makes a call that has to be done, with so many device calls.
fn done(
    alloc: Global,
    clock: &Clock,
    life: Life<RowPiece>,
    call: Call,
    calls: u64,
) -> Result<(Life<RowPiece>, Answer), Breach> {
    let first = clock.calls();
    let (life, answer) = perform(alloc, life, call).ok_or(Breach::NoRegion)?;
    if answer.result.is_err() {
        return Err(Breach::Fails);
    }
    if clock.calls().saturating_sub(first) != calls {
        return Err(Breach::Calls);
    }
    Ok((life, answer))
}

/// Settles the region, clears it and reads it: a dirty region is read from one current plex and written to each other one, and
/// one that is not dirty is left alone.
fn recover(
    alloc: Global,
    clock: &Clock,
    life: Life<RowPiece>,
    plexes: &Vec<Held>,
    copies: u64,
) -> Result<(), Breach> {
    let stage = life.stage;
    let current = vx_mask::less(stage.on, stage.bits);
    let is_dirty = vx_mask::contains(stage.bits, vx_mask::DIRTY);
    let settling = if is_dirty { count_of(current) } else { 0 };
    let clearing = if is_dirty { copies } else { 0 };
    let (life, _) = done(alloc, clock, life, Call::Settle, settling)?;
    let (life, _) = done(alloc, clock, life, Call::Clear, clearing)?;
    let (life, read) = done(alloc, clock, life, Call::Read(WHOLE), 1)?;
    let left = end(alloc, life).ok_or(Breach::NoRegion)?;
    is_settled(&stage, &left, plexes)?;
    let source = plex_in(plexes, current).ok_or(Breach::Unreadable)?;
    let got = held_by(alloc, source.map, &read.bytes).ok_or(Breach::Reads)?;
    if got.blocks.as_slice() != source.blocks.as_slice() {
        return Err(Breach::Reads);
    }
    Ok(())
}

fn count_of(maps: u64) -> u64 {
    maps.count_ones() as u64
}

/// The first plex of a mask.
fn plex_in(plexes: &Vec<Held>, maps: u64) -> Option<&Held> {
    for plex in plexes {
        if vx_mask::contains(maps, plex.map as u32) {
            return Some(plex);
        }
    }
    None
}

/// Whether each copy has lost the dirty mark alone, each current plex holds what the lowest of them held, and the others hold
/// what they did.
fn is_settled(stage: &Stage, left: &Left, plexes: &Vec<Held>) -> Result<(), Breach> {
    let marks = vx_mask::less(stage.bits, vx_mask::of(vx_mask::DIRTY));
    for copy in &left.copies {
        if shown(copy) != Some(marks) {
            return Err(Breach::Marks);
        }
    }
    if left.stage.bits != marks {
        return Err(Breach::Marks);
    }
    let current = vx_mask::less(stage.on, stage.bits);
    for plex in &left.plexes {
        let own = vx_mask::of(plex.map as u32);
        let from = if vx_mask::contains(current, plex.map as u32) {
            current
        } else {
            own
        };
        let source = plex_in(plexes, from).ok_or(Breach::Unreadable)?;
        if source.blocks.as_slice() != plex.blocks.as_slice() {
            return Err(Breach::Settled);
        }
    }
    Ok(())
}
