//! A region is started from what is left of it, on devices of which one call goes wrong: its store is loaded, and it is settled,
//! cleared and read.

use crate::breach::Breach;
use crate::call::{Call, Life, WHOLE, marks_of};
use crate::clock::Clock;
use crate::course::{Ended, Going, go, stop};
use crate::disk::{load, shown};
use crate::fault::Fault;
use crate::history::History;
use crate::piece::RowPiece;
use crate::restart::stage_with;
use crate::setup::{Form, copy_of, log_device, plexes_of};
use crate::trace::{Left, left_on};
use std::alloc::Global;
use std::sync::Arc;
use vx_cell::Plex;
use vx_core::Phase;
use vx_maps::{MapStore, StoreRefused};

/// The copies of the log as they were left, on devices whose calls go wrong so.
fn copies_of(
    alloc: Global,
    form: &Form,
    left: &Left,
    clock: &Arc<Clock, Global>,
    fault: Fault,
) -> Result<Vec<Vec<RowPiece>>, Breach> {
    let mut copies = Vec::new(alloc);
    let mut number: u8 = 0;
    for bytes in &left.copies {
        let bytes = bytes.clone().ok().ok_or(Breach::NoRegion)?;
        let device = log_device(form.disks, number);
        let faults = [Some(fault), None];
        let copy = copy_of(alloc, device, bytes, clock, faults).ok_or(Breach::NoRegion)?;
        copies.push(copy).ok().ok_or(Breach::NoRegion)?;
        number = number.saturating_add(1);
    }
    Ok(copies)
}

/// Starts the region, which makes four calls. Without a store there are no others.
pub fn start(alloc: Global, form: &Form, ended: Ended, fault: Fault) -> Result<Ended, Breach> {
    let Ended {
        left,
        parts: _,
        history,
    } = ended;
    let clock = Arc::new(alloc, Clock::new()).ok().ok_or(Breach::NoRegion)?;
    let faults = [Some(fault), None];
    let plexes = plexes_of(alloc, &left.plexes, &clock, faults).ok_or(Breach::NoRegion)?;
    let copies = copies_of(alloc, form, &left, &clock, fault)?;
    clock.set();
    match load(alloc, copies).ok_or(Breach::NoRegion)? {
        Ok(store) => settle(alloc, &clock, &left, plexes, store, history),
        Err(StoreRefused { fault: _, copies }) => Ok(Ended {
            left: left_on(alloc, left.stage, &plexes, &copies).ok_or(Breach::NoRegion)?,
            parts: Vec::new(alloc),
            history,
        }),
    }
}

/// Whether some copy shows these marks.
fn is_shown(left: &Left, marks: u64) -> bool {
    for copy in &left.copies {
        if shown(copy) == Some(marks) {
            return true;
        }
    }
    false
}

/// Settles, clears and reads a region with a store that was loaded, as long as there is power.
fn settle(
    alloc: Global,
    clock: &Clock,
    left: &Left,
    plexes: Vec<Plex<RowPiece>>,
    store: MapStore<RowPiece>,
    history: History,
) -> Result<Ended, Breach> {
    let marks = marks_of(&store).ok_or(Breach::NoRegion)?;
    if !is_shown(left, marks) {
        return Err(Breach::Marks);
    }
    let life = Life {
        stage: stage_with(left, marks, &left.plexes),
        number: 0,
        plexes,
        store,
    };
    let mut going = Going {
        life,
        parts: Vec::new(alloc),
        history,
    };
    for call in [Call::Settle, Call::Clear, Call::Read(WHOLE)] {
        if going.life.stage.phase != Phase::Dead {
            going = go(alloc, clock, going, call)?;
        }
    }
    stop(alloc, going)
}
