//! A trial: a call of which one device call goes wrong, and what is left then.

use crate::calls::{Answer, Call, claims, make, open, refusal};
use crate::clock::Clock;
use crate::copies::{Copies, build, held_in};
use crate::fault::{Fault, Wrong};
use crate::marks::Marks;
use crate::piece::RowPiece;
use std::alloc::{AllocError, Global};
use std::sync::Arc;
use vx_mapfmt::DcoShape;
use vx_maps::{MapStore, StoreRefused};

/// What the copies hold first, a device call that fails before those that are counted, the call that it fails if that is another
/// one, and the call that is tried.
#[derive(Clone, Copy)]
pub struct Case {
    pub start: Copies,
    pub first: Option<Fault>,
    pub before: Option<Call>,
    pub call: Call,
}

/// How a trial ended: the answer, how many device calls were made behind the first that failed and how many of them were writes,
/// which of them went wrong, what the store claims, if there is one, and what the copies hold: none where some byte is neither of
/// the header nor of a map.
#[derive(Clone, Copy)]
pub struct Ended {
    pub answer: Answer,
    pub calls: u64,
    pub writes: u64,
    pub wrong: Option<Wrong>,
    pub claims: Option<Marks>,
    pub copies: Option<Copies>,
}

/// Makes the calls on a store that was opened by another one.
fn calls_on(store: &mut MapStore<RowPiece>, case: &Case, clock: &Clock) -> Answer {
    if case.call.opens() {
        return Answer::Done;
    }
    clock.set();
    if let Some(before) = case.before {
        let _ = make(store, before);
    }
    make(store, case.call)
}

fn end(
    alloc: Global,
    shape: &DcoShape,
    answer: Answer,
    claims: Option<Marks>,
    copies: &Vec<Vec<RowPiece>>,
    clock: &Clock,
) -> Result<Ended, AllocError> {
    let copies = held_in(alloc, shape, copies)?;
    Ok(Ended {
        answer,
        calls: clock.calls(),
        writes: clock.writes(),
        wrong: clock.wrong(),
        claims,
        copies,
    })
}

/// Makes the trial, with a fault behind the first one if there is one.
pub fn run(
    alloc: Global,
    shape: &DcoShape,
    case: &Case,
    fault: Option<Fault>,
) -> Result<Ended, AllocError> {
    let clock = Arc::new(alloc, Clock::new(case.first, fault))?;
    let copies = build(alloc, shape, &case.start, &clock)?;
    if case.call.opens() {
        clock.set();
    }
    match open(alloc, shape, case.call, copies)? {
        Ok(mut store) => {
            let answer = calls_on(&mut store, case, &clock);
            let claims = claims(alloc, &store)?;
            match store.into_copies(alloc) {
                Ok(copies) => end(alloc, shape, answer, Some(claims), &copies, &clock),
                Err(_) => Err(AllocError),
            }
        }
        Err(StoreRefused { fault, copies }) => {
            end(alloc, shape, refusal(fault), None, &copies, &clock)
        }
    }
}
