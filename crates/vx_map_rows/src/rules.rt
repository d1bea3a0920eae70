//! What a call may leave: its answer, what the store claims, and what each copy holds. It is said in plain sets of marks, and
//! uses nothing of the store.

use crate::calls::{Answer, Call};
use crate::copies::{Copies, Held, copy_on};
use crate::fault::Kind;
use crate::marks::{
    ALL_MARKS, Marks, NO_MARKS, clipped, common, difference, is_mixed, is_same, is_within, less,
    union,
};
use crate::trials::{Case, Ended};

/// Before a call on a store: what the store claims, what may be loose, and what the copies hold.
#[derive(Clone, Copy)]
pub struct State {
    pub claims: Marks,
    pub loose: Marks,
    pub copies: Copies,
}

impl State {
    /// That of a store that was loaded from copies that are alike.
    pub fn loaded(copies: &Copies) -> State {
        State {
            claims: clipped(&copies.first.maps),
            loose: NO_MARKS,
            copies: *copies,
        }
    }
}

/// The marks that the call is to make or to take away.
fn asked(call: Call) -> Marks {
    let mut marks = NO_MARKS;
    match call {
        Call::Mark | Call::Unmark => {
            marks[3] = 2;
            marks[5] = 2;
        }
        Call::MarkOther => {
            marks[5] = 4;
            marks[31] = 4;
        }
        Call::Create | Call::Load | Call::Firm | Call::Clear | Call::Set(_) => {}
    }
    marks
}

/// What a call makes of marks of which none is loose. Bits behind the last region are none.
fn target(call: Call, marks: &Marks) -> Marks {
    let mut bits = *marks;
    match call {
        Call::Mark | Call::MarkOther => bits = union(marks, &asked(call)),
        Call::Unmark => bits = less(marks, &asked(call)),
        Call::Clear => bits[5] = 0,
        Call::Set(byte) => bits[5] = byte & 15,
        Call::Create | Call::Load | Call::Firm => {}
    }
    bits
}

/// The marks that the call may leave loose where it fails: those that are asked for, and those of a whole map that change.
fn opened(call: Call, claims: &Marks) -> Marks {
    match call {
        Call::Clear | Call::Set(_) => difference(claims, &target(call, claims)),
        Call::Create | Call::Load | Call::Mark | Call::Unmark | Call::MarkOther | Call::Firm =>
            asked(call),
    }
}

/// How far a call on a store came.
#[derive(Clone, Copy)]
enum Reach {
    /// Each copy lost a part of what was loose.
    Tidying,
    /// Each copy lost all of it, and a part of what the call changes has changed.
    Changing,
    Done,
}

/// The marks that a copy has at least, and those that it has at most.
fn bounds(call: Call, reach: Reach, marks: &Marks, loose: &Marks) -> (Marks, Marks) {
    let tidied = less(marks, loose);
    let all = target(call, &tidied);
    match reach {
        Reach::Tidying => (tidied, *marks),
        Reach::Changing => (common(&tidied, &all), union(&tidied, &all)),
        Reach::Done => (all, all),
    }
}

/// Whether each copy holds what it may where the call came so far.
fn reaches(call: Call, reach: Reach, state: &State, copies: &Copies) -> bool {
    for number in 0..2u8 {
        if let (Some(old), Some(new)) = (state.copies.get(number), copies.get(number)) {
            let (least, most) = bounds(call, reach, &old.maps, &state.loose);
            if !new.headed || !is_within(&least, &new.maps) || !is_within(&new.maps, &most) {
                return false;
            }
        }
    }
    true
}

/// Whether the store may claim this.
fn may_claim(call: Call, state: &State, claims: &Marks, is_done: bool) -> bool {
    let all = target(call, &state.claims);
    if is_done {
        return is_same(claims, &all);
    }
    let least = less(&state.claims, &opened(call, &state.claims));
    let most = match call {
        Call::Unmark => all,
        _ => state.claims,
    };
    is_within(&least, claims) && is_within(claims, &most)
}

/// What may be loose after a call: nothing where it was done. No mark is loose that is claimed.
fn loose_after(call: Call, state: &State, claims: &Marks, is_done: bool) -> Marks {
    if is_done {
        return NO_MARKS;
    }
    less(&union(&state.loose, &opened(call, &state.claims)), claims)
}

/// Whether each copy shows what is claimed, and beside it only what may be loose.
fn is_sound(claims: &Marks, loose: &Marks, copies: &Copies) -> bool {
    for number in 0..2u8 {
        if let Some(held) = copies.get(number) {
            let most = union(claims, loose);
            if !is_within(claims, &held.maps) || !is_within(&held.maps, &most) {
                return false;
            }
        }
    }
    true
}

/// What the call on a store has left, if that may be.
pub fn left(call: Call, state: &State, ended: &Ended) -> Option<State> {
    let copies = ended.copies?;
    let claims = ended.claims?;
    let is_done = ended.answer == Answer::Done;
    let may_hold = if is_done {
        reaches(call, Reach::Done, state, &copies)
    } else {
        reaches(call, Reach::Tidying, state, &copies)
            || reaches(call, Reach::Changing, state, &copies)
    };
    let loose = loose_after(call, state, &claims, is_done);
    if may_hold && may_claim(call, state, &claims, is_done) && is_sound(&claims, &loose, &copies) {
        Some(State {
            claims,
            loose,
            copies,
        })
    } else {
        None
    }
}

/// Whether a creation may leave this of a copy: each map is as it was or without marks, and with the header all maps are.
fn is_created(before: &Held, held: &Held, is_done: bool) -> bool {
    if is_done {
        return held.headed && is_same(&held.maps, &NO_MARKS);
    }
    let whole = before.headed && is_same(&held.maps, &before.maps);
    is_mixed(&held.maps, &before.maps, &NO_MARKS)
        && (!held.headed || whole || is_same(&held.maps, &NO_MARKS))
}

/// Whether a load may leave this of a copy, where that of this number was read: each map is its own or that of the copy read.
/// The copies before the one that was read have no header unless all maps are their own or all are those of the other. The
/// ones behind it keep a header, and get one once all maps are those of the other.
fn is_loaded(before: &Held, held: &Held, number: u8, chosen: u8, read: &Marks) -> bool {
    let own = is_same(&held.maps, &before.maps);
    let whole = is_same(&held.maps, read);
    if !is_mixed(&held.maps, &before.maps, read) {
        return false;
    }
    if held.headed {
        whole || before.headed && (own || number >= chosen)
    } else {
        !before.headed || number < chosen
    }
}

/// Whether a read failed on a copy in a trial.
fn read_failed(case: &Case, kind: Kind, ended: &Ended, number: u8) -> bool {
    let first = number == 0 && case.call == Call::Load && case.first.is_some();
    let second = match ended.wrong {
        Some(wrong) => { kind == Kind::Fails && !wrong.is_write && copy_on(wrong.device) == number }
        None => false,
    };
    first || second
}

/// Whether the copy of this number may be the one that was read: it has the header, it was not passed over, and each one before
/// it was.
fn may_be_read(case: &Case, kind: Kind, ended: &Ended, number: u8) -> bool {
    let start = &case.start;
    match start.get(number) {
        Some(held) if number == 0 => held.headed && case.first.is_none(),
        Some(held) => { held.headed && (!start.first.headed || read_failed(case, kind, ended, 0)) }
        None => false,
    }
}

/// Whether the trial is one of a load in which the copy of this number was read.
fn is_load_of(case: &Case, ended: &Ended, copies: &Copies, chosen: u8) -> bool {
    let Some(source) = case.start.get(chosen) else {
        return false;
    };
    let read = clipped(&source.maps);
    let is_done = ended.answer == Answer::Done;
    for number in 0..2u8 {
        if let (Some(old), Some(new)) = (case.start.get(number), copies.get(number)) {
            if !is_loaded(&old, &new, number, chosen, &read) {
                return false;
            }
            if is_done && !(new.headed && is_same(&new.maps, &read)) {
                return false;
            }
        }
    }
    match ended.claims {
        Some(claims) => is_done && is_same(&claims, &read),
        None => !is_done,
    }
}

/// Whether no copy was read, and nothing has changed.
fn is_unread(case: &Case, kind: Kind, ended: &Ended, copies: &Copies) -> bool {
    for number in 0..2u8 {
        if let (Some(old), Some(new)) = (case.start.get(number), copies.get(number)) {
            let is_passed = !old.headed || read_failed(case, kind, ended, number);
            if ended.answer == Answer::NoCopy && !is_passed {
                return false;
            }
            if new.headed != old.headed || !is_same(&new.maps, &old.maps) {
                return false;
            }
        }
    }
    ended.claims.is_none()
}

/// Whether each copy that has the header marks what every copy with the header did, and no more than some of them did: a region
/// that was sound with each choice of marks between these is sound with any copy then.
fn is_between(before: &Copies, copies: &Copies) -> bool {
    let mut every = ALL_MARKS;
    let mut some = NO_MARKS;
    for number in 0..2u8 {
        if let Some(held) = before.get(number) {
            if held.headed {
                every = common(&every, &held.maps);
                some = union(&some, &held.maps);
            }
        }
    }
    for number in 0..2u8 {
        if let Some(held) = copies.get(number) {
            let marks = clipped(&held.maps);
            if held.headed && !(is_within(&every, &marks) && is_within(&marks, &some)) {
                return false;
            }
        }
    }
    true
}

/// Whether a load may end so.
fn may_load(case: &Case, kind: Kind, ended: &Ended, copies: &Copies) -> bool {
    if !is_between(&case.start, copies) {
        return false;
    }
    if ended.answer == Answer::NoCopy || ended.answer == Answer::PowerLost {
        if is_unread(case, kind, ended, copies) {
            return true;
        }
    }
    for chosen in 0..2u8 {
        if ended.answer != Answer::NoCopy
            && may_be_read(case, kind, ended, chosen)
            && is_load_of(case, ended, copies, chosen)
        {
            return true;
        }
    }
    false
}

/// Whether a creation may end so.
fn may_create(case: &Case, ended: &Ended, copies: &Copies) -> bool {
    let is_done = ended.answer == Answer::Done;
    for number in 0..2u8 {
        if let (Some(old), Some(new)) = (case.start.get(number), copies.get(number)) {
            if !is_created(&old, &new, is_done) {
                return false;
            }
        }
    }
    match ended.claims {
        Some(claims) => is_done && is_same(&claims, &NO_MARKS),
        None => !is_done,
    }
}

/// Whether the answer has its cause: a write that failed is named, a read that failed ends no call but a load that has no other
/// copy, and the power is gone only after a cut.
fn is_caused(case: &Case, kind: Kind, ended: &Ended) -> bool {
    let is_load = case.call == Call::Load;
    let Some(wrong) = ended.wrong else {
        return ended.answer == Answer::Done || is_load && ended.answer == Answer::NoCopy;
    };
    match ended.answer {
        Answer::PowerLost => kind == Kind::Cut,
        Answer::Failed { copy, device } => {
            kind == Kind::Fails
                && wrong.is_write
                && copy == copy_on(wrong.device)
                && device == wrong.device
        }
        Answer::Done | Answer::NoCopy => { kind == Kind::Fails && !wrong.is_write && is_load }
        Answer::Other => false,
    }
}

/// Whether the trial may end so. `state` is that of a store before the call, where the call is on a store.
pub fn may_end(case: &Case, kind: Kind, state: &State, ended: &Ended) -> bool {
    let Some(copies) = ended.copies else {
        return false;
    };
    if !is_caused(case, kind, ended) {
        return false;
    }
    match case.call {
        Call::Create => may_create(case, ended, &copies),
        Call::Load => may_load(case, kind, ended, &copies),
        _ => left(case.call, state, ended).is_some(),
    }
}
