//! A fault is moved along all calls of the import and the recovery of what a cut has left.
use crate::allowed::Suspect;
use crate::counts::Bounds;
use crate::model::Model;
use crate::reply::{Reply, judge_status, replies_of};
use crate::report::{During, FaultAt, Found, Part, Tally};
use crate::scenario::Scenario;
use crate::seen::Seen;
use crate::shape::Extent;
use crate::sound::look;
use crate::trial::{BadOf, run_on};
use crate::whole::recover_all;
use std::alloc::{AllocError, Global};
use vx_piece::Bad;
use vx_volume_judge::{Finding, PRIVATE};

/// The most calls that a fault is moved along.
const CALLS: u64 = 2_000;

/// The kinds of faults: whether a write fails, and whether for good.
const KINDS: [(bool, bool); 4] = [(true, false), (true, true), (false, false), (false, true)];

/// What imports a group and recovers its volume.
const SCRIPT: &str = "vxdg import dg\nvxrecover -s\n";

/// Sectors of a device that are called for one thing.
#[derive(Clone, Copy)]
struct Place {
    part: Part,
    extent: Extent,
}

/// Moves faults of each kind along the calls of each place, and recovers what each leaves with nothing that fails.
pub fn move_faults(
    alloc: Global,
    scenario: &Scenario,
    images: &[&[u8]],
    model: &Model,
    tally: &mut Tally,
) -> Result<(), Found> {
    let seen = Seen::on(alloc, &scenario.shape, images)?;
    for place in places(alloc, scenario)?.as_slice() {
        for (on_write, lasts) in KINDS {
            let fault = FaultAt {
                device: place.extent.device,
                part: place.part,
                on_write,
                lasts,
                call: 0,
            };
            move_one(alloc, scenario, &seen, model, place.extent, fault, tally)?;
        }
    }
    Ok(())
}

/// The private region of each device, and where the plexes and the copies of the log lie.
fn places(alloc: Global, scenario: &Scenario) -> Result<Vec<Place>, AllocError> {
    let mut places = Vec::new(alloc);
    for device in 0..scenario.devices.len() as u64 {
        let extent = Extent {
            device,
            first: 0,
            count: PRIVATE,
        };
        let part = Part::Private;
        places.push(Place { part, extent })?;
    }
    for plex in &scenario.shape.plexes {
        for column in &plex.columns {
            push_all(&mut places, Part::Data, column.extents.as_slice())?;
        }
    }
    for log in &scenario.shape.logs {
        push_all(&mut places, Part::Log, log.sectors.extents.as_slice())?;
    }
    Ok(places)
}

fn push_all(places: &mut Vec<Place>, part: Part, extents: &[Extent]) -> Result<(), AllocError> {
    for extent in extents {
        places.push(Place {
            part,
            extent: *extent,
        })?;
    }
    Ok(())
}

/// Moves a fault along the calls of a place, until it does not fire any more.
fn move_one(
    alloc: Global,
    scenario: &Scenario,
    seen: &Seen<'_>,
    model: &Model,
    extent: Extent,
    fault: FaultAt,
    tally: &mut Tally,
) -> Result<(), Found> {
    for call in 0..CALLS {
        let fault = FaultAt { call, ..fault };
        match try_fault(alloc, scenario, seen, model, extent, fault, tally) {
            Ok(true) => tally.faults = tally.faults.saturating_add(1),
            Ok(false) => return Ok(()),
            Err(finding) => return Err(Found {
                finding,
                during: During::Fault(fault),
            }),
        }
    }
    Err(Found::from(Finding::Endless))
}

/// A trial in which the fault is at its call. It tells whether it fired; then what is left is judged, and recovered.
fn try_fault(
    alloc: Global,
    scenario: &Scenario,
    seen: &Seen<'_>,
    model: &Model,
    extent: Extent,
    fault: FaultAt,
    tally: &mut Tally,
) -> Result<bool, Finding> {
    let bads = [BadOf {
        device: extent.device,
        bad: bad_of(extent, fault),
    }];
    let ran = run_on(alloc, seen.images, bads.as_slice(), SCRIPT)?;
    tally.run(1);
    let replies = replies_of(alloc, ran.answers())?;
    judge_status(replies.as_slice(), ran.status)?;
    let has_failed = ran.has_failed()?;
    let left = ran.images(alloc)?;
    let after = Seen::on(alloc, &scenario.shape, left.as_slice())?;
    judge_answers(seen, &after, fault, has_failed, replies.as_slice())?;
    if !has_failed {
        return Ok(false);
    }
    look(&after, model)?;
    let mut model = model.copy(alloc)?;
    if !recover_all(alloc, scenario, left.as_slice(), &mut model)? {
        tally.refused = tally.refused.saturating_add(1);
    }
    tally.run(1);
    Ok(true)
}

/// The sectors whose call of this number is the first to fail.
fn bad_of(extent: Extent, fault: FaultAt) -> Bad {
    Bad {
        start: extent.first,
        count: extent.count,
        on_read: !fault.on_write,
        on_write: fault.on_write,
        skip: fault.call,
        times: if fault.lasts { u64::MAX } else { 1 },
    }
}

/// The answers are ok where nothing failed. Where something did, they are what it can cause. The numbers of a recovery that is done are within
/// their bounds.
fn judge_answers(
    seen: &Seen<'_>,
    after: &Seen<'_>,
    fault: FaultAt,
    has_failed: bool,
    replies: &[Reply<'_>],
) -> Result<(), Finding> {
    let (Some(import), Some(recovery)) = (replies.first(), replies.get(1)) else {
        return Err(Finding::Answer(0));
    };
    let suspect = Suspect { seen, fault };
    if import.line != "ok" {
        if !has_failed || !suspect.may_refuse_import(import.line) {
            return Err(Finding::Answer(1));
        }
        return if recovery.line == "refused no group -" {
            Ok(())
        } else {
            Err(Finding::Answer(2))
        };
    }
    if recovery.line == "ok" {
        let may_fail = has_failed && suspect.has_plex();
        return judge_view(seen, after, may_fail, recovery.view);
    }
    if has_failed && suspect.may_end(recovery.line) {
        Ok(())
    } else {
        Err(Finding::Answer(2))
    }
}

fn judge_view(
    seen: &Seen<'_>,
    after: &Seen<'_>,
    may_fail: bool,
    view: &str,
) -> Result<(), Finding> {
    if seen.was_started() {
        Bounds::of(seen, after.available(), may_fail).judge(view)
    } else if view.is_empty() {
        Ok(())
    } else {
        Err(Finding::Counts)
    }
}
