//! A fault that is moved along all device calls of a script.
use crate::base::{Base, Bases, DATA, LENGTH, LOG, LOG_SECTORS, known, slices};
use crate::later::go_on;
use crate::scenario::Scenario;
use crate::trial::run_on;
use std::alloc::Global;
use std::fmt;
use vx_piece::Bad;
use vx_volume_judge::{Answer, Command, Finding, PRIVATE, Sort, judge_status, take_all};

/// The most calls that a fault is moved along.
const CALLS: u64 = 2_000;

/// What lies in a range of sectors of a device.
#[derive(Clone, Copy, PartialEq, Eq)]
pub enum Part {
    Private,
    Data,
    Log,
}

/// Which calls fail, and whether once or for good, on the device of a disk.
#[derive(Clone, Copy)]
pub struct Place {
    pub device: &'static str,
    pub disk: &'static str,
    pub part: Part,
    pub on_write: bool,
    pub lasts: bool,
}

impl fmt::Display for Place {
    fn fmt<W: fmt::Write>(&self, f: &mut fmt::Formatter<W>) -> fmt::Result {
        let part = match self.part {
            Part::Private => "private region",
            Part::Data => "data",
            Part::Log => "log",
        };
        write!(f, "{part} of {}", self.disk)
    }
}

impl Place {
    /// The same on a disk and a part of it: each piece of a device counts its own calls.
    fn at(self, device: &'static str, disk: &'static str, part: Part) -> Place {
        Place {
            device,
            disk,
            part,
            on_write: self.on_write,
            lasts: self.lasts,
        }
    }

    /// Sectors whose call of this number is the first to fail.
    fn bad(self, call: u64) -> Bad {
        let (start, count) = match self.part {
            Part::Private => (0, PRIVATE),
            Part::Data => (DATA, LENGTH),
            Part::Log => (LOG, LOG_SECTORS),
        };
        Bad {
            start,
            count,
            on_read: !self.on_write,
            on_write: self.on_write,
            skip: call,
            times: if self.lasts { u64::MAX } else { 1 },
        }
    }
}

/// What was found, and at which call of which place.
#[derive(Clone, Copy)]
pub struct Report {
    pub finding: Finding,
    pub place: Place,
    pub call: u64,
}

/// Moves the fault along the calls of each place. It tells at how many of them it fired, or the first thing that is found.
pub fn sweep(
    alloc: Global,
    bases: &Bases,
    scenario: &Scenario,
    kind: Place,
) -> Result<u64, Report> {
    let mut fired = 0u64;
    for part in [Part::Private, Part::Data, Part::Log] {
        for (device, disk) in [("i0", "disk01"), ("i1", "disk02")] {
            let calls = sweep_place(alloc, bases, scenario, kind.at(device, disk, part))?;
            fired = fired.saturating_add(calls);
        }
    }
    Ok(fired)
}

fn sweep_place(
    alloc: Global,
    bases: &Bases,
    scenario: &Scenario,
    place: Place,
) -> Result<u64, Report> {
    for call in 0..CALLS {
        match try_call(alloc, bases, scenario, place, call) {
            Ok(true) => {}
            Ok(false) => return Ok(call),
            Err(finding) => return Err(Report {
                finding,
                place,
                call,
            }),
        }
    }
    Err(Report {
        finding: Finding::Endless,
        place,
        call: CALLS,
    })
}

/// A trial in which the fault is at this call of its place. It tells whether the fault fired.
fn try_call(
    alloc: Global,
    bases: &Bases,
    scenario: &Scenario,
    place: Place,
    call: u64,
) -> Result<bool, Finding> {
    let images = slices(alloc, bases.of(scenario.from))?;
    let bad = Some((place.device, place.bad(call)));
    let ran = run_on(alloc, images.as_slice(), bad, scenario.script.as_str())?;
    let has_failed = ran.has_failed()?;
    judge_status(ran.answers(), ran.status)?;
    judge_answers(scenario, place, has_failed, ran.answers())?;
    let mut known = known(alloc, scenario.from, bases.form, scenario.lowest())?;
    known.log_failed = place.on_write && place.part == Part::Log;
    known.data_failed = place.on_write && place.part == Part::Data;
    take_all(&mut known, scenario.steps.as_slice(), ran.answers())?;
    go_on(alloc, bases, scenario, &ran, &mut known)?;
    Ok(has_failed)
}

/// What is told as an answer comes: what it is of, whether no other was one that was neither wanted nor ok, and whether a mirror was done.
#[derive(Clone, Copy)]
struct Told {
    command: Option<Command>,
    is_first: bool,
    is_mirrored: bool,
}

/// The answers are those that are wanted where nothing fails. Where something did, the first that is another has the fault as its
/// cause, and none tells a fault of another disk, or a loss.
fn judge_answers(
    scenario: &Scenario,
    place: Place,
    has_failed: bool,
    answers: &str,
) -> Result<(), Finding> {
    let mut wanted = scenario.wanted.lines();
    let mut steps = scenario.steps.iter();
    let mut told = Told {
        command: None,
        is_first: true,
        is_mirrored: false,
    };
    let mut number = 0u64;
    for line in answers.lines() {
        number = number.saturating_add(1);
        told.command = match steps.next() {
            Some(step) => Some(step.command),
            None => None,
        };
        let is_ok = line.starts_with("ok");
        if wanted.next() != Some(line) {
            if !has_failed || !may_be(scenario, place, told, line) {
                return Err(Finding::Answer(number));
            }
            told.is_first = is_ok && told.is_first;
        }
        told.is_mirrored = told.is_mirrored || (is_ok && told.is_mirror());
    }
    Ok(())
}

impl Told {
    fn is_mirror(&self) -> bool {
        self.command == Some(Command::Mirror)
    }

    fn is_prepare(&self) -> bool {
        self.command == Some(Command::Prepare)
    }

    fn is_unprepare(&self) -> bool {
        self.command == Some(Command::Unprepare)
    }
}

/// Whether an answer that is not the wanted one may be given.
fn may_be(scenario: &Scenario, place: Place, told: Told, line: &str) -> bool {
    let Some(answer) = Answer::read(line) else {
        return false;
    };
    match answer.sort {
        Sort::Ok => true,
        Sort::Fault => answer.name == place.disk && may_fail(scenario, place, told),
        Sort::Refused => !told.is_first || may_refuse(scenario, place, told, answer.rest),
        Sort::Lost => false,
    }
}

/// Whether an answer may tell the fault; one that fires once does so on each piece. A disk whose private region fails is dropped. A read of
/// data has another plex, and so has a write of it, unless there is one plex, or one alone before a mirror is done; but the first start of two
/// plexes copies from one to the other, and a mirror to the new one. A write of the log is done on each copy, and a read of it has another
/// copy, or there is no log. New logs are written, and no data; where logs go neither is called.
fn may_fail(scenario: &Scenario, place: Place, told: Told) -> bool {
    match place.part {
        Part::Private => false,
        _ if told.is_unprepare() => false,
        Part::Data if told.is_prepare() => false,
        Part::Data if is_only_plex(scenario, place) => !told.is_mirrored,
        Part::Data if told.is_mirror() => place.on_write,
        Part::Data => scenario.from.is_first() && scenario.only_plex.is_empty(),
        Part::Log => place.on_write,
    }
}

/// Whether an answer may be refused, before which all were as wanted: an import that cannot read a private region; a start of a
/// volume whose only log, or whose lowest plex where it is the first or there is no other, lies on a disk that the import has dropped, or
/// the commit that made the volume; the making of one, a mirror, or new logs, that would need a disk which a commit has dropped; and a start
/// that cannot read the only log.
fn may_refuse(scenario: &Scenario, place: Place, told: Told, refusal: &str) -> bool {
    match place.part {
        Part::Private if place.on_write => may_lack(scenario, place, told, refusal),
        Part::Private => refusal.strip_prefix("missing ") == Some(place.disk),
        Part::Data => false,
        Part::Log => refusal == "no log v" && !place.on_write && is_only_log(scenario, place),
    }
}

/// Whether a start, a making, a mirror or new logs may be refused so where a commit has dropped the disk. A mirror may use one other disk,
/// and so may one log.
fn may_lack(scenario: &Scenario, place: Place, told: Told, refusal: &str) -> bool {
    match refusal {
        "no log v" => is_only_log(scenario, place),
        "no current 0" => needs_lowest(scenario) && place.disk == scenario.lowest(),
        "too few disks 1" if told.is_mirror() => place.disk != scenario.lowest(),
        "too few disks 1" => scenario.from == Base::NoVolume && is_only_plex(scenario, place),
        "too few disks 2" => scenario.from == Base::NoVolume && scenario.only_plex.is_empty(),
        "no space 0 560" => told.is_prepare() && scenario.only_log.is_empty(),
        _ => false,
    }
}

/// Whether a start needs the lowest plex.
fn needs_lowest(scenario: &Scenario) -> bool {
    scenario.from.is_first() || !scenario.only_plex.is_empty()
}

fn is_only_log(scenario: &Scenario, place: Place) -> bool {
    scenario.only_log.as_str() == place.disk
}

fn is_only_plex(scenario: &Scenario, place: Place) -> bool {
    scenario.only_plex.as_str() == place.disk
}
