//! A volume of two plexes, or of one that gets a mirror or logs, is started, written, read, stopped and imported beside a fault that is moved
//! along all device calls, and while the power goes at each of them, or is cut for a command behind each number of writes. What each run
//! leaves is read by the formats alone, and judged by the definitions.
#![tactic(auto)]

mod base;
mod case;
mod clock;
mod cut_piece;
mod cut_shelf;
mod cuts;
mod later;
mod next;
mod power;
mod recovery;
mod scenario;
mod sweep;
mod trial;

use base::Bases;
use cuts::cut_each;
use power::lose_power;
use scenario::Scenario;
use std::rt::Files;
use std::{env, fs, io};
use sweep::{Part, Place, sweep};
use vx_volume_judge::{Finding, cut};

/// The kinds of faults.
const FAULTS: [(bool, bool); 4] = [(true, false), (true, true), (false, false), (false, true)];

/// Tries the images or the scenario of each file that the words name, in order.
fn main(rt: HostRuntime) -> io::Result<()> {
    for file in env::args(&rt)?.skip(1) {
        if file.as_str().ends_with(".cases") {
            try_cases(&rt, file.as_str())?;
        } else {
            try_file(&rt, file.as_str())?;
        }
    }
    Ok(())
}

/// The first line of the file names that of the records.
fn try_cases<R: Files + AllocGlobal + Print>(rt: &R, file: &str) -> io::Result<()> {
    let text = fs::read_to_string(rt, file)?;
    let (head, cases) = cut(text.as_str(), '\n').unwrap_or(("", ""));
    let name = head.strip_prefix("records ").unwrap_or("");
    let mut texts = Vec::new(rt.alloc());
    texts.push(fs::read_to_string(rt, name)?)?;
    let told = match Bases::make(rt.alloc(), texts) {
        Ok(bases) => case::told(rt.alloc(), &bases, cases),
        Err(finding) => Err(finding),
    };
    match told {
        Ok(lines) => tell_all(rt, &lines),
        Err(finding) => println!(rt; "{file}: {finding}"),
    }
}

fn tell_all<R: Print>(rt: &R, lines: &Vec<String>) -> io::Result<()> {
    for line in lines {
        println!(rt; "{line}")?;
    }
    Ok(())
}

fn try_file<R: Files + AllocGlobal + Print>(rt: &R, file: &str) -> io::Result<()> {
    let text = fs::read_to_string(rt, file)?;
    let scenario = match Scenario::read(rt.alloc(), text.as_str()) {
        Ok(scenario) => scenario,
        Err(finding) => return println!(rt; "{file}: {finding}"),
    };
    let mut texts = Vec::new(rt.alloc());
    for name in &scenario.records {
        texts.push(fs::read_to_string(rt, name.as_str())?)?;
    }
    let bases = match Bases::make(rt.alloc(), texts) {
        Ok(bases) => bases,
        Err(finding) => return println!(rt; "{file}: {finding}"),
    };
    for (on_write, lasts) in FAULTS {
        let kind = Place {
            device: "",
            disk: "",
            part: Part::Private,
            on_write,
            lasts,
        };
        try_kind(rt, &bases, &scenario, kind)?;
    }
    try_power(rt, &bases, &scenario)?;
    try_cuts(rt, &bases, &scenario)
}

/// Tells whether all was as it has to be, or what was found first.
fn try_kind<R: AllocGlobal + Print>(
    rt: &R,
    bases: &Bases,
    scenario: &Scenario,
    kind: Place,
) -> io::Result<()> {
    let title = scenario.title.as_str();
    let name = name_of(kind);
    match sweep(rt.alloc(), bases, scenario, kind) {
        Ok(0) => println!(rt; "{title}, {name}: it fires at no call"),
        Ok(_) => println!(rt; "{title}, {name}: ok"),
        Err(found) => {
            println!(rt;
                "{title}, {name}: call {} of {}: {}",
                found.call, found.place, found.finding
            )
        }
    }
}

fn name_of(kind: Place) -> &'static str {
    match (kind.on_write, kind.lasts) {
        (true, false) => "a write that fails once",
        (true, true) => "writes that fail for good",
        (false, false) => "a read that fails once",
        (false, true) => "reads that fail for good",
    }
}

/// The same where the power goes.
fn try_power<R: AllocGlobal + Print>(rt: &R, bases: &Bases, scenario: &Scenario) -> io::Result<()> {
    let title = scenario.title.as_str();
    match lose_power(rt.alloc(), bases, scenario) {
        Ok(0) => println!(rt; "{title}, the power goes: it goes at no call"),
        Ok(_) => println!(rt; "{title}, the power goes: ok"),
        Err(found) => {
            println!(rt;
                "{title}, the power goes: call {}, which leaves {}: {}",
                found.call, found.leaves, found.finding
            )
        }
    }
}

/// The same where each command is cut behind each number of writes.
fn try_cuts<R: AllocGlobal + Print>(rt: &R, bases: &Bases, scenario: &Scenario) -> io::Result<()> {
    let title = scenario.title.as_str();
    match cut_each(rt.alloc(), bases, scenario) {
        Ok(0) => println!(rt; "{title}, each command is cut: no cut is reached"),
        Ok(_) => println!(rt; "{title}, each command is cut: ok"),
        Err(found) => {
            println!(rt;
                "{title}, each command is cut: command {} behind {} writes: {}",
                found.command, found.writes, found.finding
            )
        }
    }
}
