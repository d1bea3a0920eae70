//! Commands over groups with a mirrored volume are cut behind each number of device writes, and what each cut leaves is recovered: at once, by
//! recoveries that are cut too, and beside faults of the disks. What is left is read by the formats alone, through a layout that each scenario
//! tells by itself, and judged by the definitions.
#![tactic(auto)]

mod again;
mod allowed;
mod base;
mod counts;
mod cuts;
mod faults;
mod held;
mod model;
mod outlook;
mod reply;
mod report;
mod scenario;
mod seen;
mod shape;
mod sound;
mod text;
mod trial;
mod whole;

use base::Base;
use cuts::cut_each;
use report::Tally;
use scenario::Scenario;
use std::rt::Files;
use std::{env, fs, io};

/// Tries the scenario of each file that the words name, in order, and tells the sums.
fn main(rt: HostRuntime) -> io::Result<()> {
    let mut sum = Tally::new();
    for file in env::args(&rt)?.skip(1) {
        let tally = try_file(&rt, file.as_str())?;
        sum.add(&tally);
    }
    println!(rt; "all scenarios: {sum}")
}

/// Tells what was tried, and whether all was as it has to be or what was found first.
fn try_file<R: Files + AllocGlobal + Print>(rt: &R, file: &str) -> io::Result<Tally> {
    let mut tally = Tally::new();
    let text = fs::read_to_string(rt, file)?;
    let scenario = match Scenario::read(rt.alloc(), text.as_str()) {
        Ok(scenario) => scenario,
        Err(finding) => {
            println!(rt; "{file}: {finding}")?;
            return Ok(tally);
        }
    };
    let title = scenario.title.as_str();
    match Base::make(rt.alloc(), &scenario) {
        Ok(base) => match cut_each(rt.alloc(), &scenario, &base, &mut tally) {
            Ok(()) => println!(rt; "{title}: {tally}: ok")?,
            Err(report) => println!(rt; "{title}: {report}")?,
        },
        Err(finding) => println!(rt; "{title}: the base: {finding}")?,
    }
    Ok(tally)
}
