//! Rows of calls on a region whose log is a page of a real store of change maps, and sweeps in which each device call of each
//! call goes wrong in turn. The stored output of the rows was worked out by hand from the rules, and so were the numbers of
//! device calls; each trial of the sweeps is judged by the definitions, in plain lists. The word `counts` shows how many device
//! writes a write of a region takes.
#![tactic(auto)]

mod breach;
mod call;
mod causes;
mod clock;
mod course;
mod disk;
mod fault;
mod history;
mod piece;
mod region;
mod restart;
mod rows;
mod rules;
mod setup;
mod shown;
mod starts;
mod sweeps;
mod told;
mod trace;
mod trial;
mod watch;

use std::{env, io};

fn main(rt: HostRuntime) -> io::Result<()> {
    let mut counts = false;
    for _word in env::args(&rt)?.skip(1) {
        counts = true;
    }
    if counts {
        return rows::counts(&rt);
    }
    rows::rows(&rt)?;
    told::rows(&rt)?;
    sweeps::sweeps(&rt)
}
