//! Rows of marks on pages of change maps in memory, some of whose writes fail, and of stores of such pages that give up a copy, and sweeps
//! in which each device call of each call on a store fails in turn, or the power goes at it. The stored output was worked out by hand.
#![tactic(auto)]

mod calls;
mod clock;
mod copies;
mod fault;
mod marks;
mod pages;
mod parting;
mod piece;
mod rows;
mod rules;
mod sweeps;
mod trials;
mod watch;
mod wholes;

use std::io;

fn main(rt: HostRuntime) -> io::Result<()> {
    rows::rows(&rt)?;
    sweeps::rows(&rt)?;
    wholes::rows(&rt)?;
    parting::rows(&rt)
}
