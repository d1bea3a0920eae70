//! Shows devices in memory that are parted into fronts and pieces behind, and joined again; and volumes of a disk group that are
//! opened over such devices, filled, read, brought to rest and put back: how each call ends, which plexes miss something, and where the
//! written bytes are on the whole devices.
//! The stored output was worked out by hand.
#![tactic(auto)]

mod calls;
mod group;
mod leaving;
mod matching;
mod parted;
mod passes;
mod rows;
mod running;
mod shown;
mod text;

use std::io;

fn main(rt: HostRuntime) -> io::Result<()> {
    parted::show(&rt)?;
    rows::show(&rt)
}
