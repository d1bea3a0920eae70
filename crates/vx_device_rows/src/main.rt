//! Rows of calls of devices, a shelf, sources and sinks in memory, each with its answer. The stored output was worked out
//! by hand.
#![tactic(auto)]

mod devices;
mod flows;
mod shelves;

use std::io;

fn main(rt: HostRuntime) -> io::Result<()> {
    devices::rows(&rt)?;
    shelves::rows(&rt)?;
    flows::rows(&rt)
}
