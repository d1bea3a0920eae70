//! What the formats on disk and the layouts answer, each with ample memory: bytes of a sector, of headers, toggles and
//! change maps, words of blocks, and where the blocks of a plex lie. Each line has what was asked and what was answered.
//! The stored output was worked out by hand from the formats.
#![tactic(auto)]

mod blocks;
mod layouts;
mod maps;
mod sectors;
mod shown;

use std::io;

fn main(rt: HostRuntime) -> io::Result<()> {
    sectors::show(&rt)?;
    blocks::show(&rt)?;
    maps::show(&rt)?;
    layouts::show(&rt)
}
