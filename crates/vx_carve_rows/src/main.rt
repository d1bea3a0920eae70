//! Takes the regions of volumes out of pieces of disks, and puts them back. Without words it shows rows over disks in memory:
//! the pieces of each plex of each region, what is left, and what there is once all was put back, with the bytes that tell
//! each sector from all others; the stored output was worked out by hand. The words `mirror` and `stripes` measure a volume
//! of 262,144 regions.
#![tactic(auto)]

mod measured;
mod plain;
mod rows;
mod setting;
mod taking;

use std::{env, io};

fn main(rt: HostRuntime) -> io::Result<()> {
    let mut measures = false;
    for word in env::args(&rt)?.skip(1) {
        measured::measure(&rt, word.as_str())?;
        measures = true;
    }
    if measures { Ok(()) } else { rows::show(&rt) }
}
