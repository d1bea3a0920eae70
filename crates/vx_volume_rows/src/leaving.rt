//! A plex leaves a volume.
ghost use Rattle.vx_piece.specs.MemPiece.{mem_seen};
ghost use Rattle.vx_volume.specs.Volume.{IsVolume, volume_seen};

use crate::calls::calls;
use crate::passes::{copy, rest};
use std::io;
use vx_lending::Running;
use vx_names::Name;
use vx_piece::{MemPiece, Piece};
use vx_volume::Volume;

/// Copies to the plexes of a volume, takes the second one out of it, makes calls on it, and brings it to rest.
pub fn left(rt: &HostRuntime, vol: Name, running: Running<MemPiece>) -> io::Result<()>
    requires { IsVolume (volume_seen mem_seen running.volume) }
{
    let mut running = running;
    copy(rt, true, &mut running)?;
    take(rt, &mut running.volume)?;
    calls(rt, &mut running, vol)?;
    rest(rt, &mut running)
}

/// Takes the plex of map 1 out of each region, and shows the sectors of its pieces, region by region.
fn take(rt: &HostRuntime, volume: &mut Volume<MemPiece>) -> io::Result<()>
    requires { IsVolume (volume_seen mem_seen volume.old) }
    ensures { IsVolume (volume_seen mem_seen volume.new) }
{
    if volume.needs_plex(1) {
        return println!(rt; "  needed");
    }
    let into = Vec::with_capacity(rt.alloc(), volume.cells().len())?;
    let runs = volume.take_plex(1, into);
    print!(rt; "  taken out:")?;
    for (region, run) in runs.iter().enumerate() {
        print!(rt; " {region}:")?;
        show_run(rt, run.as_slice())?;
    }
    println!(rt)
}

/// The sectors of each piece.
fn show_run(rt: &HostRuntime, run: &[MemPiece]) -> io::Result<()> {
    if run.is_empty() {
        return print!(rt; "none");
    }
    for piece in run {
        print!(rt; "{}+{}", piece.start(), piece.sectors())?;
    }
    Ok(())
}
