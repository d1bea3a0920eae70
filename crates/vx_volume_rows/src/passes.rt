//! The passes of a start and of a stop.
ghost use Rattle.vx_piece.specs.MemPiece.{mem_seen};
ghost use Rattle.vx_lending.specs.Going.{GoTogether};
ghost use Rattle.vx_lending.specs.Left.{held_pieces};
ghost use Rattle.vx_volume.specs.Volume.{IsVolume, volume_seen};

use std::io;
use vx_group_start::{copy_all, mask_to_copy};
use vx_group_stop::quiesce;
use vx_lending::Running;
use vx_piece::MemPiece;
use vx_volume::{IoFault, Volume};

/// Copies to the plexes that a new log marks, or to none.
pub fn copy(rt: &HostRuntime, copies: bool, running: &mut Running<MemPiece>) -> io::Result<()>
    requires { IsVolume (volume_seen mem_seen running.old.volume) }
    ensures whole { IsVolume (volume_seen mem_seen running.new.volume) }
    ensures goes { GoTogether (held_pieces mem_seen running.old.volume) (held_pieces mem_seen running.new.volume) }
{
    let mask = if copies {
        mask_to_copy(&running.form)
    } else {
        0
    };
    match copied(&mut running.volume, mask) {
        Ok(regions) => println!(rt; "  copied: {regions} regions"),
        Err(fault) => show_fault(rt, fault),
    }
}

fn copied(volume: &mut Volume<MemPiece>, mask: u64) -> Result<u64, IoFault>
    requires { IsVolume (volume_seen mem_seen volume.old) }
    ensures whole { IsVolume (volume_seen mem_seen volume.new) }
    ensures goes { GoTogether (held_pieces mem_seen volume.old) (held_pieces mem_seen volume.new) }
{
    copy_all(volume, mask)
}

/// Brings the volume to rest, and shows the maps of the plexes that miss something.
pub fn rest(rt: &HostRuntime, running: &mut Running<MemPiece>) -> io::Result<()>
    requires { IsVolume (volume_seen mem_seen running.old.volume) }
    ensures whole { IsVolume (volume_seen mem_seen running.new.volume) }
    ensures goes { GoTogether (held_pieces mem_seen running.old.volume) (held_pieces mem_seen running.new.volume) }
{
    match rested(&mut running.volume) {
        Ok(marks) => show_marks(rt, marks),
        Err(fault) => show_fault(rt, fault),
    }
}

fn rested(volume: &mut Volume<MemPiece>) -> Result<u64, IoFault>
    requires { IsVolume (volume_seen mem_seen volume.old) }
    ensures whole { IsVolume (volume_seen mem_seen volume.new) }
    ensures goes { GoTogether (held_pieces mem_seen volume.old) (held_pieces mem_seen volume.new) }
{
    quiesce(volume)
}

fn show_marks(rt: &HostRuntime, marks: u64) -> io::Result<()> {
    print!(rt; "  at rest, marked:")?;
    for map in 0..64u32 {
        if vx_mask::contains(marks, map) {
            print!(rt; " {map}")?;
        }
    }
    println!(rt)
}

fn show_fault(rt: &HostRuntime, fault: IoFault) -> io::Result<()> {
    match fault {
        IoFault::Range => println!(rt; "  out of range"),
        IoFault::Fault(_) => println!(rt; "  a device failed"),
        IoFault::PowerLost => println!(rt; "  no power"),
    }
}
