ghost use Rattle.std.specs.Prelude.{◌≡◌, [], true, IfSome};
ghost use Rattle.vx_confdb.specs.Groups.{members};
ghost use Rattle.vx_piece.specs.MemPiece.{mem_seen};
ghost use Rattle.vx_fronts.specs.Parted.{AreParted};

use std::alloc::Global;
use vx_confdb::{Group, Text};
use vx_copies::Disk;
use vx_fronts::laws::{each_disk_stays_parted, each_joined_disk_is_whole};
use vx_names::Name;
use vx_piece::{Bad, MemPiece, Piece};

/// A group of the devices 4 and 7, each of 4,096 sectors that hold zeros. The first fails where its Bads say so.
pub fn group(alloc: Global, bad: Vec<Bad>) -> Option<Group<MemPiece>>
    ensures { IfSome result (λ g. AreParted (members mem_seen g) []) }
{
    let first = vec![in alloc; 0_u8; 2_097_152].ok()?;
    let second = vec![in alloc; 0_u8; 2_097_152].ok()?;
    let first = MemPiece::new(4, first, bad)?;
    let second = MemPiece::new(7, second, Vec::new(alloc))?;
    group_of(alloc, first, second)
}

/// A group of two disks on whole devices that differ and have a private region.
pub fn group_of(alloc: Global, first: MemPiece, second: MemPiece) -> Option<Group<MemPiece>>
    ensures { IfSome result (λ g. AreParted (members mem_seen g) []) }
{
    each_disk_stays_parted();
    each_joined_disk_is_whole();
    if first.start() != 0 || second.start() != 0 || first.device() == second.device() {
        return None;
    }
    if first.sectors() < 2048 || second.sectors() < 2048 {
        return None;
    }
    let first = disk_of(Name::read(b"disk01").ok()?, 0, first);
    let second = disk_of(Name::read(b"disk02").ok()?, 1, second);
    let disks = vec![in alloc; first, second].ok()?;
    let text = Text::of(alloc, b"text").ok()?;
    Some(Group::of(Name::read(b"dg").ok()?, disks, 1, text))
}

fn disk_of(name: Name, slot: u8, piece: MemPiece) -> Disk<MemPiece>
    ensures { result ≡ record { name = name; device = name; slot = slot; sectors = (mem_seen piece).sectors; good = true; half = 0; piece = piece } }
{
    let sectors = piece.sectors();
    Disk {
        name,
        device: name,
        slot,
        sectors,
        good: true,
        half: 0,
        piece,
    }
}
