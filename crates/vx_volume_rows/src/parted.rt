ghost use Rattle.std.specs.Prelude.{◌≡◌, [], map, IfOk, IfSome};
ghost use Rattle.vx_confdb.specs.Groups.{members};
ghost use Rattle.vx_piece.specs.MemPiece.{mem_seen};
ghost use Rattle.vx_fronts.specs.Parted.{AreParted};

use crate::group::group_of;
use std::alloc::Global;
use std::io;
use vx_carve::Pool;
use vx_confdb::Group;
use vx_fronts::{close_group, open_group};
use vx_piece::{MemPiece, Piece};

/// Parts the devices of a group and joins them again: where each piece begins, and its sectors.
pub fn show(rt: &HostRuntime) -> io::Result<()> {
    println!(rt; "disks of 2,050 and 2,048 sectors")?;
    match group(rt.alloc()) {
        Some(group) => opened(rt, group),
        None => println!(rt; "  no group"),
    }
}

fn group(alloc: Global) -> Option<Group<MemPiece>>
    ensures { IfSome result (λ g. AreParted (members mem_seen g) []) }
{
    let first = vec![in alloc; 1_u8; 1_049_600].ok()?;
    let second = vec![in alloc; 2_u8; 1_048_576].ok()?;
    let first = MemPiece::new(4, first, Vec::new(alloc))?;
    let second = MemPiece::new(7, second, Vec::new(alloc))?;
    group_of(alloc, first, second)
}

fn opened(rt: &HostRuntime, group: Group<MemPiece>) -> io::Result<()>
    requires { AreParted (members mem_seen group) [] }
{
    let mut group = group;
    let mut pool = Pool::from_vec(Vec::new(rt.alloc()));
    if open_group(rt.alloc(), &mut group, &mut pool).is_err() {
        return println!(rt; "  no memory");
    }
    print!(rt; "  opened:")?;
    show_group(rt, &group)?;
    let pool = show_pool(rt, pool)?;
    closed(rt, group, pool)
}

fn closed(rt: &HostRuntime, group: Group<MemPiece>, pool: Pool<MemPiece>) -> io::Result<()>
    requires { AreParted (members mem_seen group) (map mem_seen pool.items.items) }
{
    let mut group = group;
    let mut pool = pool;
    if close_group(rt.alloc(), &mut group, &mut pool).is_err() {
        return println!(rt; "  no memory");
    }
    print!(rt; "  closed:")?;
    show_group(rt, &group)?;
    let _none = show_pool(rt, pool)?;
    Ok(())
}

fn show_group(rt: &HostRuntime, group: &Group<MemPiece>) -> io::Result<()> {
    for disk in group.disks() {
        show_piece(rt, &disk.piece)?;
    }
    print!(rt; " behind:")
}

fn show_pool(rt: &HostRuntime, pool: Pool<MemPiece>) -> io::Result<Pool<MemPiece>>
    ensures { IfOk result (λ p. p.items.items ≡ pool.items.items) }
{
    let items = pool.into_vec();
    for piece in &items {
        show_piece(rt, piece)?;
    }
    println!(rt)?;
    Ok(Pool::from_vec(items))
}

fn show_piece(rt: &HostRuntime, piece: &MemPiece) -> io::Result<()> {
    print!(rt; " {}:{}+{}", piece.device(), piece.start(), piece.sectors())
}
