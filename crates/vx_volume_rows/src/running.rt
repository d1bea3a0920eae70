ghost use Rattle.std.specs.Prelude.{◌≡◌, ◌++◌, [], map};
ghost use Rattle.vx_confdb.specs.Groups.{members};
ghost use Rattle.vx_piece.specs.MemPiece.{mem_seen};
ghost use Rattle.vx_fronts.specs.Parted.{AreParted};
ghost use Rattle.vx_lending.specs.Going.{GoTogether};
ghost use Rattle.vx_lending.specs.Left.{held_pieces};
ghost use Rattle.vx_lending.specs.Public.{still_pieces};
ghost use Rattle.vx_volume.specs.Volume.{IsVolume, volume_seen};
ghost use Rattle.vx_volume_rows.specs.Whole.{AreFromBehind};

use crate::calls::calls;
use crate::passes::{copy, rest};
use crate::shown::show_device;
use std::io;
use vx_carve::Pool;
use vx_confdb::Group;
use vx_fronts::close_group;
use vx_group_start::close_volume;
use vx_lending::{Public, Running};
use vx_names::Name;
use vx_piece::MemPiece;

/// Copies to the plexes of a volume, if that is wanted, makes calls on it, brings it to rest, and puts it back.
pub fn ran(
    rt: &HostRuntime,
    copies: bool,
    vol: Name,
    group: Group<MemPiece>,
    public: Public<MemPiece>,
    running: Running<MemPiece>,
) -> io::Result<()>
    requires whole { IsVolume (volume_seen mem_seen running.volume) }
    requires left { public.left.items ≡ [] }
    requires behind { AreFromBehind (members mem_seen group) (held_pieces mem_seen running.volume ++ still_pieces mem_seen public) }
{
    let mut public = public;
    let mut running = running;
    used(rt, copies, &mut running, vol)?;
    match close_volume(rt.alloc(), &mut public, running) {
        Ok(()) => closed(rt, group, public.pool),
        Err(_) => println!(rt; "  no memory"),
    }
}

fn used(
    rt: &HostRuntime,
    copies: bool,
    running: &mut Running<MemPiece>,
    vol: Name,
) -> io::Result<()>
    requires { IsVolume (volume_seen mem_seen running.old.volume) }
    ensures whole { IsVolume (volume_seen mem_seen running.new.volume) }
    ensures goes { GoTogether (held_pieces mem_seen running.old.volume) (held_pieces mem_seen running.new.volume) }
{
    copy(rt, copies, running)?;
    calls(rt, running, vol)?;
    rest(rt, running)
}

/// Joins the devices, and shows them.
fn closed(rt: &HostRuntime, group: Group<MemPiece>, pool: Pool<MemPiece>) -> io::Result<()>
    requires { AreParted (members mem_seen group) (map mem_seen pool.items.items) }
{
    let mut group = group;
    let mut pool = pool;
    if close_group(rt.alloc(), &mut group, &mut pool).is_err() {
        return println!(rt; "  no memory");
    }
    for disk in group.disks() {
        show_device(rt, &disk.piece)?;
    }
    Ok(())
}
