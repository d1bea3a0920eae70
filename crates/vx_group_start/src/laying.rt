//! All volumes of a group that has to leave are put back.

ghost use Rattle.std.specs.Prelude.{◌≡◌, ◌<◌, ◌++◌, [], vec_len, vec_capacity, OnOk};
ghost use Rattle.vx_carve.specs.Together.{SameSectors};
ghost use Rattle.vx_volume.specs.Volume.{IsVolume, volume_seen};
ghost use Rattle.vx_lending.specs.Left.{held_pieces};
ghost use Rattle.vx_lending.specs.Public.{lent_pieces, still_pieces};
ghost use Rattle.vx_group_start.specs.Laying.{AreRunningVolumes, AreStuckVolumes, public_pieces};

use crate::closing::close_volume;
use crate::gathering::gather;
use std::alloc::Global;
use vx_base::OutOfMemory;
use vx_lending::{Public, Running};
use vx_piece::Piece;

/// Puts the pieces of all running volumes, and of those that could not be put back before, into the pool, and what is left of
/// volumes that were not started. Where there is no memory the volumes and remains that were not put back are still there: of
/// the volumes that run the one that came back is then among those that could not be put back.
pub fn lay_down<P: Piece + Drop>(alloc: Global, public: &mut Public<P>) -> Result<(), OutOfMemory>
    requires volumes { AreRunningVolumes P.seen public.old.running.entries }
    requires stuck { AreStuckVolumes P.seen public.old.stuck.items }
    ensures together { SameSectors (still_pieces P.seen public.old ++ lent_pieces P.seen public.old) (still_pieces P.seen public.new ++ lent_pieces P.seen public.new) }
    ensures volumes { AreRunningVolumes P.seen public.new.running.entries }
    ensures stuck { AreStuckVolumes P.seen public.new.stuck.items }
    ensures running { OnOk result (public.new.running.entries ≡ []) }
    ensures stuck_none { OnOk result (public.new.stuck.items ≡ []) }
    ensures left { OnOk result (public.new.left.items ≡ []) }
    ensures idle { public.old.running.entries ≡ [] → public.new.running.entries ≡ [] }
    ensures lent { OnOk result (lent_pieces P.seen public.new ≡ []) }
{
    close_stuck(alloc, public)?;
    close_running(alloc, public)?;
    gather(alloc, public)
}

/// Puts the volumes back that could not be put back before, the last one first. Where there is no memory for that it ends, and
/// the others stay.
fn close_stuck<P: Piece + Drop>(alloc: Global, public: &mut Public<P>) -> Result<(), OutOfMemory>
    requires { AreStuckVolumes P.seen public.old.stuck.items }
    ensures together { SameSectors (public_pieces P.seen public.old) (public_pieces P.seen public.new) }
    ensures stuck { AreStuckVolumes P.seen public.new.stuck.items }
    ensures none { OnOk result (public.new.stuck.items ≡ []) }
    ensures running { public.new.running ≡ public.old.running }
{
    'stuck: while let Some(running) = public.stuck.pop() {
        close_or_keep(alloc, public, running)?;
    }
    Ok(())
}

/// Puts the running volumes back, by their names, once there is a place for one that comes back. Where there is no memory for
/// one it is kept in that place, and the others run still.
fn close_running<P: Piece + Drop>(alloc: Global, public: &mut Public<P>) -> Result<(), OutOfMemory>
    requires volumes { AreRunningVolumes P.seen public.old.running.entries }
    requires stuck { AreStuckVolumes P.seen public.old.stuck.items }
    ensures together { SameSectors (public_pieces P.seen public.old) (public_pieces P.seen public.new) }
    ensures volumes { AreRunningVolumes P.seen public.new.running.entries }
    ensures stuck { AreStuckVolumes P.seen public.new.stuck.items }
    ensures none { OnOk result (public.new.running.entries ≡ []) }
    ensures same { OnOk result (public.new.stuck.items ≡ public.old.stuck.items) }
    ensures idle { public.old.running.entries ≡ [] → public.new.running.entries ≡ [] }
{
    if public.running.is_empty() {
        return Ok(());
    }
    if public.stuck.reserve(1).is_err() {
        return Err(OutOfMemory);
    }
    'running: while let Some((_, running)) = public.running.pop_first() {
        close_or_keep(alloc, public, running)?;
    }
    Ok(())
}

/// Puts a volume back. Where there is no memory for that it is kept among those that could not be put back, which have a place
/// for it.
fn close_or_keep<P: Piece + Drop>(
    alloc: Global,
    public: &mut Public<P>,
    running: Running<P>,
) -> Result<(), OutOfMemory>
    requires whole { IsVolume (volume_seen P.seen running.volume) }
    requires place { vec_len public.old.stuck < vec_capacity public.old.stuck }
    requires stuck { AreStuckVolumes P.seen public.old.stuck.items }
    ensures together { SameSectors (held_pieces P.seen running.volume ++ public_pieces P.seen public.old) (public_pieces P.seen public.new) }
    ensures stuck { AreStuckVolumes P.seen public.new.stuck.items }
    ensures same { OnOk result (public.new.stuck ≡ public.old.stuck) }
    ensures running { public.new.running ≡ public.old.running }
{
    if let Err(running) = close_volume(alloc, public, running) {
        public.stuck.push_reserved(running);
        return Err(OutOfMemory);
    }
    Ok(())
}
