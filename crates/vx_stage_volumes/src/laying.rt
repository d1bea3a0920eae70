//! A volume that has come to rest is taken out of the running ones.
ghost use Rattle.std.specs.Prelude.{◌≡◌, ◌<◌, ◌++◌, IsSome, vec_len, vec_capacity};
ghost use Rattle.vx_carve.specs.Together.{SameSectors};
ghost use Rattle.vx_lending.specs.Left.{held_pieces};
ghost use Rattle.vx_volume.specs.Volume.{IsVolume, volume_seen};
ghost use Rattle.vx_lending.specs.Public.{running_at};
ghost use Rattle.vx_group_start.specs.Laying.{AreRunningVolumes, AreStuckVolumes, public_pieces};
ghost use Rattle.vx_stage_volumes.specs.Laying.{IsLaid};

use std::alloc::Global;
use vx_group_start::close_volume;
use vx_lending::{Public, Running};
use vx_names::Name;
use vx_piece::Piece;

/// Takes the volume of the name out of the running ones, and puts its pieces back.
pub(crate) fn lay<P: Piece + Drop>(alloc: Global, public: &mut Public<P>, name: &Name)
    requires there { IsSome (running_at public.old name.now) }
    requires volumes { AreRunningVolumes P.seen public.old.running.entries }
    requires stuck { AreStuckVolumes P.seen public.old.stuck.items }
    requires place { vec_len public.old.stuck < vec_capacity public.old.stuck }
    ensures laid { IsLaid P.seen name.now public.old public.new }
{
    match public.running.remove(name) {
        Some(running) => put_back(alloc, public, running),
        None => unreachable!(),
    }
}

/// Puts the pieces of a volume back. Where there is no memory for that it is kept among those that could not be put back, which have a
/// place for it.
pub fn put_back<P: Piece + Drop>(alloc: Global, public: &mut Public<P>, running: Running<P>)
    requires whole { IsVolume (volume_seen P.seen running.volume) }
    requires place { vec_len public.old.stuck < vec_capacity public.old.stuck }
    requires stuck { AreStuckVolumes P.seen public.old.stuck.items }
    ensures together { SameSectors (held_pieces P.seen running.volume ++ public_pieces P.seen public.old) (public_pieces P.seen public.new) }
    ensures stuck { AreStuckVolumes P.seen public.new.stuck.items }
    ensures running { public.new.running ≡ public.old.running }
{
    if let Err(running) = close_volume(alloc, public, running) {
        public.stuck.push_reserved(running);
    }
}
