//! What is done to a volume between calls: its log on two copies gives up one of them.

ghost use Rattle.std.specs.Prelude.{◌≡◌, ◌<◌, length, map as map_of};
ghost use Rattle.vx_maps.specs.Loading.{copy_at};
ghost use Rattle.vx_maps.specs.Parting.{GivesUp};
ghost use Rattle.vx_maps.specs.Spares.{HasRoomOn};
ghost use Rattle.vx_volume.specs.Log.{log_seen};
ghost use Rattle.vx_volume.specs.Volume.{IsVolume, log_of, shape_of, volume_seen};
ghost use Rattle.vx_volume.specs.Yielding.{PartsLog, YieldsCopy, log_copies};

use crate::log::VolumeLog;
use crate::volume::Volume;
use std::mem;
use vx_pages::LocalPiece;
use vx_piece::Piece;

impl<P: Piece> Volume<P> {
    /// On how many copies its log is, with none where there is no log.
    pub fn copies(&self) -> u32
        ensures { result ≡ (log_seen P.seen (log_of self.now)).copies }
    {
        self.log.copies()
    }

    /// How many pieces a copy of its log has, 0 or 1: none where there is no such copy.
    pub fn copy_pieces(&self, copy: u8) -> usize
        requires { copy < 2 }
        ensures { result ≡ length (copy_at (log_copies P.seen (log_of self.now)) copy) }
    {
        self.log.copy_pieces(copy)
    }
}

impl<P: Piece + Drop> Volume<P> {
    /// Its log gives up one of two copies, 0 or 1. Answers the pieces of that, in order. `room` is the memory for them; no device
    /// is called.
    pub fn give_up_copy(&mut self, copy: u8, room: Vec<P>) -> Vec<P>
        requires whole { IsVolume (volume_seen P.seen self.old) }
        requires some { copy < 2 }
        requires two { (log_seen P.seen (log_of self.old)).copies ≡ 2 }
        requires room { HasRoomOn (copy_at (log_copies P.seen (log_of self.old)) copy) room }
        ensures yields { YieldsCopy copy (volume_seen P.seen self.old) (volume_seen P.seen self.new) }
        ensures whole { IsVolume (volume_seen P.seen self.new) }
        ensures shape { shape_of self.new ≡ shape_of self.old }
        ensures parts { PartsLog P.seen copy (map_of P.seen result.items) (log_of self.old) (log_of self.new) }
    {
        self.log.give_up(copy, room)
    }
}

impl<P: LocalPiece> VolumeLog<P> {
    /// On how many copies its marks are.
    fn copies(&self) -> u32
        ensures { result ≡ (log_seen P.seen self.now).copies }
    {
        match self {
            VolumeLog::Absent => 0,
            VolumeLog::Maps(store) => store.copies(),
        }
    }

    /// How many pieces a copy has, 0 or 1: none where there is no such copy.
    fn copy_pieces(&self, copy: u8) -> usize
        requires { copy < 2 }
        ensures { result ≡ length (copy_at (log_copies P.seen self.now) copy) }
    {
        match self {
            VolumeLog::Absent => 0,
            VolumeLog::Maps(store) => store.copy_pieces(copy),
        }
    }
}

impl<P: LocalPiece + Drop> VolumeLog<P> {
    /// Gives up one of two copies, 0 or 1, and answers its pieces, in order. `room` is the memory for them.
    fn give_up(&mut self, copy: u8, room: Vec<P>) -> Vec<P>
        requires some { copy < 2 }
        requires two { (log_seen P.seen self.old).copies ≡ 2 }
        requires room { HasRoomOn (copy_at (log_copies P.seen self.old) copy) room }
        ensures gives { GivesUp copy (log_seen P.seen self.old) (log_seen P.seen self.new) }
        ensures parts { PartsLog P.seen copy (map_of P.seen result.items) self.old self.new }
    {
        match mem::replace(self, VolumeLog::Absent) {
            VolumeLog::Absent => room,
            VolumeLog::Maps(store) => {
                let (store, gone) = store.give_up(copy, room);
                *self = VolumeLog::Maps(store);
                gone
            }
        }
    }
}
