ghost use Rattle.std.specs.Prelude.{◌≡◌, ℕ, false, OnOk};
ghost use Rattle.vx_pages.specs.Sector.{IsFormed};
ghost use Rattle.vx_pages.specs.Pieces.{sector_of};

use crate::bytes::{copy_page, has_bit, open_differing, put_bit, put_none};
use crate::copies::{get, mend, put};
use crate::local_piece::LocalPiece;
use std::mem;
use vx_marks::MarkFault;
use vx_sector::{first_difference, is_zero};

/// The sector of one map on one page: its piece on each copy, and in memory what is sure of it and what a failed call
/// has left open.
#[derive(Drop)]
pub struct MapSector<P: LocalPiece> {
    first: P,
    second: Option<P>,
    sure: Vec<u8>,
    loose: Vec<u8>,
    ghost formed: { IsFormed (sector_of P.seen first second sure.items loose.items) },
}

impl<P: LocalPiece> MapSector<P> {
    ghost use Rattle.vx_pages.specs.Sectors.{sector_seen};
    ghost use Rattle.vx_pages.specs.Bytes.{same_place};
    ghost use Rattle.vx_pages.specs.Sector.{BitOpened, HasCause, IsBitPut, IsFirm, IsTidied, NoneLoose, SectorHands, Turns, faults_at, is_cut, is_loose, is_sure};
    ghost use Rattle.vx_pages.specs.Writes.{IsShut, is_open, once_if};

    /// Whether the sector has the sure bit of a region.
    pub fn is_marked(&self, region: u64) -> bool
        ensures { result ≡ is_sure (sector_seen P.seen self.now) region }
    {
        has_bit(&self.sure, region)
    }

    /// Writes the sector again on every copy where anything of it is loose. It stays loose until `forget`.
    pub fn tidy(&mut self) -> Result<(), MarkFault>
        ensures goes { IsTidied result (sector_seen P.seen self.old) (sector_seen P.seen self.new) }
        ensures cause { HasCause (faults_at (sector_seen P.seen self.old).copies) (faults_at (sector_seen P.seen self.new).copies) (is_cut (sector_seen P.seen self.new).copies) result }
        ensures counts { SectorHands (once_if (is_open (sector_seen P.seen self.old))) result (sector_seen P.seen self.old).copies (sector_seen P.seen self.new).copies }
    {
        if is_zero(&self.loose) {
            return Ok(());
        }
        put(&mut self.first, &mut self.second, &self.sure)
    }

    /// Nothing is loose any more. No copy shows a loose mark.
    pub fn forget(&mut self)
        requires { IsFirm (sector_seen P.seen self.old) }
        ensures turns { Turns NoneLoose (sector_seen P.seen self.old) (sector_seen P.seen self.new) }
        ensures shut { IsShut (sector_seen P.seen self.new) }
    {
        put_none(&mut self.loose);
    }

    /// Puts the bit of a region on every copy. Where that fails, the bit is loose.
    pub fn put_mark(&mut self, region: u64, on: bool) -> Result<(), MarkFault>
        requires { (other : ℕ) → is_loose (sector_seen P.seen self.old) other ≡ false }
        ensures goes { IsBitPut (same_place region) on result (sector_seen P.seen self.old) (sector_seen P.seen self.new) }
        ensures cause { HasCause (faults_at (sector_seen P.seen self.old).copies) (faults_at (sector_seen P.seen self.new).copies) (is_cut (sector_seen P.seen self.new).copies) result }
        ensures counts { SectorHands 1 result (sector_seen P.seen self.old).copies (sector_seen P.seen self.new).copies }
        ensures same { OnOk result ((sector_seen P.seen self.new).loose ≡ (sector_seen P.seen self.old).loose) }
    {
        put_bit(&mut self.sure, region, on);
        if let Err(fault) = put(&mut self.first, &mut self.second, &self.sure) {
            put_bit(&mut self.sure, region, false);
            put_bit(&mut self.loose, region, true);
            return Err(fault);
        }
        Ok(())
    }

    /// Leaves the bit of a region open.
    pub fn open_mark(&mut self, region: u64)
        ensures { Turns (BitOpened (same_place region)) (sector_seen P.seen self.old) (sector_seen P.seen self.new) }
    {
        put_bit(&mut self.sure, region, false);
        put_bit(&mut self.loose, region, true);
    }
}

impl<P: LocalPiece> MapSector<P> {
    ghost use Rattle.vx_pages.specs.Sectors.{sector_seen};
    ghost use Rattle.vx_pages.specs.Bytes.{same_place};
    ghost use Rattle.vx_pages.specs.Sector.{BitOpened, HasCause, IsBitPut, SectorHands, Turns, faults_at, is_cut, is_loose};
    ghost use Rattle.vx_pages.specs.Writes.{once_if};
    ghost use Rattle.std.specs.Prelude.{◌&&◌, true, length};
    ghost use Rattle.vx_mapfmt.specs.Bits.{bit_in};
    ghost use Rattle.vx_pages.specs.Setting.{SetsBits};

    /// Puts the bit of a region on every copy, if the map is asked for.
    pub fn put_if(&mut self, asked: bool, region: u64, on: bool) -> Result<(), MarkFault>
        requires { (other : ℕ) → is_loose (sector_seen P.seen self.old) other ≡ false }
        ensures goes { IsBitPut (λ other. asked && same_place region other) on result (sector_seen P.seen self.old) (sector_seen P.seen self.new) }
        ensures cause { HasCause (faults_at (sector_seen P.seen self.old).copies) (faults_at (sector_seen P.seen self.new).copies) (is_cut (sector_seen P.seen self.new).copies) result }
        ensures counts { SectorHands (once_if asked) result (sector_seen P.seen self.old).copies (sector_seen P.seen self.new).copies }
        ensures same { OnOk result ((sector_seen P.seen self.new).loose ≡ (sector_seen P.seen self.old).loose) }
    {
        if asked {
            self.put_mark(region, on)
        } else {
            Ok(())
        }
    }

    /// Leaves the bit of a region open, if the map is asked for.
    pub fn open_if(&mut self, asked: bool, region: u64)
        ensures { Turns (BitOpened (λ other. asked && same_place region other)) (sector_seen P.seen self.old) (sector_seen P.seen self.new) }
    {
        if asked {
            self.open_mark(region);
        }
    }

    /// Makes the bits these of 512 bytes on every copy, where they are not. Where that fails, those that differ are loose.
    pub fn set(&mut self, image: &[u8]) -> Result<(), MarkFault>
        requires clean { (other : ℕ) → is_loose (sector_seen P.seen self.old) other ≡ false }
        requires whole { length image.now ≡ 512 }
        ensures goes { SetsBits true (bit_in image.now) result (sector_seen P.seen self.old) (sector_seen P.seen self.new) }
        ensures cause { HasCause (faults_at (sector_seen P.seen self.old).copies) (faults_at (sector_seen P.seen self.new).copies) (is_cut (sector_seen P.seen self.new).copies) result }
    {
        if first_difference(&self.sure, image).is_none() {
            return Ok(());
        }
        if let Err(fault) = put(&mut self.first, &mut self.second, image) {
            open_differing(&mut self.sure, &mut self.loose, image);
            return Err(fault);
        }
        copy_page(&mut self.sure, image);
        Ok(())
    }
}

impl<P: LocalPiece> MapSector<P> {
    ghost use Rattle.vx_pages.specs.Pieces.{copies_of};
    ghost use Rattle.vx_pages.specs.Sectors.{sector_seen};

    /// A sector of which each copy shows what is sure, and nothing is loose.
    pub fn of(first: P, second: Option<P>, sure: Vec<u8>, loose: Vec<u8>) -> MapSector<P>
        requires { IsFormed (sector_of P.seen first second sure.items loose.items) }
        ensures { sector_seen P.seen result ≡ sector_of P.seen first second sure.items loose.items }
    {
        MapSector {
            first,
            second,
            sure,
            loose,
        }
    }

    /// Its piece of each copy. What is sure or loose is forgotten.
    pub fn into_pieces(self) -> (P, Option<P>)
        ensures { copies_of P.seen result.0 result.1 ≡ (sector_seen P.seen self).copies }
    {
        let MapSector {
            first,
            second,
            sure: _sure,
            loose: _loose,
        } = self;
        (first, second)
    }
}

impl<P: LocalPiece> MapSector<P> {
    ghost use Rattle.std.specs.Prelude.{length};
    ghost use Rattle.vx_pages.specs.Arming.{armed_sector};
    ghost use Rattle.vx_pages.specs.Sectors.{sector_seen};
    ghost use Rattle.vx_pages.specs.Sector.{HasCause, IsOpen, copy_of, faults_at, is_cut};
    ghost use Rattle.vx_pages.specs.Reading.{Gives, HasRisen, IsCopyOf, IsFaultAt, IsKnownOn, ReadsSector, Settles};

    /// Reads the sector of one copy, 0 or 1.
    pub fn fetch(&mut self, copy: u8, into: &mut Vec<u8>) -> Result<(), MarkFault>
        requires whole { length into.old.items ≡ 512 }
        requires there { IsCopyOf copy (sector_seen P.seen self.old).copies }
        ensures reads { ReadsSector (sector_seen P.seen self.old) (sector_seen P.seen self.new) }
        ensures gives { Gives into.new.items (copy_of (sector_seen P.seen self.old).copies copy) result }
        ensures at { IsFaultAt copy result }
        ensures cause { HasCause (faults_at (sector_seen P.seen self.old).copies) (faults_at (sector_seen P.seen self.new).copies) (is_cut (sector_seen P.seen self.new).copies) result }
        ensures length { length into.new.items ≡ length into.old.items }
    {
        get(&mut self.first, &mut self.second, copy, into)
    }

    /// Makes each copy of a sector of which nothing is sure hold these bytes: a piece that is read and holds them is not
    /// written, and a copy that is known to hold them is not called. After Ok they are sure, and nothing is loose.
    pub fn settle(&mut self, image: &[u8], known: Option<u8>) -> Result<(), MarkFault>
        requires whole { length image.now ≡ 512 }
        requires known { IsKnownOn known image.now (sector_seen P.seen self.old).copies }
        requires open { IsOpen (sector_seen P.seen self.old) }
        ensures settles { Settles image.now (sector_seen P.seen self.old) (sector_seen P.seen self.new) result }
        ensures cause { HasRisen (faults_at (sector_seen P.seen self.old).copies) (faults_at (sector_seen P.seen self.new).copies) (is_cut (sector_seen P.seen self.new).copies) result }
    {
        if let Err(fault) = mend(&mut self.first, &mut self.second, image, known) {
            return Err(fault);
        }
        copy_page(&mut self.sure, image);
        put_none(&mut self.loose);
        Ok(())
    }

    /// Sets when a power switch is to act on its pieces.
    pub fn arm(&mut self, stop: Option<u64>)
        ensures { sector_seen P.seen self.new ≡ armed_sector stop (sector_seen P.seen self.old) }
    {
        self.first.arm(stop);
        if let Some(piece) = &mut self.second {
            piece.arm(stop);
        }
    }
}

impl<P: LocalPiece> MapSector<P> {
    ghost use Rattle.std.specs.Prelude.{◌-◌, ◌<◌, is_some, true};
    ghost use Rattle.vx_pages.specs.Parting.{only_sector};
    ghost use Rattle.vx_pages.specs.Sectors.{sector_seen};
    ghost use Rattle.vx_pages.specs.Sector.{copy_of};

    /// Gives up its piece on one of two copies, 0 or 1. The other copy is its only one then.
    pub fn give_up(&mut self, copy: u8) -> P
        requires some { copy < 2 }
        requires pair { is_some (sector_seen P.seen self.old).copies.second ≡ true }
        ensures left { sector_seen P.seen self.new ≡ only_sector (1 - copy) (sector_seen P.seen self.old) }
        ensures gone { P.seen result ≡ copy_of (sector_seen P.seen self.old).copies copy }
    {
        let second = self.second.take().unwrap();
        if copy == 0 {
            mem::replace(&mut self.first, second)
        } else {
            second
        }
    }
}
