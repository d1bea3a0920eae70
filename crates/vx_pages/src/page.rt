ghost use Rattle.std.specs.Prelude.{◌≡◌, ℕ, true, length, OnOk};
ghost use Rattle.vx_pages.specs.Page.{sectors_seen};
ghost use Rattle.vx_pages.specs.Page.{ArePairedAlike};

use crate::local_piece::LocalPiece;
use crate::sector::MapSector;
use crate::sectors::{
    arm_all, fetch_all, firm_all, give_up_all, mark_all, marks_at, set_all, settle_all, unmark_all,
};
use vx_marks::{MarkFault, Marker};

/// A page of every map: the bits of 4,096 regions, the last page perhaps of fewer, with its sectors on each copy. It is a
/// log of marks of its own, and holds no borrow.
#[derive(Drop)]
pub struct Page<P: LocalPiece> {
    index: u64,
    regions: u64,
    sectors: Vec<MapSector<P>>,
    ghost maps: { length sectors.items ≡ 32 },
    ghost paired: { ArePairedAlike (sectors_seen P.seen sectors.items) },
}

impl<P: LocalPiece> Page<P> {
    ghost use Rattle.vx_marks.specs.Log.{KeepsLog, MarkHasCause, OnMarks};
    ghost use Rattle.vx_pages.specs.Page.{AreAll, page_log};
    ghost use Rattle.vx_pages.specs.Pages.{PageStays, page_seen, sectors_of};
    ghost use Rattle.vx_pages.specs.Writes.{IsShut, PageHands, is_open, once_if};
    ghost use Rattle.vx_pages.specs.Firm.{FirmsAll};
    ghost use Rattle.vx_mapfmt.specs.Bits.{bit_in};
    ghost use Rattle.vx_pages.specs.Setting.{IsPageSet};
    ghost use Rattle.std.specs.Prelude.{◌<◌};

    /// A page of a volume of so many regions, by its index, of its sectors in the order of the maps.
    pub fn of(index: u64, regions: u64, sectors: Vec<MapSector<P>>) -> Page<P>
        requires maps { length sectors.items ≡ 32 }
        requires paired { ArePairedAlike (sectors_seen P.seen sectors.items) }
        ensures log { page_seen P.seen result ≡ page_log index regions (sectors_seen P.seen sectors.items) }
        ensures sectors { result.sectors.items ≡ sectors.items }
    {
        Page {
            index,
            regions,
            sectors,
        }
    }

    /// Its sectors, in the order of the maps.
    pub fn into_sectors(self) -> Vec<MapSector<P>>
        ensures maps { length result.items ≡ 32 }
        ensures paired { ArePairedAlike (sectors_seen P.seen result.items) }
        ensures same { result.items ≡ self.sectors.items }
    {
        self.sectors
    }

    /// Writes again what a failed call has left open, and keeps all that is claimed. After Ok nothing is loose.
    pub fn firm(&mut self) -> Result<(), MarkFault>
        ensures kept { KeepsLog (page_seen P.seen self.old) (page_seen P.seen self.new) }
        ensures told { OnMarks (FirmsAll result) (page_seen P.seen self.old).told (page_seen P.seen self.new).told }
        ensures claims { (region map : ℕ) → (page_seen P.seen self.new).claims region map ≡ (page_seen P.seen self.old).claims region map }
        ensures cause { MarkHasCause (page_seen P.seen self.old) (page_seen P.seen self.new) result }
        ensures stays { PageStays P.seen self.old self.new }
        ensures counts { PageHands (λ map s. once_if (is_open s)) result (sectors_of P.seen self.old) (sectors_of P.seen self.new) }
        ensures shut { OnOk result (AreAll IsShut (sectors_of P.seen self.new)) }
    {
        firm_all(&mut self.sectors)
    }

    /// Makes the bits of a map on this page those of 512 bytes. What failed calls have left open is written again first, and a
    /// sector that is these bytes already is not written. Where a write fails, the bits that differ are left open.
    pub fn set(&mut self, map: u32, image: &[u8]) -> Result<(), MarkFault>
        requires map { map < 32 }
        requires whole { length image.now ≡ 512 }
        ensures kept { KeepsLog (page_seen P.seen self.old) (page_seen P.seen self.new) }
        ensures set { IsPageSet map (bit_in image.now) result (page_seen P.seen self.old) (page_seen P.seen self.new) }
        ensures cause { MarkHasCause (page_seen P.seen self.old) (page_seen P.seen self.new) result }
        ensures stays { PageStays P.seen self.old self.new }
    {
        set_all(&mut self.sectors, map, image)
    }
}

impl<P: LocalPiece> Page<P> {
    ghost use Rattle.vx_pages.specs.Arming.{armed_sectors};
    ghost use Rattle.vx_pages.specs.Images.{images_seen};
    ghost use Rattle.vx_pages.specs.Page.{AreAll, EachSector, cut_in, faults_in};
    ghost use Rattle.vx_pages.specs.Pages.{SamePage};
    ghost use Rattle.vx_pages.specs.Sector.{HasCause, IsOpen};
    ghost use Rattle.vx_pages.specs.Reading.{AreImages, AreKnownOn, AreSettled, GiveCopy, HasRisen, IsCopyOf, IsFaultAt, ReadsSector};

    /// Reads the page of each map from one copy, 0 or 1, and stops at the first that fails.
    pub fn fetch(&mut self, copy: u8, images: &mut Vec<Vec<u8>>) -> Result<(), MarkFault>
        requires there { AreAll (λ s. IsCopyOf copy s.copies) (sectors_seen P.seen self.old.sectors.items) }
        requires images { AreImages (images_seen images.old.items) }
        ensures page { SamePage self.old self.new }
        ensures reads { EachSector (λ map. ReadsSector) (sectors_seen P.seen self.old.sectors.items) (sectors_seen P.seen self.new.sectors.items) }
        ensures gives { GiveCopy copy (images_seen images.new.items) (sectors_seen P.seen self.old.sectors.items) result }
        ensures images { AreImages (images_seen images.new.items) }
        ensures at { IsFaultAt copy result }
        ensures cause { HasCause (faults_in (sectors_seen P.seen self.old.sectors.items)) (faults_in (sectors_seen P.seen self.new.sectors.items)) (cut_in (sectors_seen P.seen self.new.sectors.items)) result }
    {
        fetch_all(&mut self.sectors, copy, images)
    }

    /// Makes each copy of a page of which nothing is sure hold these images, by their maps. A copy that is known to hold them is
    /// not called. After Ok they are sure.
    pub fn settle(&mut self, images: &Vec<Vec<u8>>, known: Option<u8>) -> Result<(), MarkFault>
        requires open { AreAll IsOpen (sectors_seen P.seen self.old.sectors.items) }
        requires images { AreImages (images_seen images.now.items) }
        requires known { AreKnownOn known (images_seen images.now.items) (sectors_seen P.seen self.old.sectors.items) }
        ensures page { SamePage self.old self.new }
        ensures settled { AreSettled (images_seen images.now.items) (sectors_seen P.seen self.old.sectors.items) (sectors_seen P.seen self.new.sectors.items) result }
        ensures cause { HasRisen (faults_in (sectors_seen P.seen self.old.sectors.items)) (faults_in (sectors_seen P.seen self.new.sectors.items)) (cut_in (sectors_seen P.seen self.new.sectors.items)) result }
    {
        settle_all(&mut self.sectors, images, known)
    }

    /// Sets when a power switch is to act on its pieces.
    pub fn arm(&mut self, stop: Option<u64>)
        ensures page { SamePage self.old self.new }
        ensures armed { sectors_seen P.seen self.new.sectors.items ≡ armed_sectors stop (sectors_seen P.seen self.old.sectors.items) }
    {
        arm_all(&mut self.sectors, stop);
    }
}

impl<P: LocalPiece> Page<P> {
    ghost use Rattle.std.specs.Prelude.{◌-◌, ◌<◌, ◌≤◌, [], map as map_of, vec_capacity};
    ghost use Rattle.vx_pages.specs.Page.{ArePaired};
    ghost use Rattle.vx_pages.specs.Pages.{SamePage, sectors_of};
    ghost use Rattle.vx_pages.specs.Parting.{only_sectors, pieces_on};

    /// Gives up its pieces on one of two copies, 0 or 1. They come into `gone`, in the order of the maps.
    pub fn give_up(&mut self, copy: u8, gone: &mut Vec<P>)
        requires some { copy < 2 }
        requires pairs { ArePaired true (sectors_of P.seen self.old) }
        requires empty { gone.old.items ≡ [] }
        requires room { 32 ≤ vec_capacity gone.old }
        ensures page { SamePage self.old self.new }
        ensures left { sectors_of P.seen self.new ≡ only_sectors (1 - copy) (sectors_of P.seen self.old) }
        ensures gone { map_of P.seen gone.new.items ≡ pieces_on copy (sectors_of P.seen self.old) }
        ensures capacity { vec_capacity gone.new ≡ vec_capacity gone.old }
    {
        give_up_all(&mut self.sectors, copy, gone);
    }
}

impl<P: LocalPiece> Marker for Page<P> {
    ghost use Rattle.vx_marks.specs.Log.{ChangesAt, ClaimsAt, IsAskable, IsClaimedAs, IsMarkedAs, IsUnclaimedAs, IsUnmarkedAs, KeepsLog, MarkHasCause, OnMarks};
    ghost use Rattle.vx_pages.specs.Page.{AreAll, page_log, sectors_seen};
    ghost use Rattle.vx_pages.specs.Pages.{PageStays, page_seen, sectors_of};
    ghost use Rattle.vx_pages.specs.Writes.{IsShut, PageHands, writes_of};
    ghost use Rattle.vx_pages.specs.Stays.{page_same, page_then};

    ghost log = { λ page. page_log page.index page.regions (sectors_seen P.seen page.sectors.items) };

    ghost follows = { λ x y. PageStays P.seen x y };

    fn marked(&self, region: u64) -> u64 {
        marks_at(&self.sectors, region)
    }

    fn mark(&mut self, region: u64, bits: u64) -> Result<(), MarkFault>
        requires { IsAskable (page_seen P.seen self.old) region bits }
        ensures kept { KeepsLog (page_seen P.seen self.old) (page_seen P.seen self.new) }
        ensures told { (page_seen P.seen self.old).there ≡ true → OnMarks (ChangesAt region (IsMarkedAs bits result)) (page_seen P.seen self.old).told (page_seen P.seen self.new).told }
        ensures claims { (page_seen P.seen self.old).there ≡ true → ClaimsAt region (IsClaimedAs bits result) (page_seen P.seen self.old).claims (page_seen P.seen self.new).claims }
        ensures cause { MarkHasCause (page_seen P.seen self.old) (page_seen P.seen self.new) result }
        ensures follows { PageStays P.seen self.old self.new }
        ensures counts { PageHands (writes_of bits) result (sectors_of P.seen self.old) (sectors_of P.seen self.new) }
        ensures shut { OnOk result (AreAll IsShut (sectors_of P.seen self.new)) }
    {
        mark_all(&mut self.sectors, region, bits)
    }

    fn unmark(&mut self, region: u64, bits: u64) -> Result<(), MarkFault>
        requires { IsAskable (page_seen P.seen self.old) region bits }
        ensures kept { KeepsLog (page_seen P.seen self.old) (page_seen P.seen self.new) }
        ensures told { (page_seen P.seen self.old).there ≡ true → OnMarks (ChangesAt region (IsUnmarkedAs bits result)) (page_seen P.seen self.old).told (page_seen P.seen self.new).told }
        ensures claims { (page_seen P.seen self.old).there ≡ true → ClaimsAt region (IsUnclaimedAs bits result) (page_seen P.seen self.old).claims (page_seen P.seen self.new).claims }
        ensures cause { MarkHasCause (page_seen P.seen self.old) (page_seen P.seen self.new) result }
        ensures follows { PageStays P.seen self.old self.new }
        ensures counts { PageHands (writes_of bits) result (sectors_of P.seen self.old) (sectors_of P.seen self.new) }
        ensures shut { OnOk result (AreAll IsShut (sectors_of P.seen self.new)) }
    {
        unmark_all(&mut self.sectors, region, bits)
    }

    ghost follows_same = { λ x. page_same x };

    ghost follows_on = { λ x y z first then. page_then x y z first then };
}
