//! The sectors of a page, one for each map.

ghost use Rattle.std.specs.Prelude.{◌≡◌, ℕ, ◌-◌, ◌<◌, ◌≤◌, ◌==◌, ◌&&◌, ◌||◌, [], true, length, map as map_of, vec_capacity, OnOk};
ghost use Rattle.vx_mask.specs.Mask.{has};
ghost use Rattle.vx_pages.specs.Sector.{BitOpened, HasCause, IsBitPut, IsFirm, IsTidied, NoneLoose, Turns, is_loose, is_sure};
ghost use Rattle.vx_pages.specs.Page.{AreClean, EachSector, IsChanged, IsFirmed, IsMarkedIn, IsUnmarkedIn, asked, cut_in, faults_in, sector_at, sectors_seen};
ghost use Rattle.vx_pages.specs.Arming.{armed_sectors};
ghost use Rattle.vx_pages.specs.Images.{images_seen};
ghost use Rattle.vx_pages.specs.Reading.{AreImages, AreKnownOn, AreSettled, GiveCopy, HasRisen, IsCopyOf, IsFaultAt, ReadsSector};
ghost use Rattle.vx_mapfmt.specs.Bits.{bit_in};
ghost use Rattle.vx_pages.specs.Sector.{IsOpen};
ghost use Rattle.vx_pages.specs.Setting.{IsSetIn, SetEach};
ghost use Rattle.vx_pages.specs.Page.{AreAll, ArePaired};
ghost use Rattle.vx_pages.specs.Parting.{only_sectors, pieces_on};
ghost use Rattle.vx_pages.specs.Writes.{IsShut, PageHands, is_open, once_if, writes_of};

use crate::local_piece::LocalPiece;
use crate::sector::MapSector;
use vx_marks::MarkFault;
use vx_mask::{contains, of, with};

/// Writes each sector again on every copy where anything of it is loose, and stops at the first that fails.
pub fn tidy_all<P: LocalPiece>(sectors: &mut Vec<MapSector<P>>) -> Result<(), MarkFault>
    ensures each { EachSector (λ map. IsTidied result) (sectors_seen P.seen sectors.old.items) (sectors_seen P.seen sectors.new.items) }
    ensures cause { HasCause (faults_in (sectors_seen P.seen sectors.old.items)) (faults_in (sectors_seen P.seen sectors.new.items)) (cut_in (sectors_seen P.seen sectors.new.items)) result }
    ensures counts { PageHands (λ map s. once_if (is_open s)) result (sectors_seen P.seen sectors.old.items) (sectors_seen P.seen sectors.new.items) }
{
    for map in 0..sectors.len() {
        let sector = &mut sectors[map];
        if let Err(fault) = sector.tidy() {
            return Err(fault);
        }
    }
    Ok(())
}

/// Nothing is loose any more.
pub fn forget_all<P: LocalPiece>(sectors: &mut Vec<MapSector<P>>)
    requires { (map : ℕ) → map < length sectors.old.items → IsFirm (sector_at (sectors_seen P.seen sectors.old.items) map) }
    ensures turns { EachSector (λ map. Turns NoneLoose) (sectors_seen P.seen sectors.old.items) (sectors_seen P.seen sectors.new.items) }
    ensures shut { EachSector (λ map old new. IsShut new) (sectors_seen P.seen sectors.old.items) (sectors_seen P.seen sectors.new.items) }
{
    for map in 0..sectors.len() {
        let sector = &mut sectors[map];
        sector.forget();
    }
}

/// Puts the bit of a region in each map of the mask on every copy, and stops at the first that fails.
pub fn put_all<P: LocalPiece>(
    sectors: &mut Vec<MapSector<P>>,
    region: u64,
    bits: u64,
    on: bool,
) -> Result<(), MarkFault>
    requires maps { length sectors.old.items ≡ 32 }
    requires clean { AreClean (sectors_seen P.seen sectors.old.items) }
    ensures each { EachSector (λ map. IsBitPut (asked bits region map) on result) (sectors_seen P.seen sectors.old.items) (sectors_seen P.seen sectors.new.items) }
    ensures cause { HasCause (faults_in (sectors_seen P.seen sectors.old.items)) (faults_in (sectors_seen P.seen sectors.new.items)) (cut_in (sectors_seen P.seen sectors.new.items)) result }
    ensures counts { PageHands (λ map s. once_if (has bits map)) result (sectors_seen P.seen sectors.old.items) (sectors_seen P.seen sectors.new.items) }
    ensures same { OnOk result (EachSector (λ map old new. new.loose ≡ old.loose) (sectors_seen P.seen sectors.old.items) (sectors_seen P.seen sectors.new.items)) }
{
    for map in 0..32 {
        let sector = &mut sectors[map];
        if let Err(fault) = sector.put_if(contains(bits, map as u32), region, on) {
            return Err(fault);
        }
    }
    Ok(())
}

/// Leaves the bit of a region open in each map of the mask.
pub fn open_all<P: LocalPiece>(sectors: &mut Vec<MapSector<P>>, region: u64, bits: u64)
    requires { length sectors.old.items ≡ 32 }
    ensures { EachSector (λ map. Turns (BitOpened (asked bits region map))) (sectors_seen P.seen sectors.old.items) (sectors_seen P.seen sectors.new.items) }
{
    for map in 0..32 {
        let sector = &mut sectors[map];
        sector.open_if(contains(bits, map as u32), region);
    }
}

/// Writes what is loose again. Nothing is loose any more once all of it is done.
pub fn firm_all<P: LocalPiece>(sectors: &mut Vec<MapSector<P>>) -> Result<(), MarkFault>
    ensures each { IsFirmed result (sectors_seen P.seen sectors.old.items) (sectors_seen P.seen sectors.new.items) }
    ensures cause { HasCause (faults_in (sectors_seen P.seen sectors.old.items)) (faults_in (sectors_seen P.seen sectors.new.items)) (cut_in (sectors_seen P.seen sectors.new.items)) result }
    ensures counts { PageHands (λ map s. once_if (is_open s)) result (sectors_seen P.seen sectors.old.items) (sectors_seen P.seen sectors.new.items) }
    ensures shut { OnOk result (AreAll IsShut (sectors_seen P.seen sectors.new.items)) }
{
    if let Err(fault) = tidy_all(sectors) {
        return Err(fault);
    }
    forget_all(sectors);
    Ok(())
}

/// Puts the bit of a region in each map of the mask on every copy. Where that fails, these bits are left open.
pub fn change_all<P: LocalPiece>(
    sectors: &mut Vec<MapSector<P>>,
    region: u64,
    bits: u64,
    on: bool,
) -> Result<(), MarkFault>
    requires maps { length sectors.old.items ≡ 32 }
    requires clean { AreClean (sectors_seen P.seen sectors.old.items) }
    ensures each { IsChanged bits region on result (sectors_seen P.seen sectors.old.items) (sectors_seen P.seen sectors.new.items) }
    ensures cause { HasCause (faults_in (sectors_seen P.seen sectors.old.items)) (faults_in (sectors_seen P.seen sectors.new.items)) (cut_in (sectors_seen P.seen sectors.new.items)) result }
    ensures counts { PageHands (λ map s. once_if (has bits map)) result (sectors_seen P.seen sectors.old.items) (sectors_seen P.seen sectors.new.items) }
    ensures same { OnOk result (EachSector (λ map old new. new.loose ≡ old.loose) (sectors_seen P.seen sectors.old.items) (sectors_seen P.seen sectors.new.items)) }
{
    if let Err(fault) = put_all(sectors, region, bits, on) {
        open_all(sectors, region, bits);
        return Err(fault);
    }
    Ok(())
}

/// Marks a region in each map of the mask.
pub fn mark_all<P: LocalPiece>(
    sectors: &mut Vec<MapSector<P>>,
    region: u64,
    bits: u64,
) -> Result<(), MarkFault>
    requires { length sectors.old.items ≡ 32 }
    ensures each { IsMarkedIn bits region result (sectors_seen P.seen sectors.old.items) (sectors_seen P.seen sectors.new.items) }
    ensures cause { HasCause (faults_in (sectors_seen P.seen sectors.old.items)) (faults_in (sectors_seen P.seen sectors.new.items)) (cut_in (sectors_seen P.seen sectors.new.items)) result }
    ensures counts { PageHands (writes_of bits) result (sectors_seen P.seen sectors.old.items) (sectors_seen P.seen sectors.new.items) }
    ensures shut { OnOk result (AreAll IsShut (sectors_seen P.seen sectors.new.items)) }
{
    if let Err(fault) = firm_all(sectors) {
        return Err(fault);
    }
    change_all(sectors, region, bits, true)
}

/// Takes the marks of a region away in each map of the mask. Where that fails, they are left open.
pub fn unmark_all<P: LocalPiece>(
    sectors: &mut Vec<MapSector<P>>,
    region: u64,
    bits: u64,
) -> Result<(), MarkFault>
    requires { length sectors.old.items ≡ 32 }
    ensures each { IsUnmarkedIn bits region result (sectors_seen P.seen sectors.old.items) (sectors_seen P.seen sectors.new.items) }
    ensures cause { HasCause (faults_in (sectors_seen P.seen sectors.old.items)) (faults_in (sectors_seen P.seen sectors.new.items)) (cut_in (sectors_seen P.seen sectors.new.items)) result }
    ensures counts { PageHands (writes_of bits) result (sectors_seen P.seen sectors.old.items) (sectors_seen P.seen sectors.new.items) }
    ensures shut { OnOk result (AreAll IsShut (sectors_seen P.seen sectors.new.items)) }
{
    if let Err(fault) = firm_all(sectors) {
        open_all(sectors, region, bits);
        return Err(fault);
    }
    change_all(sectors, region, bits, false)
}

/// Makes the bits of a map these of 512 bytes on every copy. Where that fails, those that differ are left open.
pub fn set_all<P: LocalPiece>(
    sectors: &mut Vec<MapSector<P>>,
    map: u32,
    image: &[u8],
) -> Result<(), MarkFault>
    requires maps { length sectors.old.items ≡ 32 }
    requires map { map < 32 }
    requires whole { length image.now ≡ 512 }
    ensures each { IsSetIn map (bit_in image.now) result (sectors_seen P.seen sectors.old.items) (sectors_seen P.seen sectors.new.items) }
    ensures cause { HasCause (faults_in (sectors_seen P.seen sectors.old.items)) (faults_in (sectors_seen P.seen sectors.new.items)) (cut_in (sectors_seen P.seen sectors.new.items)) result }
{
    if let Err(fault) = firm_all(sectors) {
        return Err(fault);
    }
    set_one(sectors, map, image)
}

/// The same, where nothing is loose.
fn set_one<P: LocalPiece>(
    sectors: &mut Vec<MapSector<P>>,
    map: u32,
    image: &[u8],
) -> Result<(), MarkFault>
    requires maps { length sectors.old.items ≡ 32 }
    requires clean { AreClean (sectors_seen P.seen sectors.old.items) }
    requires map { map < 32 }
    requires whole { length image.now ≡ 512 }
    ensures each { SetEach map (bit_in image.now) result (sectors_seen P.seen sectors.old.items) (sectors_seen P.seen sectors.new.items) }
    ensures cause { HasCause (faults_in (sectors_seen P.seen sectors.old.items)) (faults_in (sectors_seen P.seen sectors.new.items)) (cut_in (sectors_seen P.seen sectors.new.items)) result }
{
    let sector = &mut sectors[map as usize];
    sector.set(image)
}

/// The maps that claim a mark of the region.
pub fn marks_at<P: LocalPiece>(sectors: &Vec<MapSector<P>>, region: u64) -> u64
    requires { length sectors.now.items ≡ 32 }
    ensures { (map : ℕ) → has result map ≡ is_sure (sector_at (sectors_seen P.seen sectors.now.items) map) region }
{
    let mut marks = 0;
    for map in 0..32 {
        let sector = &sectors[map];
        marks = with_map(marks, map as u32, sector.is_marked(region));
    }
    marks
}

/// The mask and this map, if it is to be there.
fn with_map(marks: u64, map: u32, there: bool) -> u64
    requires { map < 64 }
    ensures { (other : ℕ) → has result other ≡ (has marks other || (other == map && there)) }
{
    if there { with(marks, of(map)) } else { marks }
}

/// Reads each sector of one copy, and stops at the first that fails.
pub fn fetch_all<P: LocalPiece>(
    sectors: &mut Vec<MapSector<P>>,
    copy: u8,
    images: &mut Vec<Vec<u8>>,
) -> Result<(), MarkFault>
    requires maps { length sectors.old.items ≡ 32 }
    requires there { AreAll (λ s. IsCopyOf copy s.copies) (sectors_seen P.seen sectors.old.items) }
    requires images { AreImages (images_seen images.old.items) }
    ensures reads { EachSector (λ map. ReadsSector) (sectors_seen P.seen sectors.old.items) (sectors_seen P.seen sectors.new.items) }
    ensures gives { GiveCopy copy (images_seen images.new.items) (sectors_seen P.seen sectors.old.items) result }
    ensures images { AreImages (images_seen images.new.items) }
    ensures at { IsFaultAt copy result }
    ensures cause { HasCause (faults_in (sectors_seen P.seen sectors.old.items)) (faults_in (sectors_seen P.seen sectors.new.items)) (cut_in (sectors_seen P.seen sectors.new.items)) result }
{
    for map in 0..32 {
        let sector = &mut sectors[map];
        let image = &mut images[map];
        if let Err(fault) = sector.fetch(copy, image) {
            return Err(fault);
        }
    }
    Ok(())
}

/// Makes each copy of each sector hold its image, and stops at the first that fails. A copy that is known to hold them is not
/// called.
pub fn settle_all<P: LocalPiece>(
    sectors: &mut Vec<MapSector<P>>,
    images: &Vec<Vec<u8>>,
    known: Option<u8>,
) -> Result<(), MarkFault>
    requires maps { length sectors.old.items ≡ 32 }
    requires open { AreAll IsOpen (sectors_seen P.seen sectors.old.items) }
    requires images { AreImages (images_seen images.now.items) }
    requires known { AreKnownOn known (images_seen images.now.items) (sectors_seen P.seen sectors.old.items) }
    ensures settled { AreSettled (images_seen images.now.items) (sectors_seen P.seen sectors.old.items) (sectors_seen P.seen sectors.new.items) result }
    ensures cause { HasRisen (faults_in (sectors_seen P.seen sectors.old.items)) (faults_in (sectors_seen P.seen sectors.new.items)) (cut_in (sectors_seen P.seen sectors.new.items)) result }
{
    for map in 0..32 {
        let sector = &mut sectors[map];
        if let Err(fault) = sector.settle(&images[map], known) {
            return Err(fault);
        }
    }
    Ok(())
}

/// Sets when a power switch is to act on the pieces of each sector.
pub fn arm_all<P: LocalPiece>(sectors: &mut Vec<MapSector<P>>, stop: Option<u64>)
    ensures { sectors_seen P.seen sectors.new.items ≡ armed_sectors stop (sectors_seen P.seen sectors.old.items) }
{
    for map in 0..sectors.len() {
        let sector = &mut sectors[map];
        sector.arm(stop);
    }
}

/// Each sector gives up its piece on one of two copies, 0 or 1. They come into `gone`, in order.
pub fn give_up_all<P: LocalPiece>(sectors: &mut Vec<MapSector<P>>, copy: u8, gone: &mut Vec<P>)
    requires some { copy < 2 }
    requires pairs { ArePaired true (sectors_seen P.seen sectors.old.items) }
    requires empty { gone.old.items ≡ [] }
    requires room { length sectors.old.items ≤ vec_capacity gone.old }
    ensures left { sectors_seen P.seen sectors.new.items ≡ only_sectors (1 - copy) (sectors_seen P.seen sectors.old.items) }
    ensures gone { map_of P.seen gone.new.items ≡ pieces_on copy (sectors_seen P.seen sectors.old.items) }
    ensures capacity { vec_capacity gone.new ≡ vec_capacity gone.old }
{
    for map in 0..sectors.len() {
        let sector = &mut sectors[map];
        gone.push_reserved(sector.give_up(copy));
    }
}
