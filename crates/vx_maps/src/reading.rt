//! A copy of a store is read.

ghost use Rattle.std.specs.Prelude.{◌≡◌, ◌<◌, ◌-◌, ◌*◌, ◌/◌, true, length, is_some, IfOk};
ghost use Rattle.vx_mapfmt.specs.Sizes.{page_count};
ghost use Rattle.vx_pages.specs.Images.{images_seen};
ghost use Rattle.vx_pages.specs.Page.{AreAll, EachSector, cut_in, faults_in};
ghost use Rattle.vx_pages.specs.Pages.{SamePage, grid_seen, sectors_of};
ghost use Rattle.vx_pages.specs.Reading.{AreImages, IsCopyOf, IsFaultAt, ReadsSector};
ghost use Rattle.vx_pages.specs.Sector.{HasCause};
ghost use Rattle.vx_maps.specs.Cutness.{store_cut};
ghost use Rattle.vx_maps.specs.Going.{ReadsPiece, StoreGoes, places_of};
ghost use Rattle.vx_maps.specs.Loading.{AreCopied, AreRows, GiveClipped, GiveRows, GridReads, IsFoundFrom, IsHeadAs, IsReadAs, IsTriedAs, header_of, rows_seen};
ghost use Rattle.vx_maps.specs.Sheets.{sheets_seen};
ghost use Rattle.vx_maps.specs.Slots.{copies_in, row_at};
ghost use Rattle.vx_maps.specs.Store.{pages_cut, pages_faults, pages_seen};
ghost use Rattle.vx_maps.specs.Wholes.{store_copies, store_faults};

use crate::fault::StoreFault;
use crate::header::get_head;
use crate::store::MapStore;
use std::alloc::Global;
use vx_base::OutOfMemory;
use vx_marks::MarkFault;
use vx_pages::{LocalPiece, Page, clip_all, empty_page};

/// The memory for what is read of a copy: for each page a sector for each map.
pub fn images_of(alloc: Global, pages: u64) -> Result<Vec<Vec<Vec<u8>>>, OutOfMemory>
    ensures { IfOk result (λ images. AreRows pages (rows_seen images.items)) }
{
    let mut rows = Vec::with_capacity(alloc, pages as usize)?;
    for _page in 0..pages {
        rows.push_reserved(row_of(alloc)?);
    }
    Ok(rows)
}

/// A sector for each map.
fn row_of(alloc: Global) -> Result<Vec<Vec<u8>>, OutOfMemory>
    ensures { IfOk result (λ row. AreImages (images_seen row.items)) }
{
    let mut row = Vec::with_capacity(alloc, 32)?;
    for _map in 0..32u64 {
        row.push_reserved(empty_page(alloc)?);
    }
    Ok(row)
}

/// Reads a page from one copy. The bits behind the volume's last region are taken away.
fn fetch_page<P: LocalPiece>(
    page: &mut Page<P>,
    copy: u8,
    inside: u64,
    row: &mut Vec<Vec<u8>>,
) -> Result<(), MarkFault>
    requires there { AreAll (λ s. IsCopyOf copy s.copies) (sectors_of P.seen page.old) }
    requires images { AreImages (images_seen row.old.items) }
    ensures page { SamePage page.old page.new }
    ensures reads { EachSector (λ map. ReadsSector) (sectors_of P.seen page.old) (sectors_of P.seen page.new) }
    ensures gives { GiveClipped copy inside (images_seen row.new.items) (sectors_of P.seen page.old) result }
    ensures images { AreImages (images_seen row.new.items) }
    ensures at { IsFaultAt copy result }
    ensures cause { HasCause (faults_in (sectors_of P.seen page.old)) (faults_in (sectors_of P.seen page.new)) (cut_in (sectors_of P.seen page.new)) result }
{
    if let Err(fault) = page.fetch(copy, row) {
        return Err(fault);
    }
    if inside < 4096 {
        clip_all(row, inside);
    }
    Ok(())
}

/// Reads each page from one copy, and stops at the first that fails.
fn fetch_pages<P: LocalPiece>(
    pages: &mut Vec<Page<P>>,
    copy: u8,
    regions: u64,
    images: &mut Vec<Vec<Vec<u8>>>,
) -> Result<(), MarkFault>
    requires count { length pages.old.items ≡ page_count regions }
    requires there { AreCopied copy (grid_seen P.seen pages.old.items) }
    requires images { AreRows (length pages.old.items) (rows_seen images.old.items) }
    ensures places { places_of pages.new.items ≡ places_of pages.old.items }
    ensures reads { GridReads (grid_seen P.seen pages.old.items) (grid_seen P.seen pages.new.items) }
    ensures gives { GiveRows copy regions (rows_seen images.new.items) (grid_seen P.seen pages.old.items) result }
    ensures images { AreRows (length pages.old.items) (rows_seen images.new.items) }
    ensures at { IsFaultAt copy result }
    ensures cause { HasCause (pages_faults (pages_seen P.seen pages.old.items)) (pages_faults (pages_seen P.seen pages.new.items)) (pages_cut (pages_seen P.seen pages.new.items)) result }
{
    for index in 0..pages.len() {
        let page = &mut pages[index];
        let row = &mut images[index];
        if let Err(fault) = fetch_page(page, copy, regions - 4096 * index as u64, row) {
            return Err(fault);
        }
    }
    Ok(())
}

/// Reads the first sector of a copy, and then each page, if it is the header. Whether it is.
fn read_copy<P: LocalPiece + Drop>(
    store: &mut MapStore<P>,
    copy: u8,
    images: &mut Vec<Vec<Vec<u8>>>,
) -> Result<bool, MarkFault>
    requires there { copy < copies_in (sheets_seen P.seen store.old.base.sheets) }
    requires images { AreRows (page_count store.old.base.shape.regions) (rows_seen images.old.items) }
    ensures goes { StoreGoes P.seen ReadsPiece store.old store.new }
    ensures grid { GridReads (grid_seen P.seen store.old.pages.items) (grid_seen P.seen store.new.pages.items) }
    ensures head { IfOk result (IsReadAs copy (header_of store.old.base.shape) store.old.base.shape.regions (store_copies P.seen store.old) (rows_seen images.new.items) (grid_seen P.seen store.old.pages.items)) }
    ensures images { AreRows (page_count store.old.base.shape.regions) (rows_seen images.new.items) }
    ensures at { IsFaultAt copy result }
    ensures cause { HasCause (store_faults P.seen store.old) (store_faults P.seen store.new) (store_cut P.seen store.new) result }
{
    match is_headed(store, copy) {
        Ok(true) => match fetch_store(store, copy, images) {
            Ok(()) => Ok(true),
            Err(fault) => Err(fault),
        },
        Ok(false) => Ok(false),
        Err(fault) => Err(fault),
    }
}

/// Whether a copy begins with the header.
fn is_headed<P: LocalPiece + Drop>(store: &mut MapStore<P>, copy: u8) -> Result<bool, MarkFault>
    requires { copy < copies_in (sheets_seen P.seen store.old.base.sheets) }
    ensures goes { StoreGoes P.seen ReadsPiece store.old store.new }
    ensures pages { store.new.pages ≡ store.old.pages }
    ensures head { IfOk result (λ headed. IsHeadAs headed copy (header_of store.old.base.shape) (store_copies P.seen store.old)) }
    ensures at { IsFaultAt copy result }
    ensures cause { HasCause (store_faults P.seen store.old) (store_faults P.seen store.new) (store_cut P.seen store.new) result }
{
    let mut sector = [0; 512];
    match get_head(&mut store.base.sheets, copy, &mut sector) {
        Ok(()) => Ok(store.base.shape.is_header(&sector)),
        Err(fault) => Err(fault),
    }
}

/// Reads each page of a store from one copy.
fn fetch_store<P: LocalPiece + Drop>(
    store: &mut MapStore<P>,
    copy: u8,
    images: &mut Vec<Vec<Vec<u8>>>,
) -> Result<(), MarkFault>
    requires there { copy < copies_in (sheets_seen P.seen store.old.base.sheets) }
    requires images { AreRows (page_count store.old.base.shape.regions) (rows_seen images.old.items) }
    ensures goes { StoreGoes P.seen ReadsPiece store.old store.new }
    ensures grid { GridReads (grid_seen P.seen store.old.pages.items) (grid_seen P.seen store.new.pages.items) }
    ensures gives { GiveRows copy store.old.base.shape.regions (rows_seen images.new.items) (grid_seen P.seen store.old.pages.items) result }
    ensures images { AreRows (page_count store.old.base.shape.regions) (rows_seen images.new.items) }
    ensures at { IsFaultAt copy result }
    ensures cause { HasCause (store_faults P.seen store.old) (store_faults P.seen store.new) (store_cut P.seen store.new) result }
{
    fetch_pages(&mut store.pages, copy, store.base.shape.regions, images)
}

/// Reads a copy. False where a call on it failed, or it does not begin with the header.
fn try_copy<P: LocalPiece + Drop>(
    store: &mut MapStore<P>,
    copy: u8,
    images: &mut Vec<Vec<Vec<u8>>>,
) -> Result<bool, StoreFault>
    requires there { copy < copies_in (sheets_seen P.seen store.old.base.sheets) }
    requires images { AreRows (page_count store.old.base.shape.regions) (rows_seen images.old.items) }
    ensures goes { StoreGoes P.seen ReadsPiece store.old store.new }
    ensures grid { GridReads (grid_seen P.seen store.old.pages.items) (grid_seen P.seen store.new.pages.items) }
    ensures tried { IsTriedAs copy (header_of store.old.base.shape) store.old.base.shape.regions (store_faults P.seen store.old) (store_faults P.seen store.new) (store_cut P.seen store.new) (store_copies P.seen store.old) (rows_seen images.new.items) (grid_seen P.seen store.old.pages.items) result }
    ensures images { AreRows (page_count store.old.base.shape.regions) (rows_seen images.new.items) }
{
    match read_copy(store, copy, images) {
        Ok(read) => Ok(read),
        Err(MarkFault::Failed { .. }) => Ok(false),
        Err(MarkFault::PowerLost | MarkFault::Busy) => Err(StoreFault::PowerLost),
    }
}

/// Reads the second copy, if there is one.
fn find_second<P: LocalPiece + Drop>(
    store: &mut MapStore<P>,
    images: &mut Vec<Vec<Vec<u8>>>,
) -> Result<u8, StoreFault>
    requires { AreRows (page_count store.old.base.shape.regions) (rows_seen images.old.items) }
    ensures goes { StoreGoes P.seen ReadsPiece store.old store.new }
    ensures grid { GridReads (grid_seen P.seen store.old.pages.items) (grid_seen P.seen store.new.pages.items) }
    ensures found { IsFoundFrom 1 (header_of store.old.base.shape) store.old.base.shape.regions (store_faults P.seen store.old) (store_faults P.seen store.new) (store_cut P.seen store.new) (store_copies P.seen store.old) (rows_seen images.new.items) (grid_seen P.seen store.old.pages.items) result }
    ensures images { AreRows (page_count store.old.base.shape.regions) (rows_seen images.new.items) }
{
    if store.base.sheets.second.is_none() {
        return Err(StoreFault::NoCopy);
    }
    match try_copy(store, 1, images) {
        Ok(true) => Ok(1),
        Ok(false) => Err(StoreFault::NoCopy),
        Err(fault) => Err(fault),
    }
}

/// Finds the first copy that is read whole and begins with the header.
pub fn find_copy<P: LocalPiece + Drop>(
    store: &mut MapStore<P>,
    images: &mut Vec<Vec<Vec<u8>>>,
) -> Result<u8, StoreFault>
    requires { AreRows (page_count store.old.base.shape.regions) (rows_seen images.old.items) }
    ensures goes { StoreGoes P.seen ReadsPiece store.old store.new }
    ensures grid { GridReads (grid_seen P.seen store.old.pages.items) (grid_seen P.seen store.new.pages.items) }
    ensures found { IsFoundFrom 0 (header_of store.old.base.shape) store.old.base.shape.regions (store_faults P.seen store.old) (store_faults P.seen store.new) (store_cut P.seen store.new) (store_copies P.seen store.old) (rows_seen images.new.items) (grid_seen P.seen store.old.pages.items) result }
    ensures images { AreRows (page_count store.old.base.shape.regions) (rows_seen images.new.items) }
{
    match try_copy(store, 0, images) {
        Ok(true) => Ok(0),
        Ok(false) => find_second(store, images),
        Err(fault) => Err(fault),
    }
}
