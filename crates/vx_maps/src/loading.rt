//! The maps of a volume are loaded from its copies.

ghost use Rattle.std.specs.Prelude.{◌≡◌, ◌/◌, length, IfOk, IfErr, OnOk};
ghost use Rattle.vx_mapfmt.specs.Sizes.{page_count};
ghost use Rattle.vx_pages.specs.Pages.{grid_seen};
ghost use Rattle.vx_pages.specs.Reading.{HasRisen};
ghost use Rattle.vx_pages.specs.Sector.{IsOpen, KeepsPiece};
ghost use Rattle.vx_maps.specs.Copies.{AreCopies};
ghost use Rattle.vx_maps.specs.Creating.{AllBeginWith, AllTell};
ghost use Rattle.vx_maps.specs.Cutness.{store_cut};
ghost use Rattle.vx_maps.specs.Going.{CopiesGo, CutCopiesGo, StoreGoes, places_of};
ghost use Rattle.vx_maps.specs.Loading.{AreOpen, AreReadRows, AreRows, FilledAt, GridSettled, IsFilledAs, IsKnownCopy, IsLoaded, IsNotLoaded, IsSettledAs, IsUnfilledAs, header_of, rows_seen};
ghost use Rattle.vx_maps.specs.Narrowing.{AreNarrowed};
ghost use Rattle.vx_maps.specs.Sheets.{sheets_seen};
ghost use Rattle.vx_maps.specs.Spares.{HasRoom, copies_seen};
ghost use Rattle.vx_maps.specs.Store.{pages_cut, pages_faults, pages_seen};
ghost use Rattle.vx_maps.specs.Stores.{shape_of, store_seen};
ghost use Rattle.vx_maps.specs.Wholes.{store_copies, store_faults};
ghost use Rattle.vx_maps.specs.Written.{AreWrittenFrom, MayBlank, MayHold, heads_of};

use crate::assembly::{CutStore, cut_store};
use crate::fault::{StoreFault, StoreRefused, fault_of};
use crate::header::{mend_heads, put_head};
use crate::reading::{find_copy, images_of};
use crate::store::MapStore;
use std::alloc::Global;
use vx_mapfmt::DcoShape;
use vx_marks::MarkFault;
use vx_pages::{LocalPiece, Page};
use vx_piece::Piece;

/// Makes each copy of each page hold its images, which were read of the chosen one, and stops at the first write that fails.
fn settle_pages<P: LocalPiece>(
    pages: &mut Vec<Page<P>>,
    images: &Vec<Vec<Vec<u8>>>,
    chosen: u8,
    regions: u64,
) -> Result<(), MarkFault>
    requires open { AreOpen (grid_seen P.seen pages.old.items) }
    requires count { length pages.old.items ≡ page_count regions }
    requires images { AreRows (length pages.old.items) (rows_seen images.now.items) }
    requires read { AreReadRows chosen regions (rows_seen images.now.items) (grid_seen P.seen pages.old.items) }
    ensures places { places_of pages.new.items ≡ places_of pages.old.items }
    ensures settled { IsSettledAs (rows_seen images.now.items) (grid_seen P.seen pages.old.items) (grid_seen P.seen pages.new.items) result }
    ensures cause { HasRisen (pages_faults (pages_seen P.seen pages.old.items)) (pages_faults (pages_seen P.seen pages.new.items)) (pages_cut (pages_seen P.seen pages.new.items)) result }
{
    for index in 0..pages.len() {
        let page = &mut pages[index];
        let known = known_copy(chosen, regions - 4096 * index as u64);
        if let Err(fault) = page.settle(&images[index], known) {
            return Err(fault);
        }
    }
    Ok(())
}

/// The copy that was read, where no bit was taken away of what it holds of a page of which so many regions are the volume's.
fn known_copy(chosen: u8, inside: u64) -> Option<u8>
    ensures { IsKnownCopy chosen inside result }
{
    if inside < 4096 { None } else { Some(chosen) }
}

/// Makes each copy of each page of a store hold its images, which were read of the chosen one.
fn settle_store<P: LocalPiece + Drop>(
    store: &mut MapStore<P>,
    images: &Vec<Vec<Vec<u8>>>,
    chosen: u8,
) -> Result<(), MarkFault>
    requires open { AreOpen (grid_seen P.seen store.old.pages.items) }
    requires images { AreRows (page_count store.old.base.shape.regions) (rows_seen images.now.items) }
    requires read { AreReadRows chosen store.old.base.shape.regions (rows_seen images.now.items) (grid_seen P.seen store.old.pages.items) }
    ensures goes { StoreGoes P.seen KeepsPiece store.old store.new }
    ensures base { store.new.base ≡ store.old.base }
    ensures settled { IsSettledAs (rows_seen images.now.items) (grid_seen P.seen store.old.pages.items) (grid_seen P.seen store.new.pages.items) result }
    ensures cause { HasRisen (store_faults P.seen store.old) (store_faults P.seen store.new) (store_cut P.seen store.new) result }
{
    settle_pages(&mut store.pages, images, chosen, store.base.shape.regions)
}

/// Makes the first sector of each copy the header.
fn mend_store<P: LocalPiece + Drop>(store: &mut MapStore<P>) -> Result<(), MarkFault>
    ensures goes { StoreGoes P.seen KeepsPiece store.old store.new }
    ensures pages { store.new.pages ≡ store.old.pages }
    ensures heads { OnOk result (AllBeginWith (header_of store.old.base.shape) (store_copies P.seen store.new)) }
    ensures firsts { MayHold (header_of store.old.base.shape) (heads_of (sheets_seen P.seen store.old.base.sheets)) (heads_of (sheets_seen P.seen store.new.base.sheets)) }
    ensures cause { HasRisen (store_faults P.seen store.old) (store_faults P.seen store.new) (store_cut P.seen store.new) result }
{
    let mut sector = [0; 512];
    store.base.shape.put_header(&mut sector);
    mend_heads(&mut store.base.sheets, &sector)
}

/// Blanks the first sector of the first copy, if it is asked for.
fn blank_if<P: LocalPiece + Drop>(store: &mut MapStore<P>, asked: bool) -> Result<(), MarkFault>
    ensures goes { StoreGoes P.seen KeepsPiece store.old store.new }
    ensures pages { store.new.pages ≡ store.old.pages }
    ensures firsts { MayBlank asked (heads_of (sheets_seen P.seen store.old.base.sheets)) (heads_of (sheets_seen P.seen store.new.base.sheets)) }
    ensures cause { HasRisen (store_faults P.seen store.old) (store_faults P.seen store.new) (store_cut P.seen store.new) result }
{
    if asked {
        put_head(&mut store.base.sheets, &[0; 512])
    } else {
        Ok(())
    }
}

/// Makes each copy hold the images, which were read of the chosen one, and then the header. The first copy has no header meanwhile, if it
/// was passed over: so no copy with a header has maps of which a part was read of another one that it was not read with.
fn write_copies<P: LocalPiece + Drop>(
    store: &mut MapStore<P>,
    chosen: u8,
    images: &Vec<Vec<Vec<u8>>>,
) -> Result<(), MarkFault>
    requires open { AreOpen (grid_seen P.seen store.old.pages.items) }
    requires images { AreRows (page_count store.old.base.shape.regions) (rows_seen images.now.items) }
    requires read { AreReadRows chosen store.old.base.shape.regions (rows_seen images.now.items) (grid_seen P.seen store.old.pages.items) }
    ensures goes { StoreGoes P.seen KeepsPiece store.old store.new }
    ensures settled { OnOk result (GridSettled (rows_seen images.now.items) (grid_seen P.seen store.old.pages.items) (grid_seen P.seen store.new.pages.items)) }
    ensures heads { OnOk result (AllBeginWith (header_of store.old.base.shape) (store_copies P.seen store.new)) }
    ensures written { AreWrittenFrom (header_of store.old.base.shape) chosen (rows_seen images.now.items) (heads_of (sheets_seen P.seen store.old.base.sheets)) (heads_of (sheets_seen P.seen store.new.base.sheets)) (grid_seen P.seen store.old.pages.items) (grid_seen P.seen store.new.pages.items) }
    ensures cause { HasRisen (store_faults P.seen store.old) (store_faults P.seen store.new) (store_cut P.seen store.new) result }
{
    if let Err(fault) = blank_if(store, chosen != 0) {
        return Err(fault);
    }
    if let Err(fault) = settle_store(store, images, chosen) {
        return Err(fault);
    }
    mend_store(store)
}

/// Reads the first copy that can be read, and makes each copy what was read.
fn fill_store<P: LocalPiece + Drop>(
    store: &mut MapStore<P>,
    images: &mut Vec<Vec<Vec<u8>>>,
) -> Result<(), StoreFault>
    requires open { AreOpen (grid_seen P.seen store.old.pages.items) }
    requires images { AreRows (page_count store.old.base.shape.regions) (rows_seen images.old.items) }
    ensures goes { StoreGoes P.seen KeepsPiece store.old store.new }
    ensures filled { IsFilledAs (header_of store.old.base.shape) store.old.base.shape.regions (store_faults P.seen store.old) (store_faults P.seen store.new) (store_cut P.seen store.new) (store_copies P.seen store.old) (store_copies P.seen store.new) (grid_seen P.seen store.old.pages.items) (grid_seen P.seen store.new.pages.items) result }
    ensures narrowed { AllTell (store_copies P.seen store.old) → AreNarrowed (header_of store.old.base.shape) store.old.base.shape.regions (store_copies P.seen store.old) (store_copies P.seen store.new) }
{
    match find_copy(store, images) {
        Ok(chosen) => match write_copies(store, chosen, images) {
            Ok(()) => Ok(()),
            Err(fault) => Err(fault_of(fault)),
        },
        Err(fault) => Err(fault),
    }
}

/// Loads a store that was cut out of its copies, or gives them back.
fn load_in<P: LocalPiece + Drop>(
    cut: CutStore<P>,
    mut images: Vec<Vec<Vec<u8>>>,
) -> Result<MapStore<P>, StoreRefused<P>>
    requires open { AreOpen (grid_seen P.seen cut.store.pages.items) }
    requires images { AreRows (page_count cut.store.base.shape.regions) (rows_seen images.items) }
    requires room { HasRoom (sheets_seen P.seen cut.store.base.sheets) cut.spares }
    ensures goes { IfOk result (λ store. StoreGoes P.seen KeepsPiece cut.store store) }
    ensures filled { IfOk result (λ store. FilledAt (header_of cut.store.base.shape) cut.store.base.shape.regions (store_faults P.seen cut.store) (store_faults P.seen store) (store_copies P.seen cut.store) (store_copies P.seen store) (grid_seen P.seen cut.store.pages.items) (grid_seen P.seen store.pages.items)) }
    ensures refused { IfErr result (λ refused. IsUnfilledAs (header_of cut.store.base.shape) refused.fault (store_faults P.seen cut.store) (store_copies P.seen cut.store) (copies_seen P.seen refused.copies.items)) }
    ensures back { IfErr result (λ refused. CopiesGo KeepsPiece (store_copies P.seen cut.store) (copies_seen P.seen refused.copies.items)) }
    ensures loaded { IfOk result (λ store. AllTell (store_copies P.seen cut.store) → AreNarrowed (header_of cut.store.base.shape) cut.store.base.shape.regions (store_copies P.seen cut.store) (store_copies P.seen store)) }
    ensures narrowed { IfErr result (λ refused. AllTell (store_copies P.seen cut.store) → AreNarrowed (header_of cut.store.base.shape) cut.store.base.shape.regions (store_copies P.seen cut.store) (copies_seen P.seen refused.copies.items)) }
{
    let CutStore { mut store, spares } = cut;
    match fill_store(&mut store, &mut images) {
        Ok(()) => Ok(store),
        Err(fault) => Err(StoreRefused {
            fault,
            copies: store.into_copies_in(spares),
        }),
    }
}

impl<P: Piece + Drop> MapStore<P> {
    /// The store of a volume whose maps lie on these copies: it claims what the first copy marks that can be read, and makes each
    /// copy mark that. A copy can be read where it begins with the header and no call on it fails. Each copy has to have the size
    /// of the shape, and no piece of it is empty.
    ///
    /// What a copy is known to hold, as it was read, is not read again. A sector of another one is written where it differs or cannot be read,
    /// and the header is written last. A copy before the
    /// one that was read has its first sector blanked until then: it counts for nothing while it has a part of its old maps and
    /// a part of the new ones. A copy behind it keeps a header that it has: it counts as before, and each of its sectors is the old
    /// one or that of the copy that was read, so what all copies mark, and what some mark, come closer to that copy with each write.
    pub fn load(
        alloc: Global,
        shape: DcoShape,
        copies: Vec<Vec<P>>,
    ) -> Result<MapStore<P>, StoreRefused<P>>
        requires { AreCopies (shape.map_bytes / 512) (copies_seen P.seen copies.items) }
        ensures shape { IfOk result (λ store. shape_of store ≡ shape) }
        ensures loaded { IfOk result (λ store. IsLoaded (header_of shape) shape.regions (copies_seen P.seen copies.items) (store_faults P.seen store) (store_copies P.seen store) (store_seen P.seen store)) }
        ensures goes { IfOk result (λ store. CutCopiesGo KeepsPiece (copies_seen P.seen copies.items) (store_copies P.seen store)) }
        ensures refused { IfErr result (λ refused. IsNotLoaded (header_of shape) refused.fault (copies_seen P.seen copies.items) (copies_seen P.seen refused.copies.items)) }
        ensures back { IfErr result (λ refused. CutCopiesGo KeepsPiece (copies_seen P.seen copies.items) (copies_seen P.seen refused.copies.items)) }
        ensures narrowed { IfErr result (λ refused. AllTell (copies_seen P.seen copies.items) → AreNarrowed (header_of shape) shape.regions (copies_seen P.seen copies.items) (copies_seen P.seen refused.copies.items)) }
    {
        let Ok(images) = images_of(alloc, shape.pages()) else {
            return Err(StoreRefused {
                fault: StoreFault::OutOfMemory,
                copies,
            });
        };
        match cut_store(alloc, shape, copies) {
            Ok(cut) => load_in(cut, images),
            Err((copies, _)) => Err(StoreRefused {
                fault: StoreFault::OutOfMemory,
                copies,
            }),
        }
    }
}
