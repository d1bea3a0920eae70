//! A store is made of the pieces of its copies, and gives them back.

ghost use Rattle.std.specs.Prelude.{◌≡◌, ◌≤◌, ℕ, ◌/◌, [], length, is_some, vec_capacity, IfOk, IfErr};
ghost use Rattle.vx_mapfmt.specs.Sizes.{page_count};
ghost use Rattle.vx_maps.specs.Copies.{AreCopies, SameRuns};
ghost use Rattle.vx_pages.specs.Pages.{grid_seen};
ghost use Rattle.vx_maps.specs.Sheets.{sheets_seen};
ghost use Rattle.vx_pages.specs.Sector.{IsOpen};
ghost use Rattle.vx_maps.specs.Slots.{AreHoled, ArePairedRows, AreWhole};
ghost use Rattle.vx_maps.specs.Spares.{HasRoom, copies_seen};
ghost use Rattle.vx_maps.specs.Store.{AreLogsOf, pages_seen};
ghost use Rattle.vx_maps.specs.Wholes.{copy_faults, store_copies, store_faults, whole_copies, whole_faults};

use crate::cutting::{drain_pages, fill_pages};
use crate::joining::{Cut, Spares, cut_sheets, join_sheets};
use crate::slots::Sheets;
use crate::store::{Base, MapStore};
use std::alloc::Global;
use vx_base::OutOfMemory;
use vx_mapfmt::DcoShape;
use vx_pages::{LocalPiece, Page};
use vx_piece::Piece;

/// A store, and the memory to put its copies together again.
#[derive(Drop)]
pub struct CutStore<P: LocalPiece> {
    pub store: MapStore<P>,
    pub spares: Spares<P>,
}

/// Puts the pieces of pages and those between them together.
pub fn join_whole<P: LocalPiece + Drop>(
    shape: &DcoShape,
    mut sheets: Sheets<P>,
    pages: Vec<Page<P>>,
    spares: Spares<P>,
) -> Vec<Vec<P>>
    requires few { length pages.items ≤ page_count shape.now.regions }
    requires holed { AreHoled (shape.now.map_bytes / 512) (grid_seen P.seen pages.items) (sheets_seen P.seen sheets) }
    requires pairs { ArePairedRows (is_some (sheets_seen P.seen sheets).second) (grid_seen P.seen pages.items) }
    requires room { HasRoom (sheets_seen P.seen sheets) spares }
    ensures copies { copies_seen P.seen result.items ≡ whole_copies (shape.now.map_bytes / 512) (grid_seen P.seen pages.items) (sheets_seen P.seen sheets) }
    ensures faults { (copy device : ℕ) → copy_faults (copies_seen P.seen result.items) copy device ≡ whole_faults (grid_seen P.seen pages.items) (sheets_seen P.seen sheets) copy device }
{
    drain_pages(shape, &mut sheets, pages);
    join_sheets(sheets, spares)
}

/// Cuts copies into a store's pages and what lies between. Nothing is claimed, and all bits are loose. After a refusal each
/// copy is the same run, perhaps of more pieces.
pub fn cut_store<P: Piece + Drop>(
    alloc: Global,
    shape: DcoShape,
    copies: Vec<Vec<P>>,
) -> Result<CutStore<P>, (Vec<Vec<P>>, OutOfMemory)>
    requires { AreCopies (shape.map_bytes / 512) (copies_seen P.seen copies.items) }
    ensures shape { IfOk result (λ cut. cut.store.base.shape ≡ shape) }
    ensures open { IfOk result (λ cut. AreLogsOf shape.regions (is_some (sheets_seen P.seen cut.store.base.sheets).second) IsOpen (grid_seen P.seen cut.store.pages.items) (pages_seen P.seen cut.store.pages.items)) }
    ensures room { IfOk result (λ cut. HasRoom (sheets_seen P.seen cut.store.base.sheets) cut.spares) }
    ensures same { IfOk result (λ cut. SameRuns (copies_seen P.seen copies.items) (store_copies P.seen cut.store)) }
    ensures faults { IfOk result (λ cut. (copy device : ℕ) → store_faults P.seen cut.store copy device ≡ copy_faults (copies_seen P.seen copies.items) copy device) }
    ensures kept { IfErr result (λ x. SameRuns (copies_seen P.seen copies.items) (copies_seen P.seen x.0.items)) }
{
    let Ok(pages) = Vec::with_capacity(alloc, shape.pages() as usize) else {
        return Err((copies, OutOfMemory));
    };
    match cut_sheets(alloc, shape.map_bytes / 512, copies) {
        Ok(cut) => fill_store(alloc, shape, cut, pages),
        Err((copies, _)) => Err((copies, OutOfMemory)),
    }
}

/// Makes a store of copies in slots.
fn fill_store<P: LocalPiece + Drop>(
    alloc: Global,
    shape: DcoShape,
    cut: Cut<P>,
    mut pages: Vec<Page<P>>,
) -> Result<CutStore<P>, (Vec<Vec<P>>, OutOfMemory)>
    requires none { pages.items ≡ [] }
    requires pages { page_count shape.regions ≤ vec_capacity pages }
    requires whole { AreWhole (shape.map_bytes / 512) (sheets_seen P.seen cut.sheets) }
    requires room { HasRoom (sheets_seen P.seen cut.sheets) cut.spares }
    ensures shape { IfOk result (λ made. made.store.base.shape ≡ shape) }
    ensures open { IfOk result (λ made. AreLogsOf shape.regions (is_some (sheets_seen P.seen made.store.base.sheets).second) IsOpen (grid_seen P.seen made.store.pages.items) (pages_seen P.seen made.store.pages.items)) }
    ensures room { IfOk result (λ made. HasRoom (sheets_seen P.seen made.store.base.sheets) made.spares) }
    ensures same { IfOk result (λ made. store_copies P.seen made.store ≡ whole_copies (shape.map_bytes / 512) [] (sheets_seen P.seen cut.sheets)) }
    ensures faults { IfOk result (λ made. (copy device : ℕ) → store_faults P.seen made.store copy device ≡ whole_faults [] (sheets_seen P.seen cut.sheets) copy device) }
    ensures kept { IfErr result (λ x. copies_seen P.seen x.0.items ≡ whole_copies (shape.map_bytes / 512) [] (sheets_seen P.seen cut.sheets)) }
{
    let Cut { mut sheets, spares } = cut;
    if fill_pages(alloc, &shape, &mut sheets, &mut pages).is_err() {
        return Err((join_whole(&shape, sheets, pages, spares), OutOfMemory));
    }
    let base = Base { shape, sheets };
    Ok(CutStore {
        store: MapStore { base, pages },
        spares,
    })
}
