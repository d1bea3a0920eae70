//! The maps of a volume are created: no copy marks anything.

ghost use Rattle.std.specs.Prelude.{◌≡◌, ◌≤◌, ℕ, false, ◌/◌, length, IfOk, IfErr, OnOk, Ok};
ghost use Rattle.vx_mapfmt.specs.Header.{maps_header};
ghost use Rattle.vx_marks.specs.Log.{OnMarks};
ghost use Rattle.vx_maps.specs.Copies.{AreCopies};
ghost use Rattle.vx_maps.specs.Creating.{AllBeginWith, AllTell, AreBlank, IsRefusedAfter, IsRefusedFor};
ghost use Rattle.vx_pages.specs.Firm.{FirmsStore};
ghost use Rattle.vx_pages.specs.Sector.{HasCause, KeepsPiece};
ghost use Rattle.vx_maps.specs.Going.{CopiesGo, CutCopiesGo, StoreGoes};
ghost use Rattle.vx_maps.specs.Sheets.{sheets_seen};
ghost use Rattle.vx_maps.specs.Spares.{HasRoom, copies_seen};
ghost use Rattle.vx_maps.specs.Stores.{shape_of, store_seen};
ghost use Rattle.vx_maps.specs.Wholes.{copy_faults, store_copies, store_faults};
ghost use Rattle.vx_maps.specs.Cutness.{store_cut};
ghost use Rattle.vx_maps.specs.declared.joining.Spares.{Spares};

use crate::assembly::{CutStore, cut_store};
use crate::fault::{StoreFault, StoreRefused, fault_of};
use crate::header::put_heads;
use crate::store::MapStore;
use std::alloc::Global;
use vx_mapfmt::DcoShape;
use vx_marks::MarkFault;
use vx_pages::LocalPiece;
use vx_piece::Piece;

/// Writes the first sector of each copy of a store.
fn write_heads<P: LocalPiece + Drop>(
    store: &mut MapStore<P>,
    sector: &[u8],
) -> Result<(), MarkFault>
    requires { length sector.now ≡ 512 }
    ensures shape { store.new.base.shape ≡ store.old.base.shape }
    ensures goes { StoreGoes P.seen KeepsPiece store.old store.new }
    ensures log { store_seen P.seen store.new ≡ store_seen P.seen store.old }
    ensures room { (spares : Spares P) → HasRoom (sheets_seen P.seen store.old.base.sheets) spares → HasRoom (sheets_seen P.seen store.new.base.sheets) spares }
    ensures heads { OnOk result (AllBeginWith sector.now (store_copies P.seen store.new)) }
    ensures cause { HasCause (store_faults P.seen store.old) (store_faults P.seen store.new) (store_cut P.seen store.new) result }
{
    put_heads(&mut store.base.sheets, sector)
}

/// Makes each copy one without a mark. Its first sector is blank until all else is written, so that no copy has a header and
/// old marks.
fn write_new<P: LocalPiece + Drop>(store: &mut MapStore<P>) -> Result<(), MarkFault>
    ensures shape { store.new.base.shape ≡ store.old.base.shape }
    ensures goes { StoreGoes P.seen KeepsPiece store.old store.new }
    ensures room { (spares : Spares P) → HasRoom (sheets_seen P.seen store.old.base.sheets) spares → HasRoom (sheets_seen P.seen store.new.base.sheets) spares }
    ensures claims { (region map : ℕ) → (store_seen P.seen store.new).claims region map ≡ (store_seen P.seen store.old).claims region map }
    ensures told { OnOk result (OnMarks (FirmsStore {T = Unit {0}} (Ok tt)) (store_seen P.seen store.old).told (store_seen P.seen store.new).told) }
    ensures heads { OnOk result (AllBeginWith (maps_header store.old.base.shape.geometry.length store.old.base.shape.geometry.region store.old.base.shape.maps) (store_copies P.seen store.new)) }
    ensures cause { HasCause (store_faults P.seen store.old) (store_faults P.seen store.new) (store_cut P.seen store.new) result }
{
    let mut sector = [0; 512];
    if let Err(fault) = write_heads(store, &sector) {
        return Err(fault);
    }
    if let Err(fault) = store.firm() {
        return Err(fault);
    }
    store.base.shape.put_header(&mut sector);
    write_heads(store, &sector)
}

impl<P: Piece + Drop> MapStore<P> {
    /// The store of a volume of which nothing is marked yet: each copy gets maps of zeros, and then the header. Each copy has
    /// to have the size of the shape, and no piece of it is empty.
    pub fn create(
        alloc: Global,
        shape: DcoShape,
        copies: Vec<Vec<P>>,
    ) -> Result<MapStore<P>, StoreRefused<P>>
        requires { AreCopies (shape.map_bytes / 512) (copies_seen P.seen copies.items) }
        ensures shape { IfOk result (λ store. shape_of store ≡ shape) }
        ensures claims { IfOk result (λ store. (region map : ℕ) → (store_seen P.seen store).claims region map ≡ false) }
        ensures told { IfOk result (λ store. AllTell (copies_seen P.seen copies.items) → AreBlank (store_seen P.seen store).told) }
        ensures headed { IfOk result (λ store. AllBeginWith (maps_header shape.geometry.length shape.geometry.region 32) (store_copies P.seen store)) }
        ensures counts { IfOk result (λ store. (copy device : ℕ) → copy_faults (copies_seen P.seen copies.items) copy device ≤ store_faults P.seen store copy device) }
        ensures goes { IfOk result (λ store. CutCopiesGo KeepsPiece (copies_seen P.seen copies.items) (store_copies P.seen store)) }
        ensures refused { IfErr result (λ refused. IsRefusedFor refused.fault (copies_seen P.seen copies.items) (copies_seen P.seen refused.copies.items)) }
        ensures back { IfErr result (λ refused. CutCopiesGo KeepsPiece (copies_seen P.seen copies.items) (copies_seen P.seen refused.copies.items)) }
    {
        match cut_store(alloc, shape, copies) {
            Ok(cut) => create_in(cut),
            Err((copies, _)) => Err(StoreRefused {
                fault: StoreFault::OutOfMemory,
                copies,
            }),
        }
    }
}

/// Writes a store that was cut out of its copies, or gives them back.
fn create_in<P: LocalPiece + Drop>(cut: CutStore<P>) -> Result<MapStore<P>, StoreRefused<P>>
    requires room { HasRoom (sheets_seen P.seen cut.store.base.sheets) cut.spares }
    ensures shape { IfOk result (λ store. shape_of store ≡ cut.store.base.shape) }
    ensures claims { IfOk result (λ store. (region map : ℕ) → (store_seen P.seen store).claims region map ≡ (store_seen P.seen cut.store).claims region map) }
    ensures told { IfOk result (λ store. OnMarks (FirmsStore {T = Unit {0}} (Ok tt)) (store_seen P.seen cut.store).told (store_seen P.seen store).told) }
    ensures headed { IfOk result (λ store. AllBeginWith (maps_header cut.store.base.shape.geometry.length cut.store.base.shape.geometry.region cut.store.base.shape.maps) (store_copies P.seen store)) }
    ensures goes { IfOk result (λ store. StoreGoes P.seen KeepsPiece cut.store store) }
    ensures refused { IfErr result (λ refused. IsRefusedAfter refused.fault (store_faults P.seen cut.store) (copies_seen P.seen refused.copies.items)) }
    ensures back { IfErr result (λ refused. CopiesGo KeepsPiece (store_copies P.seen cut.store) (copies_seen P.seen refused.copies.items)) }
{
    let CutStore { mut store, spares } = cut;
    match write_new(&mut store) {
        Ok(()) => Ok(store),
        Err(fault) => Err(StoreRefused {
            fault: fault_of(fault),
            copies: store.into_copies_in(spares),
        }),
    }
}
