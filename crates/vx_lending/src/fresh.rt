ghost use Rattle.std.specs.Prelude.{◌≡◌, ◌<◌, ◌/◌, ℕ, true, false, IfOk, IfErr, OnOk};
ghost use Rattle.vx_pages.specs.Reading.{HasRisen};
ghost use Rattle.vx_pages.specs.Sector.{KeepsPiece};
ghost use Rattle.vx_maps.specs.Creating.{IsBusy, IsFaultOf};
ghost use Rattle.vx_maps.specs.Cutness.{store_cut};
ghost use Rattle.vx_maps.specs.Copies.{AreCopies};
ghost use Rattle.vx_maps.specs.Going.{CopiesGo, CutCopiesGo, StoreGoes};
ghost use Rattle.vx_maps.specs.Spares.{copies_seen};
ghost use Rattle.vx_maps.specs.Stores.{store_seen};
ghost use Rattle.vx_maps.specs.Wholes.{store_copies, store_faults};
ghost use Rattle.vx_volume.specs.Bytes.{map_bit};
ghost use Rattle.vx_lending.specs.Going.{GoTogether};
ghost use Rattle.vx_lending.specs.Left.{IsNotFresh, left_copies, left_cut, left_faults};
ghost use Rattle.vx_lending.specs.Logs.{IsFreshLog, IsFreshStore, log_copies, log_pieces};
ghost use Rattle.vx_lending.specs.Marking.{IsMarkRefused, IsMarkedAll, IsMarkedOne};
ghost use Rattle.vx_lending.specs.Pieces.{copy_pieces};
ghost use Rattle.vx_lending.specs.Taken.{AreLogCopies, slot_of};

use crate::VolumeForm;
use crate::copies::log_shape;
use crate::left::{FreshRefused, LogLeft};
use std::alloc::Global;
use vx_mapfmt::DcoShape;
use vx_maps::{MapStore, StoreFault};
use vx_marks::MarkFault;
use vx_mask::contains;
use vx_pages::LocalPiece;
use vx_piece::Piece;
use vx_volume::{VolumeLog, WholeMaps};

/// A log of a volume that was never started: nothing is marked but each of these maps in all regions; without copies there is
/// none. A page's sector of a map of the mask is written once more than those of the other maps. After a refusal the copies
/// come back, perhaps of more pieces, or where there is no memory for their lists the store of them.
pub fn fresh_log<P: Piece + Drop>(
    alloc: Global,
    form: &VolumeForm,
    copies: Vec<Vec<P>>,
    marked: u64,
) -> Result<VolumeLog<P>, FreshRefused<P>>
    requires { AreLogCopies (slot_of form.now.shape.geometry) (copies_seen P.seen copies.items) }
    ensures fresh { IfOk result (λ log. IsFreshLog P.seen form.now.shape.geometry marked (copies_seen P.seen copies.items) log) }
    ensures cut { IfOk result (λ log. CutCopiesGo KeepsPiece (copies_seen P.seen copies.items) (log_copies P.seen log)) }
    ensures goes { IfOk result (λ log. GoTogether (copy_pieces (copies_seen P.seen copies.items)) (log_pieces P.seen log)) }
    ensures refused { IfErr result (λ refused. IsNotFresh refused.fault (copies_seen P.seen copies.items) (left_copies P.seen refused.left) (left_faults P.seen refused.left) (left_cut P.seen refused.left)) }
    ensures back { IfErr result (λ refused. GoTogether (copy_pieces (copies_seen P.seen copies.items)) (copy_pieces (left_copies P.seen refused.left))) }
    ensures cut_back { IfErr result (λ refused. CutCopiesGo KeepsPiece (copies_seen P.seen copies.items) (left_copies P.seen refused.left)) }
{
    if copies.is_empty() {
        return Ok(VolumeLog::Absent);
    }
    let shape = log_shape(&form.shape.geometry);
    let Ok(all) = vec![in alloc; 255u8; shape.regions.div_ceil(8) as usize] else {
        return Err(FreshRefused {
            fault: StoreFault::OutOfMemory,
            left: LogLeft::Copies(copies),
        });
    };
    match fresh_store(alloc, shape, copies, marked, &all) {
        Ok(store) => Ok(VolumeLog::Maps(store)),
        Err(refused) => Err(refused),
    }
}

/// A store of which nothing is marked but each map of a mask in all regions.
fn fresh_store<P: Piece + Drop>(
    alloc: Global,
    shape: DcoShape,
    copies: Vec<Vec<P>>,
    marked: u64,
    all: &[u8],
) -> Result<MapStore<P>, FreshRefused<P>>
    requires copies { AreCopies (shape.map_bytes / 512) (copies_seen P.seen copies.items) }
    requires all { (region : ℕ) → region < shape.regions → map_bit all.now region ≡ true }
    ensures fresh { IfOk result (λ store. IsFreshStore P.seen shape.geometry marked (copies_seen P.seen copies.items) store) }
    ensures goes { IfOk result (λ store. CutCopiesGo KeepsPiece (copies_seen P.seen copies.items) (store_copies P.seen store)) }
    ensures refused { IfErr result (λ refused. IsNotFresh refused.fault (copies_seen P.seen copies.items) (left_copies P.seen refused.left) (left_faults P.seen refused.left) (left_cut P.seen refused.left)) }
    ensures back { IfErr result (λ refused. CutCopiesGo KeepsPiece (copies_seen P.seen copies.items) (left_copies P.seen refused.left)) }
{
    match MapStore::create(alloc, shape, copies) {
        Ok(store) => mark_store(alloc, store, marked, all),
        Err(refused) => Err(FreshRefused {
            fault: refused.fault,
            left: LogLeft::Copies(refused.copies),
        }),
    }
}

/// Marks each map of a mask in all regions of a store of which nothing is marked.
fn mark_store<P: Piece + Drop>(
    alloc: Global,
    mut store: MapStore<P>,
    marked: u64,
    all: &[u8],
) -> Result<MapStore<P>, FreshRefused<P>>
    requires all { (region : ℕ) → (store_seen P.seen store).has_region region ≡ true → map_bit all.now region ≡ true }
    requires none { (region map : ℕ) → (store_seen P.seen store).claims region map ≡ false }
    ensures marked { IfOk result (λ new. IsMarkedAll P.seen marked store new) }
    ensures refused { IfErr result (λ refused. IsMarkRefused refused.fault (store_faults P.seen store) (left_faults P.seen refused.left) (left_cut P.seen refused.left)) }
    ensures back { IfErr result (λ refused. CopiesGo KeepsPiece (store_copies P.seen store) (left_copies P.seen refused.left)) }
{
    match mark_maps(&mut store, marked, all) {
        Ok(()) => Ok(store),
        Err(fault) => Err(FreshRefused {
            fault: fault_of(fault),
            left: taken_apart(alloc, store),
        }),
    }
}

/// The copies of a store; where there is no memory for their lists the store.
fn taken_apart<P: Piece + Drop>(alloc: Global, store: MapStore<P>) -> LogLeft<P>
    ensures copies { left_copies P.seen result ≡ store_copies P.seen store }
    ensures faults { (copy device : ℕ) → left_faults P.seen result copy device ≡ store_faults P.seen store copy device }
    ensures cut { store_cut P.seen store ≡ true → left_cut P.seen result ≡ true }
{
    match store.into_copies(alloc) {
        Ok(copies) => LogLeft::Copies(copies),
        Err((store, _)) => LogLeft::Store(store),
    }
}

/// The fault of a mark as one of a store.
fn fault_of(fault: MarkFault) -> StoreFault
    requires { IsBusy fault → ⊥ }
    ensures { IsFaultOf fault result }
{
    match fault {
        MarkFault::Failed { copy, device } => StoreFault::Failed { copy, device },
        MarkFault::PowerLost | MarkFault::Busy => StoreFault::PowerLost,
    }
}

/// Marks each map of a mask in all regions, and stops at the first that fails.
fn mark_maps<P: LocalPiece>(
    store: &mut MapStore<P>,
    marked: u64,
    all: &[u8],
) -> Result<(), MarkFault>
    requires all { (region : ℕ) → (store_seen P.seen store.old).has_region region ≡ true → map_bit all.now region ≡ true }
    requires none { (region map : ℕ) → (store_seen P.seen store.old).claims region map ≡ false }
    ensures marked { OnOk result (IsMarkedAll P.seen marked store.old store.new) }
    ensures goes { StoreGoes P.seen KeepsPiece store.old store.new }
    ensures cause { HasRisen (store_faults P.seen store.old) (store_faults P.seen store.new) (store_cut P.seen store.new) result }
{
    for map in 0..32 {
        if let Err(fault) = mark_map(store, marked, map, all) {
            return Err(fault);
        }
    }
    Ok(())
}

/// Marks a map in all regions, if the mask has it.
fn mark_map<P: LocalPiece>(
    store: &mut MapStore<P>,
    marked: u64,
    map: u32,
    all: &[u8],
) -> Result<(), MarkFault>
    requires map { map < 32 }
    requires all { (region : ℕ) → (store_seen P.seen store.old).has_region region ≡ true → map_bit all.now region ≡ true }
    ensures marked { OnOk result (IsMarkedOne P.seen marked map store.old store.new) }
    ensures goes { StoreGoes P.seen KeepsPiece store.old store.new }
    ensures cause { HasRisen (store_faults P.seen store.old) (store_faults P.seen store.new) (store_cut P.seen store.new) result }
{
    if contains(marked, map) {
        store.set_from(map, all)
    } else {
        Ok(())
    }
}
