//! How many pieces a store has.

ghost use Rattle.std.specs.Prelude.{◌≡◌, length, IfSome};
ghost use Rattle.std.specs.List.{sum_by};
ghost use Rattle.vx_maps.specs.Wholes.{store_copies};

use crate::store::MapStore;
use vx_pages::LocalPiece;

/// How many pieces the copies of a store have together, where a list may be as long.
pub fn store_pieces<P: LocalPiece>(store: &MapStore<P>) -> Option<usize>
    ensures { IfSome result (λ n. n ≡ sum_by (λ copy. length copy) (store_copies P.seen store.now)) }
{
    let first = store.base.sheets.first.len();
    match &store.base.sheets.second {
        Some(slots) => first.checked_add(slots.len()),
        None => Some(first),
    }
}
