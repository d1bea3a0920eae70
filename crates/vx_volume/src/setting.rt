ghost use Rattle.std.specs.Prelude.{◌≡◌, ◌<◌};
ghost use Rattle.vx_marks.specs.Log.{KeepsLog, MarkHasCause};
ghost use Rattle.vx_pages.specs.Sector.{KeepsPiece};
ghost use Rattle.vx_pages.specs.Setting.{IsMapSet};
ghost use Rattle.vx_maps.specs.Going.{StoreGoes};
ghost use Rattle.vx_maps.specs.Stores.{store_seen};
ghost use Rattle.vx_volume.specs.Bytes.{map_bit};

use crate::bytes::page_of;
use vx_maps::MapStore;
use vx_marks::MarkFault;
use vx_pages::LocalPiece;

/// Sets the bits of a map page by page, and stops at the first page that fails.
pub fn set_from<P: LocalPiece>(
    store: &mut MapStore<P>,
    map: u32,
    bits: &[u8],
) -> Result<(), MarkFault>
    requires { map < 32 }
    ensures kept { KeepsLog (store_seen P.seen store.old) (store_seen P.seen store.new) }
    ensures set { IsMapSet map (map_bit bits.now) result (store_seen P.seen store.old) (store_seen P.seen store.new) }
    ensures cause { MarkHasCause (store_seen P.seen store.old) (store_seen P.seen store.new) result }
    ensures goes { StoreGoes P.seen KeepsPiece store.old store.new }
    ensures base { store.new.base ≡ store.old.base }
{
    let shape = store.shape();
    for page in 0..shape.pages() {
        let image = page_of(bits, page, shape.regions);
        if let Err(fault) = store.set_page(map, 4096 * page, &image) {
            return Err(fault);
        }
    }
    Ok(())
}
