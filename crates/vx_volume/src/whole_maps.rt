ghost use Rattle.std.specs.Prelude.{◌≡◌, ℕ, ◌<◌, ◌&&◌, false, length, IfOk};
ghost use Rattle.vx_marks.specs.Log.{KeepsLog, MarkHasCause};
ghost use Rattle.vx_pages.specs.Setting.{IsMapSet};
ghost use Rattle.vx_volume.specs.Bytes.{map_bit};

use crate::listing::list;
use crate::setting::set_from;
use std::alloc::Global;
use vx_base::OutOfMemory;
use vx_maps::MapStore;
use vx_marks::MarkFault;
use vx_pages::LocalPiece;

/// Work on all bits of one map of a log of marks.
pub trait WholeMaps {
    ghost use Rattle.vx_marks.specs.Log.{LogSeen};

    /// What contracts see of it.
    ghost log: { Self → LogSeen };

    /// Takes the marks of a map away in all regions, on every copy. Goes page by page as `set_from` does.
    fn clear(&mut self, map: u32) -> Result<(), MarkFault>
        requires { map < (log self.old).maps }
        ensures kept { KeepsLog (log self.old) (log self.new) }
        ensures set { IsMapSet map (λ region. false) result (log self.old) (log self.new) }
        ensures cause { MarkHasCause (log self.old) (log self.new) result };

    /// Makes the marks of a map these, a bit for each region, on every copy; a region behind the last byte gets none. On each
    /// page what failed calls have left open is written again first; then the map's sector is written once on each copy, if it
    /// differs. Stops at the first page that fails.
    fn set_from(&mut self, map: u32, bits: &[u8]) -> Result<(), MarkFault>
        requires { map < (log self.old).maps }
        ensures kept { KeepsLog (log self.old) (log self.new) }
        ensures set { IsMapSet map (map_bit bits.now) result (log self.old) (log self.new) }
        ensures cause { MarkHasCause (log self.old) (log self.new) result };

    /// The marks of a map that are claimed, a bit for each region in whole bytes, the lowest region's the lowest of the first.
    /// Calls no device.
    fn list(&self, alloc: Global, map: u32) -> Result<Vec<u8>, OutOfMemory>
        ensures bits { IfOk result (λ bits. (region : ℕ) → map_bit bits.items region ≡ ((log self.now).has_region region && (log self.now).claims region map)) };
}

impl<P: LocalPiece> WholeMaps for MapStore<P> {
    ghost use Rattle.vx_mapfmt.specs.Sizes.{parts_of};
    ghost use Rattle.vx_pages.specs.Sector.{KeepsPiece};
    ghost use Rattle.vx_maps.specs.Going.{StoreGoes};
    ghost use Rattle.vx_maps.specs.Stores.{shape_of, store_seen};

    ghost log = { λ store. store_seen P.seen store };

    fn clear(&mut self, map: u32) -> Result<(), MarkFault>
        requires { map < 32 }
        ensures kept { KeepsLog (store_seen P.seen self.old) (store_seen P.seen self.new) }
        ensures set { IsMapSet map (λ region. false) result (store_seen P.seen self.old) (store_seen P.seen self.new) }
        ensures cause { MarkHasCause (store_seen P.seen self.old) (store_seen P.seen self.new) result }
        ensures goes { StoreGoes P.seen KeepsPiece self.old self.new }
        ensures base { self.new.base ≡ self.old.base }
    {
        set_from(self, map, &[])
    }

    fn set_from(&mut self, map: u32, bits: &[u8]) -> Result<(), MarkFault>
        requires { map < 32 }
        ensures kept { KeepsLog (store_seen P.seen self.old) (store_seen P.seen self.new) }
        ensures set { IsMapSet map (map_bit bits.now) result (store_seen P.seen self.old) (store_seen P.seen self.new) }
        ensures cause { MarkHasCause (store_seen P.seen self.old) (store_seen P.seen self.new) result }
        ensures goes { StoreGoes P.seen KeepsPiece self.old self.new }
        ensures base { self.new.base ≡ self.old.base }
    {
        set_from(self, map, bits)
    }

    fn list(&self, alloc: Global, map: u32) -> Result<Vec<u8>, OutOfMemory>
        ensures length { IfOk result (λ bits. length bits.items ≡ parts_of 8 (shape_of self.now).regions) }
        ensures bits { IfOk result (λ bits. (region : ℕ) → map_bit bits.items region ≡ ((store_seen P.seen self.now).has_region region && (store_seen P.seen self.now).claims region map)) }
    {
        list(alloc, self, map)
    }
}
