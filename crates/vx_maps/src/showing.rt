//! What the copies of a store show.

ghost use Rattle.std.specs.Prelude.{◌≡◌, ℕ, ◌<◌, IfSome};
ghost use Rattle.vx_mapfmt.specs.Bits.{marks};
ghost use Rattle.vx_runs.specs.Run.{run_contents};
ghost use Rattle.vx_maps.specs.Loading.{copy_at};
ghost use Rattle.vx_maps.specs.Sheets.{sheets_seen};
ghost use Rattle.vx_maps.specs.Slots.{copies_in};
ghost use Rattle.vx_maps.specs.Stores.{store_seen};
ghost use Rattle.vx_maps.specs.Wholes.{store_copies};

use crate::store::MapStore;
use vx_pages::LocalPiece;

impl<P: LocalPiece> MapStore<P> {
    /// A law: where the store tells its marks, what it tells of each copy are the bits of that copy's maps.
    pub fn marks_are_bits(&self)
        ensures { IfSome (store_seen P.seen self.now).told (λ told. (n region map : ℕ) → n < copies_in (sheets_seen P.seen self.now.base.sheets) →
            (told region).shows n map ≡ marks self.now.base.shape.regions (run_contents (copy_at (store_copies P.seen self.now) n)) map region) }
    {}
}
