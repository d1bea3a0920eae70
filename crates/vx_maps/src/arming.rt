//! A store's pieces are armed.

ghost use Rattle.std.specs.Prelude.{◌≡◌, ℕ};
ghost use Rattle.vx_marks.specs.Log.{OnMarks};
ghost use Rattle.vx_runs.specs.Run.{IsArmed};
ghost use Rattle.vx_maps.specs.Arming.{SameMarks};
ghost use Rattle.vx_maps.specs.Going.{StoreGoes};
ghost use Rattle.vx_maps.specs.Stores.{store_seen};

use crate::pages::arm_pages;
use crate::slots::arm_sheets;
use crate::store::MapStore;
use vx_pages::LocalPiece;

impl<P: LocalPiece> MapStore<P> {
    /// Sets when a power switch is to act on each piece that is not cut. Nothing else changes.
    pub fn arm(&mut self, stop: Option<u64>)
        ensures goes { StoreGoes P.seen (IsArmed stop) self.old self.new }
        ensures claims { (region map : ℕ) → (store_seen P.seen self.new).claims region map ≡ (store_seen P.seen self.old).claims region map }
        ensures told { OnMarks SameMarks (store_seen P.seen self.old).told (store_seen P.seen self.new).told }
    {
        arm_sheets(&mut self.base.sheets, stop);
        arm_pages(&mut self.pages, stop);
    }
}
