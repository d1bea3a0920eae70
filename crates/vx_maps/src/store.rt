ghost use Rattle.std.specs.Prelude.{◌≡◌, ℕ};
ghost use Rattle.std.specs.Prelude.{◌/◌};
ghost use Rattle.vx_mapfmt.specs.Sizes.{page_count};
ghost use Rattle.vx_maps.specs.Store.{AreOnCopies, ArePages, pages_seen};
ghost use Rattle.vx_maps.specs.Sheets.{sheets_seen};
ghost use Rattle.vx_maps.specs.Slots.{IsLaid, copies_in};

use crate::assembly::join_whole;
use crate::joining::{Spares, spares_of};
use crate::pages::firm_pages;
use crate::slots::Sheets;
use std::alloc::Global;
use vx_base::OutOfMemory;
use vx_mapfmt::DcoShape;
use vx_marks::{MarkFault, Marker};
use vx_pages::{LocalPiece, Page};

/// What a store keeps beside its pages: its shape, and for each copy the pieces between the pages, in order.
#[derive(Drop)]
pub struct Base<P: LocalPiece> {
    pub(crate) shape: DcoShape,
    pub(crate) sheets: Sheets<P>,
    ghost laid: { IsLaid (shape.map_bytes / 512) (page_count shape.regions) (sheets_seen P.seen sheets) },
}

/// The change maps of a volume, kept as pages.
#[derive(Drop)]
pub struct MapStore<P: LocalPiece> {
    pub(crate) base: Base<P>,
    pub(crate) pages: Vec<Page<P>>,
    ghost paged: { ArePages base.shape.regions (pages_seen P.seen pages.items) },
    ghost copied: { AreOnCopies (copies_in (sheets_seen P.seen base.sheets)) (pages_seen P.seen pages.items) },
}

impl<P: LocalPiece> MapStore<P> {
    ghost use Rattle.vx_maps.specs.Store.{store_log};
    ghost use Rattle.vx_maps.specs.Stores.{store_seen};

    /// The store of these pages: one for each 4,096 regions of the base's shape, in order.
    pub fn from_pages(base: Base<P>, pages: Vec<Page<P>>) -> MapStore<P>
        requires pages { ArePages base.shape.regions (pages_seen P.seen pages.items) }
        requires copies { AreOnCopies (copies_in (sheets_seen P.seen base.sheets)) (pages_seen P.seen pages.items) }
        ensures { store_seen P.seen result ≡ store_log base.shape.regions (pages_seen P.seen pages.items) }
    {
        MapStore { base, pages }
    }

    /// Its base and its pages. Takes no memory.
    pub fn into_pages(self) -> (Base<P>, Vec<Page<P>>)
        ensures pages { ArePages result.0.shape.regions (pages_seen P.seen result.1.items) }
        ensures copies { AreOnCopies (copies_in (sheets_seen P.seen result.0.sheets)) (pages_seen P.seen result.1.items) }
        ensures log { store_seen P.seen self ≡ store_log result.0.shape.regions (pages_seen P.seen result.1.items) }
    {
        let MapStore { base, pages } = self;
        (base, pages)
    }
}

impl<P: LocalPiece> MapStore<P> {
    ghost use Rattle.vx_marks.specs.Log.{KeepsLog, MarkHasCause, OnMarks};
    ghost use Rattle.vx_pages.specs.Firm.{FirmsStore};
    ghost use Rattle.vx_pages.specs.Sector.{KeepsPiece};
    ghost use Rattle.vx_maps.specs.Going.{CopiesGo, StoreGoes};
    ghost use Rattle.vx_maps.specs.Stores.{store_seen};
    ghost use Rattle.vx_maps.specs.Wholes.{store_copies};

    /// Writes again what failed calls have left open, and keeps all that is claimed. After Ok nothing is loose.
    pub fn firm(&mut self) -> Result<(), MarkFault>
        ensures kept { KeepsLog (store_seen P.seen self.old) (store_seen P.seen self.new) }
        ensures told { OnMarks (FirmsStore result) (store_seen P.seen self.old).told (store_seen P.seen self.new).told }
        ensures claims { (region map : ℕ) → (store_seen P.seen self.new).claims region map ≡ (store_seen P.seen self.old).claims region map }
        ensures cause { MarkHasCause (store_seen P.seen self.old) (store_seen P.seen self.new) result }
        ensures base { self.new.base ≡ self.old.base }
        ensures goes { StoreGoes P.seen KeepsPiece self.old self.new }
        ensures copies { CopiesGo KeepsPiece (store_copies P.seen self.old) (store_copies P.seen self.new) }
    {
        firm_pages(&mut self.pages)
    }
}

impl<P: LocalPiece> MapStore<P> {
    ghost use Rattle.std.specs.Prelude.{◌<◌, length, true};
    ghost use Rattle.vx_mapfmt.specs.Bits.{bit_in};
    ghost use Rattle.vx_marks.specs.Log.{KeepsLog, MarkHasCause};
    ghost use Rattle.vx_pages.specs.Sector.{KeepsPiece};
    ghost use Rattle.vx_pages.specs.Setting.{IsSetOn};
    ghost use Rattle.vx_maps.specs.Going.{StoreGoes};
    ghost use Rattle.vx_maps.specs.Stores.{shape_of, store_seen};

    /// The shape of the plex that holds its maps.
    pub fn shape(&self) -> DcoShape
        ensures { result ≡ shape_of self.now }
    {
        self.base.shape
    }

    /// Makes the bits that a map has on the page of a region those of 512 bytes. What failed calls have left open on the page is
    /// written again first, and a sector that is these bytes already is not written. Where a write fails, the bits that differ
    /// are left open.
    pub fn set_page(&mut self, map: u32, region: u64, image: &[u8]) -> Result<(), MarkFault>
        requires map { map < 32 }
        requires known { (store_seen P.seen self.old).has_region region ≡ true }
        requires whole { length image.now ≡ 512 }
        ensures kept { KeepsLog (store_seen P.seen self.old) (store_seen P.seen self.new) }
        ensures set { IsSetOn (region / 4096) map (bit_in image.now) result (store_seen P.seen self.old) (store_seen P.seen self.new) }
        ensures cause { MarkHasCause (store_seen P.seen self.old) (store_seen P.seen self.new) result }
        ensures base { self.new.base ≡ self.old.base }
        ensures goes { StoreGoes P.seen KeepsPiece self.old self.new }
    {
        let page = &mut self.pages[(region / 4096) as usize];
        page.set(map, image)
    }
}

impl<P: LocalPiece> Marker for MapStore<P> {
    ghost use Rattle.std.specs.Prelude.{true, OnOk};
    ghost use Rattle.vx_marks.specs.Log.{ChangesAt, ClaimsAt, IsAskable, IsClaimedAs, IsMarkedAs, IsUnclaimedAs, IsUnmarkedAs, KeepsLog, MarkHasCause, OnMarks};
    ghost use Rattle.vx_pages.specs.Pages.{grid_seen};
    ghost use Rattle.vx_pages.specs.Page.{AreAll};
    ghost use Rattle.vx_pages.specs.Writes.{IsShut, writes_of};
    ghost use Rattle.vx_maps.specs.Store.{store_log};
    ghost use Rattle.vx_maps.specs.Stores.{store_seen};
    ghost use Rattle.vx_maps.specs.Slots.{row_at};
    ghost use Rattle.vx_maps.specs.Writes.{StoreHands};
    ghost use Rattle.vx_pages.specs.Sector.{KeepsPiece};
    ghost use Rattle.vx_maps.specs.Going.{StoreGoes};
    ghost use Rattle.vx_maps.specs.Onward.{store_kept, store_kept_on};

    ghost log = { λ store. store_log store.base.shape.regions (pages_seen P.seen store.pages.items) };

    ghost follows = { λ x y. StoreGoes P.seen KeepsPiece x y };

    fn marked(&self, region: u64) -> u64 {
        self.pages[(region / 4096) as usize].marked(region)
    }

    fn mark(&mut self, region: u64, bits: u64) -> Result<(), MarkFault>
        requires { IsAskable (store_seen P.seen self.old) region bits }
        ensures kept { KeepsLog (store_seen P.seen self.old) (store_seen P.seen self.new) }
        ensures told { (store_seen P.seen self.old).there ≡ true → OnMarks (ChangesAt region (IsMarkedAs bits result)) (store_seen P.seen self.old).told (store_seen P.seen self.new).told }
        ensures claims { (store_seen P.seen self.old).there ≡ true → ClaimsAt region (IsClaimedAs bits result) (store_seen P.seen self.old).claims (store_seen P.seen self.new).claims }
        ensures cause { MarkHasCause (store_seen P.seen self.old) (store_seen P.seen self.new) result }
        ensures follows { StoreGoes P.seen KeepsPiece self.old self.new }
        ensures base { self.new.base ≡ self.old.base }
        ensures counts { StoreHands (region / 4096) (writes_of bits) result (grid_seen P.seen self.old.pages.items) (grid_seen P.seen self.new.pages.items) }
        ensures shut { OnOk result (AreAll IsShut (row_at (grid_seen P.seen self.new.pages.items) (region / 4096))) }
    {
        let page = &mut self.pages[(region / 4096) as usize];
        page.mark(region, bits)
    }

    fn unmark(&mut self, region: u64, bits: u64) -> Result<(), MarkFault>
        requires { IsAskable (store_seen P.seen self.old) region bits }
        ensures kept { KeepsLog (store_seen P.seen self.old) (store_seen P.seen self.new) }
        ensures told { (store_seen P.seen self.old).there ≡ true → OnMarks (ChangesAt region (IsUnmarkedAs bits result)) (store_seen P.seen self.old).told (store_seen P.seen self.new).told }
        ensures claims { (store_seen P.seen self.old).there ≡ true → ClaimsAt region (IsUnclaimedAs bits result) (store_seen P.seen self.old).claims (store_seen P.seen self.new).claims }
        ensures cause { MarkHasCause (store_seen P.seen self.old) (store_seen P.seen self.new) result }
        ensures follows { StoreGoes P.seen KeepsPiece self.old self.new }
        ensures base { self.new.base ≡ self.old.base }
        ensures counts { StoreHands (region / 4096) (writes_of bits) result (grid_seen P.seen self.old.pages.items) (grid_seen P.seen self.new.pages.items) }
        ensures shut { OnOk result (AreAll IsShut (row_at (grid_seen P.seen self.new.pages.items) (region / 4096))) }
    {
        let page = &mut self.pages[(region / 4096) as usize];
        page.unmark(region, bits)
    }

    ghost follows_same = { λ x. store_kept x };

    ghost follows_on = { λ x y z first then. store_kept_on x y z first then };
}

impl<P: LocalPiece + Drop> MapStore<P> {
    ghost use Rattle.std.specs.Prelude.{IfOk, IfErr};
    ghost use Rattle.vx_maps.specs.Spares.{copies_seen, HasRoom};
    ghost use Rattle.vx_maps.specs.Wholes.{copy_faults, store_copies, store_faults};
    ghost use Rattle.std.specs.Prelude.{true};
    ghost use Rattle.vx_maps.specs.Creating.{copies_cut};
    ghost use Rattle.vx_maps.specs.Cutness.{store_cut};

    /// The pieces of each copy, in order. Where there is no memory for the lists the store comes back.
    pub fn into_copies(self, alloc: Global) -> Result<Vec<Vec<P>>, (MapStore<P>, OutOfMemory)>
        ensures copies { IfOk result (λ copies. copies_seen P.seen copies.items ≡ store_copies P.seen self) }
        ensures faults { IfOk result (λ copies. (copy device : ℕ) → copy_faults (copies_seen P.seen copies.items) copy device ≡ store_faults P.seen self copy device) }
        ensures cut { IfOk result (λ copies. store_cut P.seen self ≡ true → copies_cut (copies_seen P.seen copies.items) ≡ true) }
        ensures kept { IfErr result (λ x. x.0 ≡ self) }
    {
        match spares_of(alloc, &self.base.sheets) {
            Ok(spares) => Ok(self.into_copies_in(spares)),
            Err(_) => Err((self, OutOfMemory)),
        }
    }

    /// The same, in lists that have room for it.
    pub(crate) fn into_copies_in(self, spares: Spares<P>) -> Vec<Vec<P>>
        requires { HasRoom (sheets_seen P.seen self.base.sheets) spares }
        ensures copies { copies_seen P.seen result.items ≡ store_copies P.seen self }
        ensures faults { (copy device : ℕ) → copy_faults (copies_seen P.seen result.items) copy device ≡ store_faults P.seen self copy device }
        ensures cut { store_cut P.seen self ≡ true → copies_cut (copies_seen P.seen result.items) ≡ true }
    {
        let MapStore { base, pages } = self;
        let Base { shape, sheets } = base;
        join_whole(&shape, sheets, pages, spares)
    }
}
