//! A store on two copies gives up one of them.

ghost use Rattle.std.specs.Prelude.{◌≡◌, ◌≤◌, ◌<◌, ◌+◌, ◌-◌, ◌*◌, ◌/◌, ◌^◌, ◌++◌, ◌∷◌, ℕ, [], List, is_some, length, map as map_of, true, vec_capacity};
ghost use Rattle.vx_mapfmt.specs.Sizes.{page_count};
ghost use Rattle.vx_pages.specs.Page.{ArePaired};
ghost use Rattle.vx_pages.specs.Pages.{grid_seen};
ghost use Rattle.vx_pages.specs.Parting.{pieces_on};
ghost use Rattle.vx_pages.specs.Sector.{SectorSeen};
ghost use Rattle.vx_maps.specs.Going.{places_of};
ghost use Rattle.vx_maps.specs.Loading.{copy_at};
ghost use Rattle.vx_maps.specs.Parting.{GivesUp, only_grid, slots_on};
ghost use Rattle.vx_maps.specs.Sheets.{sheets_seen};
ghost use Rattle.vx_maps.specs.Slots.{ArePairedRows, HasCut, HasHolesOn, IsHoled, Whole, slots_seen, whole_of};
ghost use Rattle.vx_maps.specs.Spares.{HasRoomOn};
ghost use Rattle.vx_maps.specs.Stores.{shape_of, store_seen};
ghost use Rattle.vx_maps.specs.Wholes.{store_copies};

use crate::paging::place_of;
use crate::runs::take_out;
use crate::slots::{Sheets, put};
use crate::store::{Base, MapStore};
use vx_mapfmt::DcoShape;
use vx_pages::{LocalPiece, Page};

impl<P: LocalPiece> MapStore<P> {
    /// On how many copies its marks are; a store of no regions has none.
    pub fn copies(&self) -> u32
        ensures { result ≡ (store_seen P.seen self.now).copies }
    {
        if self.pages.is_empty() {
            return 0;
        }
        match &self.base.sheets.second {
            Some(_) => 2,
            None => 1,
        }
    }

    /// How many pieces a copy has, 0 or 1.
    pub fn copy_pieces(&self, copy: u8) -> usize
        requires { copy < 2 }
        ensures { result ≡ length (copy_at (store_copies P.seen self.now) copy) }
    {
        if copy == 0 {
            return self.base.sheets.first.len();
        }
        match &self.base.sheets.second {
            Some(slots) => slots.len(),
            None => 0,
        }
    }
}

impl<P: LocalPiece + Drop> MapStore<P> {
    /// Gives up one of two copies, 0 or 1. It answers the store on the other copy alone, and the pieces of that which went, in
    /// order. `room` is the memory for them.
    pub fn give_up(self, copy: u8, room: Vec<P>) -> (MapStore<P>, Vec<P>)
        requires some { copy < 2 }
        requires two { (store_seen P.seen self).copies ≡ 2 }
        requires room { HasRoomOn (copy_at (store_copies P.seen self) copy) room }
        ensures gives { GivesUp copy (store_seen P.seen self) (store_seen P.seen result.0) }
        ensures shape { shape_of result.0 ≡ shape_of self }
        ensures gone { map_of P.seen result.1.items ≡ copy_at (store_copies P.seen self) copy }
        ensures left { store_copies P.seen result.0 ≡ copy_at (store_copies P.seen self) (1 - copy) ∷ [] }
    {
        let MapStore { base, mut pages } = self;
        let Base { shape, sheets } = base;
        let (first, mut slots) = split_sheets(sheets, copy);
        let mut gone = room;
        part_pages(&shape, copy, &mut slots, &mut pages, &mut gone);
        let sheets = Sheets {
            first,
            second: None,
        };
        let base = Base { shape, sheets };
        let store = MapStore { base, pages };
        (store, take_out(slots, gone))
    }
}

/// The slots of the copy that stays, and those of the one that goes.
fn split_sheets<P: LocalPiece>(sheets: Sheets<P>, copy: u8) -> (Vec<Option<P>>, Vec<Option<P>>)
    requires some { copy < 2 }
    requires two { is_some (sheets_seen P.seen sheets).second ≡ true }
    ensures kept { slots_seen P.seen result.0.items ≡ slots_on (sheets_seen P.seen sheets) (1 - copy) }
    ensures gone { slots_seen P.seen result.1.items ≡ slots_on (sheets_seen P.seen sheets) copy }
{
    let Sheets { first, second } = sheets;
    let second = second.unwrap();
    if copy == 0 {
        (second, first)
    } else {
        (first, second)
    }
}

/// The pages give up their pieces on one of two copies, which come into their places between the others of it. `room` has
/// room for the pieces of one page.
fn part_pages<P: LocalPiece + Drop>(
    shape: &DcoShape,
    copy: u8,
    slots: &mut Vec<Option<P>>,
    pages: &mut Vec<Page<P>>,
    room: &mut Vec<P>,
)
    requires some { copy < 2 }
    requires few { length pages.old.items ≤ page_count shape.now.regions }
    requires pairs { ArePairedRows true (grid_seen P.seen pages.old.items) }
    requires holed { IsHoled (shape.now.map_bytes / 512) (grid_seen P.seen pages.old.items) (slots_seen P.seen slots.old.items) }
    requires empty { room.old.items ≡ [] }
    requires room { 32 ≤ vec_capacity room.old }
    ensures left { grid_seen P.seen pages.new.items ≡ only_grid (1 - copy) (grid_seen P.seen pages.old.items) }
    ensures places { places_of pages.new.items ≡ places_of pages.old.items }
    ensures cut { HasCut (shape.now.map_bytes / 512) copy [] (whole_of (shape.now.map_bytes / 512) copy (grid_seen P.seen pages.old.items) (slots_seen P.seen slots.old.items)) (slots_seen P.seen slots.new.items) }
    ensures empty { room.new.items ≡ [] }
    ensures capacity { vec_capacity room.new ≡ vec_capacity room.old }
{
    let mut index = pages.len();
    'parting: while index > 0 {
        index -= 1;
        let page = &mut pages[index];
        page.give_up(copy, room);
        put_pieces(shape.map_bytes / 512, index as u64, slots, room);
    }
}

/// Puts the pieces of a page's sectors into their places of one copy.
fn put_pieces<P: LocalPiece + Drop>(
    size: u64,
    page: u64,
    slots: &mut Vec<Option<P>>,
    pieces: &mut Vec<P>,
)
    requires page { 1 + page < size }
    requires fits { 35 * size < 2 ^ 64 }
    requires few { length pieces.old.items ≤ 32 }
    requires holes { HasHolesOn size page (length pieces.old.items) (slots_seen P.seen slots.old.items) }
    ensures cut { (copy : ℕ) (pages : List (List SectorSeen)) (row : List SectorSeen) (whole : Whole) → length pages ≡ page → copy < 2 → ArePaired true row → map_of P.seen pieces.old.items ≡ pieces_on copy row →
        HasCut size copy (pages ++ row ∷ []) whole (slots_seen P.seen slots.old.items) → HasCut size copy pages whole (slots_seen P.seen slots.new.items) }
    ensures empty { pieces.new.items ≡ [] }
    ensures capacity { vec_capacity pieces.new ≡ vec_capacity pieces.old }
{
    'putting: while let Some(piece) = pieces.pop() {
        put(slots, place_of(size, pieces.len() as u64, page), piece);
    }
}
