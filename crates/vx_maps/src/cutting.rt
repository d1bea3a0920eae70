//! Copies are cut into the sectors of pages and what lies between them, and put together again.

ghost use Rattle.std.specs.Prelude.{◌≡◌, ◌≤◌, ◌/◌, ◌<◌, [], length, is_some, vec_capacity, OnOk};
ghost use Rattle.vx_mapfmt.specs.Sizes.{page_count};
ghost use Rattle.vx_pages.specs.Pages.{grid_seen};
ghost use Rattle.vx_maps.specs.Sheets.{sheets_seen};
ghost use Rattle.vx_maps.specs.Store.{AreLogsOf, pages_seen};
ghost use Rattle.vx_pages.specs.Sector.{IsOpen};
ghost use Rattle.vx_maps.specs.Slots.{AreHoled, ArePairedRows, AreWhole, HasCuts, Wholes};

use crate::paging::{drain_page, fill_page};
use crate::slots::Sheets;
use std::alloc::Global;
use vx_base::OutOfMemory;
use vx_mapfmt::DcoShape;
use vx_pages::{LocalPiece, Page};

/// Makes pages of the pieces in their places, in order, as far as there is memory. Nothing is claimed, and all is loose.
pub fn fill_pages<P: LocalPiece + Drop>(
    alloc: Global,
    shape: &DcoShape,
    sheets: &mut Sheets<P>,
    pages: &mut Vec<Page<P>>,
) -> Result<(), OutOfMemory>
    requires none { pages.old.items ≡ [] }
    requires room { page_count shape.now.regions ≤ vec_capacity pages.old }
    requires whole { AreWhole (shape.now.map_bytes / 512) (sheets_seen P.seen sheets.old) }
    ensures count { OnOk result (length pages.new.items ≡ page_count shape.now.regions) }
    ensures few { length pages.new.items ≤ page_count shape.now.regions }
    ensures logs { AreLogsOf shape.now.regions (is_some (sheets_seen P.seen sheets.new).second) IsOpen (grid_seen P.seen pages.new.items) (pages_seen P.seen pages.new.items) }
    ensures cut { (wholes : Wholes) → HasCuts (shape.now.map_bytes / 512) [] wholes (sheets_seen P.seen sheets.old) → HasCuts (shape.now.map_bytes / 512) (grid_seen P.seen pages.new.items) wholes (sheets_seen P.seen sheets.new) }
    ensures second { is_some (sheets_seen P.seen sheets.new).second ≡ is_some (sheets_seen P.seen sheets.old).second }
{
    for index in 0..shape.pages() {
        let sectors = fill_page(alloc, shape.map_bytes / 512, index, sheets)?;
        pages.push_reserved(Page::of(index, shape.regions, sectors));
    }
    Ok(())
}

/// Puts the pieces of all pages back into their places.
pub fn drain_pages<P: LocalPiece + Drop>(
    shape: &DcoShape,
    sheets: &mut Sheets<P>,
    pages: Vec<Page<P>>,
)
    requires few { length pages.items ≤ page_count shape.now.regions }
    requires holed { AreHoled (shape.now.map_bytes / 512) (grid_seen P.seen pages.items) (sheets_seen P.seen sheets.old) }
    requires pairs { ArePairedRows (is_some (sheets_seen P.seen sheets.old).second) (grid_seen P.seen pages.items) }
    ensures cut { (wholes : Wholes) → HasCuts (shape.now.map_bytes / 512) (grid_seen P.seen pages.items) wholes (sheets_seen P.seen sheets.old) → HasCuts (shape.now.map_bytes / 512) [] wholes (sheets_seen P.seen sheets.new) }
{
    let mut left = pages;
    'draining: while let Some(page) = left.pop() {
        drain_page(
            shape.map_bytes / 512,
            left.len() as u64,
            sheets,
            page.into_sectors(),
        );
    }
}
