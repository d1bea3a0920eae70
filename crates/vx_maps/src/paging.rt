//! A page's sectors are made of the pieces in their places, and taken apart again.

ghost use Rattle.std.specs.Prelude.{◌≡◌, ℕ, ◌+◌, ◌*◌, ◌^◌, ◌<◌, ◌≤◌, ◌++◌, ◌∷◌, [], length, is_some, IfOk, OnErr, List};
ghost use Rattle.vx_sector.specs.Fields.{zeros};
ghost use Rattle.vx_pages.specs.Bytes.{full};
ghost use Rattle.vx_pages.specs.Sector.{AreSectors, SectorSeen};
ghost use Rattle.vx_pages.specs.Pieces.{copies_of, sector_of};
ghost use Rattle.vx_pages.specs.Sectors.{sector_seen};
ghost use Rattle.vx_pages.specs.Page.{sectors_seen};
ghost use Rattle.vx_maps.specs.Sheets.{sheets_seen};
ghost use Rattle.vx_pages.specs.Page.{AreAll, ArePaired};
ghost use Rattle.vx_pages.specs.Sector.{IsOpen};
ghost use Rattle.vx_maps.specs.Slots.{HasCuts, HasHoles, HasPieces, Wholes, place_of};

use crate::slots::{Sheets, put_both, take_both};
use std::alloc::Global;
use vx_base::OutOfMemory;
use vx_pages::{LocalPiece, MapSector, empty_page, full_page};

/// The place of a page's sector of a map, where each slot has so many sectors.
pub fn place_of(size: u64, map: u64, page: u64) -> usize
    requires map { map < 32 }
    requires page { 1 + page < size }
    requires fits { 35 * size < 2 ^ 64 }
    ensures { result ≡ place_of size map page }
{
    ((3 + map) * size + (1 + page)) as usize
}

/// Makes a page's sectors of the pieces in their places. Nothing is claimed of them, and all their bits are loose. After a
/// refusal the pieces are in their places.
pub fn fill_page<P: LocalPiece + Drop>(
    alloc: Global,
    size: u64,
    page: u64,
    sheets: &mut Sheets<P>,
) -> Result<Vec<MapSector<P>>, OutOfMemory>
    requires page { 1 + page < size }
    requires fits { 35 * size < 2 ^ 64 }
    requires pieces { HasPieces size page 0 (sheets_seen P.seen sheets.old) }
    ensures count { IfOk result (λ sectors. length sectors.items ≡ 32) }
    ensures pair { IfOk result (λ sectors. ArePaired (is_some (sheets_seen P.seen sheets.old).second) (sectors_seen P.seen sectors.items)) }
    ensures open { IfOk result (λ sectors. AreAll IsOpen (sectors_seen P.seen sectors.items)) }
    ensures cut { IfOk result (λ sectors. (pages : List (List SectorSeen)) (wholes : Wholes) → length pages ≡ page →
        HasCuts size pages wholes (sheets_seen P.seen sheets.old) → HasCuts size (pages ++ sectors_seen P.seen sectors.items ∷ []) wholes (sheets_seen P.seen sheets.new)) }
    ensures kept { OnErr result ((pages : List (List SectorSeen)) (wholes : Wholes) → length pages ≡ page →
        HasCuts size pages wholes (sheets_seen P.seen sheets.old) → HasCuts size pages wholes (sheets_seen P.seen sheets.new)) }
    ensures second { is_some (sheets_seen P.seen sheets.new).second ≡ is_some (sheets_seen P.seen sheets.old).second }
{
    let mut sectors = Vec::with_capacity(alloc, 32)?;
    for map in 0..32 {
        let (Ok(sure), Ok(loose)) = (empty_page(alloc), full_page(alloc)) else {
            drain_page(size, page, sheets, sectors);
            return Err(OutOfMemory);
        };
        let (first, second) = take_both(sheets, place_of(size, map, page));
        sectors.push_reserved(open_sector(first, second, sure, loose));
    }
    Ok(sectors)
}

/// A sector of which nothing is known: all its bits are loose.
fn open_sector<P: LocalPiece>(
    first: P,
    second: Option<P>,
    sure: Vec<u8>,
    loose: Vec<u8>,
) -> MapSector<P>
    requires sectors { AreSectors (copies_of P.seen first second) }
    requires none { sure.items ≡ zeros 512 }
    requires all { loose.items ≡ full 512 }
    ensures { sector_seen P.seen result ≡ sector_of P.seen first second sure.items loose.items }
{
    MapSector::of(first, second, sure, loose)
}

/// Puts the pieces of a page's sectors back into their places. What is known of them is forgotten.
pub fn drain_page<P: LocalPiece + Drop>(
    size: u64,
    page: u64,
    sheets: &mut Sheets<P>,
    sectors: Vec<MapSector<P>>,
)
    requires page { 1 + page < size }
    requires fits { 35 * size < 2 ^ 64 }
    requires few { length sectors.items ≤ 32 }
    requires holes { HasHoles size page (length sectors.items) (sheets_seen P.seen sheets.old) }
    requires pair { ArePaired (is_some (sheets_seen P.seen sheets.old).second) (sectors_seen P.seen sectors.items) }
    ensures cut { (pages : List (List SectorSeen)) (wholes : Wholes) → length pages ≡ page →
        HasCuts size (pages ++ sectors_seen P.seen sectors.items ∷ []) wholes (sheets_seen P.seen sheets.old) → HasCuts size pages wholes (sheets_seen P.seen sheets.new) }
    ensures second { is_some (sheets_seen P.seen sheets.new).second ≡ is_some (sheets_seen P.seen sheets.old).second }
{
    let mut left = sectors;
    'draining: while let Some(sector) = left.pop() {
        let (first, second) = sector.into_pieces();
        put_both(
            sheets,
            place_of(size, left.len() as u64, page),
            first,
            second,
        );
    }
}
