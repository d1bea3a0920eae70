//! A page of 100 regions on two copies in memory. The pieces of copy 0 lie on device 1; those of copy 1 on device 2, and
//! from map 4 on on device 3.

ghost use Rattle.std.specs.Prelude.{◌≡◌, true, is_some, IfOk};
ghost use Rattle.vx_piece.specs.MemPiece.{mem_seen};
ghost use Rattle.vx_pages.specs.Pages.{page_seen};
ghost use Rattle.vx_pages.specs.Sectors.{sector_seen};

use std::alloc::{AllocError, Global};
use vx_pages::{MapSector, Page, create_sector, empty_page};
use vx_piece::{Bad, MemPiece, Piece};

/// The write that fails: on this copy, in this map, after so many that pass; once.
#[derive(Clone, Copy)]
pub struct Fault {
    pub copy: u8,
    pub map: u32,
    pub passes: u64,
}

/// One sector of zeros on a device.
fn piece(alloc: Global, copy: u8, map: u32, fault: Option<Fault>) -> Result<MemPiece, AllocError>
    ensures { IfOk result (λ piece. (mem_seen piece).sectors ≡ 1) }
{
    let mut bads = Vec::new(alloc);
    if let Some(fault) = fault {
        if fault.copy == copy && fault.map == map {
            bads.push(Bad {
                start: 0,
                count: 1,
                on_read: false,
                on_write: true,
                skip: fault.passes,
                times: 1,
            })?;
        }
    }
    let device = if copy == 0 {
        1
    } else if map < 4 {
        2
    } else {
        3
    };
    let Some(piece) = MemPiece::new(device, vec![in alloc; 0u8; 512]?, bads) else {
        return Err(AllocError);
    };
    if piece.sectors() != 1 {
        return Err(AllocError);
    }
    Ok(piece)
}

fn sector(alloc: Global, map: u32, fault: Option<Fault>) -> Result<MapSector<MemPiece>, AllocError>
    ensures { IfOk result (λ sector. is_some (sector_seen mem_seen sector).copies.second ≡ true) }
{
    let first = piece(alloc, 0, map, fault)?;
    let second = piece(alloc, 1, map, fault)?;
    let (Ok(sure), Ok(loose)) = (empty_page(alloc), empty_page(alloc)) else {
        return Err(AllocError);
    };
    match create_sector(first, Some(second), sure, loose) {
        Ok(sector) => Ok(sector),
        Err(_refused) => Err(AllocError),
    }
}

pub fn page(alloc: Global, fault: Option<Fault>) -> Result<Page<MemPiece>, AllocError>
    ensures region { IfOk result (λ page. (page_seen mem_seen page).has_region 7 ≡ true) }
    ensures maps { IfOk result (λ page. (page_seen mem_seen page).maps ≡ 32) }
{
    let mut sectors = Vec::new(alloc);
    for map in 0..32 {
        sectors.push(sector(alloc, map, fault)?)?;
    }
    Ok(Page::of(0, 100, sectors))
}
