ghost use Rattle.std.specs.Prelude.{◌≡◌, length, IfOk, IfErr, Err};
ghost use Rattle.vx_sector.specs.Fields.{zeros};
ghost use Rattle.vx_pages.specs.Pieces.{copies_of};
ghost use Rattle.vx_pages.specs.Sector.{AreSectors, IsMade, IsPut};
ghost use Rattle.vx_pages.specs.Sectors.{sector_seen};

use crate::copies::put;
use crate::local_piece::LocalPiece;
use crate::sector::MapSector;
use vx_marks::MarkFault;

/// A sector that was not written, and its pieces with what they hold.
#[derive(Drop)]
pub struct SectorRefused<P> {
    pub fault: MarkFault,
    pub first: P,
    pub second: Option<P>,
}

/// Makes a map's sector of a page: writes these 512 bytes on its piece of each copy, in turn. `loose` is the memory for
/// what failed calls will leave open.
pub fn create_sector<P: LocalPiece>(
    first: P,
    second: Option<P>,
    sure: Vec<u8>,
    loose: Vec<u8>,
) -> Result<MapSector<P>, SectorRefused<P>>
    requires sectors { AreSectors (copies_of P.seen first second) }
    requires whole { length sure.items ≡ 512 }
    requires empty { loose.items ≡ zeros 512 }
    requires room { length loose.items ≡ 512 }
    ensures made { IfOk result (λ sector. IsMade sure.items (copies_of P.seen first second) (sector_seen P.seen sector)) }
    ensures refused { IfErr result (λ refused. IsPut {T = Unit {0}} sure.items (copies_of P.seen first second) (copies_of P.seen refused.first refused.second) (Err refused.fault)) }
{
    let mut first = first;
    let mut second = second;
    if let Err(fault) = put(&mut first, &mut second, &sure) {
        return Err(SectorRefused {
            fault,
            first,
            second,
        });
    }
    Ok(MapSector::of(first, second, sure, loose))
}
