ghost use Rattle.std.specs.Prelude.{◌≡◌, ◌+◌, ◌*◌, ◌<◌, ◌≤◌, length, take, IfOk, OnOk, IfSome, option_map};
ghost use Rattle.vx_base.specs.Counts.{later_count};
ghost use Rattle.vx_header.specs.Named.{header_of, label_of};
ghost use Rattle.vx_piece.specs.Seen.{Keeps, IsRead, CountsRead, HasCause};
ghost use Rattle.vx_copies.specs.Image.{text_in, sectors_for};
ghost use Rattle.vx_import.specs.Looks.{IsReading};

use crate::device::Reading;
use vx_header::{Header, HeaderFault, Toggle};
use vx_piece::{Piece, PieceFault};

/// What the header of a device says; None where sector 0 holds no header.
pub fn read_header<P: Piece>(piece: &mut P) -> Result<Option<Header>, PieceFault>
    requires some { 0 < (P.seen piece.old).sectors }
    ensures kept { Keeps (P.seen piece.old) (P.seen piece.new) }
    ensures same { IsRead (P.seen piece.old) (P.seen piece.new) }
    ensures once { OnOk result ((P.seen piece.new).reads ≡ later_count (P.seen piece.old).reads 1) }
    ensures most { (P.seen piece.new).reads ≤ (P.seen piece.old).reads + 1 }
    ensures header { IfOk result (λ h. IfSome (P.seen piece.old).told (λ contents. header_of (contents 0) ≡ option_map label_of h)) }
    ensures cause { HasCause (P.seen piece.old) (P.seen piece.new) result }
{
    let mut sector = [0; 512];
    match piece.read(0, &mut sector) {
        Ok(()) => Ok(header_in(&sector)),
        Err(fault) => Err(fault),
    }
}

fn header_in(sector: &[u8]) -> Option<Header>
    requires { length sector.now ≡ 512 }
    ensures { header_of sector.now ≡ option_map label_of result }
{
    match Header::read(sector) {
        Ok(header) => Some(header),
        Err(_) => None,
    }
}

/// What the toggle of a private region says. `sector` is room for a sector.
pub fn read_toggle<P: Piece>(piece: &mut P, sector: &mut [u8]) -> Result<Reading, PieceFault>
    requires size { length sector.old ≡ 512 }
    requires sectors { 2048 ≤ (P.seen piece.old).sectors }
    ensures size { length sector.new ≡ 512 }
    ensures kept { Keeps (P.seen piece.old) (P.seen piece.new) }
    ensures same { IsRead (P.seen piece.old) (P.seen piece.new) }
    ensures counted { CountsRead sector.old (P.seen piece.old) (P.seen piece.new) }
    ensures reading { IfOk result (λ r. IfSome (P.seen piece.old).told (λ contents. IsReading r (contents 1))) }
    ensures cause { HasCause (P.seen piece.old) (P.seen piece.new) result }
{
    match piece.read(1, sector) {
        Ok(_) => Ok(toggle_in(sector)),
        Err(fault) => Err(fault),
    }
}

fn toggle_in(sector: &[u8]) -> Reading
    requires { length sector.now ≡ 512 }
    ensures { IsReading result sector.now }
{
    match Toggle::read(sector) {
        Ok(None) => Reading::Blank,
        Ok(Some(toggle)) => Reading::Says(toggle),
        Err(HeaderFault::BadHeader(byte)) => Reading::Damaged(512 + byte),
        Err(HeaderFault::NotInitialised) => Reading::Blank,
    }
}

/// Reads the text that a toggle names, with what fills its last sector.
pub fn read_text<P: Piece>(
    piece: &mut P,
    toggle: &Toggle,
    buffer: &mut [u8],
) -> Result<(), PieceFault>
    requires size { length buffer.old ≡ 512 * sectors_for toggle.now.length }
    requires sectors { 2048 ≤ (P.seen piece.old).sectors }
    ensures size { length buffer.new ≡ length buffer.old }
    ensures kept { Keeps (P.seen piece.old) (P.seen piece.new) }
    ensures same { IsRead (P.seen piece.old) (P.seen piece.new) }
    ensures counted { CountsRead buffer.old (P.seen piece.old) (P.seen piece.new) }
    ensures text { OnOk result (IfSome (P.seen piece.old).told (λ contents. text_in toggle.now.half toggle.now.length contents ≡ take toggle.now.length buffer.new)) }
    ensures cause { HasCause (P.seen piece.old) (P.seen piece.new) result }
{
    piece.read(2 + 1020 * toggle.half as u64, buffer)
}
