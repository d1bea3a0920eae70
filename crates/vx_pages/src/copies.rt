//! The pieces of one sector, one on each copy.

ghost use Rattle.std.specs.Prelude.{◌≡◌, true, length, Some};
ghost use Rattle.vx_piece.specs.Seen.{Keeps};
ghost use Rattle.vx_pages.specs.Sector.{AreSectors, IsPut};
ghost use Rattle.vx_pages.specs.Pieces.{IsPutOn, copies_of};
ghost use Rattle.vx_pages.specs.Reading.{IsCopyOf, IsGot, IsGotOn, IsKnownOn, IsMended, IsMendedOn, IsWhatIs};

use crate::local_piece::LocalPiece;
use vx_marks::MarkFault;
use vx_piece::PieceFault;
use vx_sector::first_difference;

/// Writes the sector on each copy, and stops at the first that fails.
pub fn put<P: LocalPiece>(
    first: &mut P,
    second: &mut Option<P>,
    sector: &[u8],
) -> Result<(), MarkFault>
    requires whole { length sector.now ≡ 512 }
    requires sectors { AreSectors (copies_of P.seen first.old second.old) }
    ensures { IsPut sector.now (copies_of P.seen first.old second.old) (copies_of P.seen first.new second.new) result }
{
    if let Err(fault) = put_one(first, 0, sector) {
        return Err(fault);
    }
    match second {
        Some(piece) => put_one(piece, 1, sector),
        None => Ok(()),
    }
}

/// Writes the sector on one copy.
fn put_one<P: LocalPiece>(piece: &mut P, copy: u8, sector: &[u8]) -> Result<(), MarkFault>
    requires whole { length sector.now ≡ 512 }
    requires sector { (P.seen piece.old).sectors ≡ 1 }
    ensures { IsPutOn copy sector.now (P.seen piece.old) (P.seen piece.new) result }
{
    match piece.write(0, sector) {
        Ok(()) => Ok(()),
        Err(PieceFault::Failed) => Err(MarkFault::Failed {
            copy,
            device: piece.device(),
        }),
        Err(PieceFault::PowerLost) => Err(MarkFault::PowerLost),
    }
}

/// Reads the sector of one copy, 0 or 1.
pub fn get<P: LocalPiece>(
    first: &mut P,
    second: &mut Option<P>,
    copy: u8,
    into: &mut [u8],
) -> Result<(), MarkFault>
    requires whole { length into.old ≡ 512 }
    requires sectors { AreSectors (copies_of P.seen first.old second.old) }
    requires there { IsCopyOf copy (copies_of P.seen first.old second.old) }
    ensures got { IsGot copy into.new (copies_of P.seen first.old second.old) (copies_of P.seen first.new second.new) result }
    ensures length { length into.new ≡ length into.old }
{
    if copy == 0 {
        return get_one(first, 0, into);
    }
    match second {
        Some(piece) => get_one(piece, 1, into),
        None => Ok(()),
    }
}

/// Reads the sector of one copy from its piece.
fn get_one<P: LocalPiece>(piece: &mut P, copy: u8, into: &mut [u8]) -> Result<(), MarkFault>
    requires whole { length into.old ≡ 512 }
    requires sector { (P.seen piece.old).sectors ≡ 1 }
    ensures got { IsGotOn copy into.new (P.seen piece.old) (P.seen piece.new) result }
    ensures length { length into.new ≡ length into.old }
{
    match piece.read(0, into) {
        Ok(()) => Ok(()),
        Err(PieceFault::Failed) => Err(MarkFault::Failed {
            copy,
            device: piece.device(),
        }),
        Err(PieceFault::PowerLost) => Err(MarkFault::PowerLost),
    }
}

/// Makes each copy hold the sector: reads its piece, and writes it where it differs or cannot be read. A copy that is known to
/// hold it is not called. Stops at the first write that fails.
pub fn mend<P: LocalPiece>(
    first: &mut P,
    second: &mut Option<P>,
    sector: &[u8],
    known: Option<u8>,
) -> Result<(), MarkFault>
    requires whole { length sector.now ≡ 512 }
    requires sectors { AreSectors (copies_of P.seen first.old second.old) }
    requires known { IsKnownOn known sector.now (copies_of P.seen first.old second.old) }
    ensures { IsMended sector.now (copies_of P.seen first.old second.old) (copies_of P.seen first.new second.new) result }
{
    if let Err(fault) = mend_one(first, 0, sector, is_copy(known, 0)) {
        return Err(fault);
    }
    match second {
        Some(piece) => mend_one(piece, 1, sector, is_copy(known, 1)),
        None => Ok(()),
    }
}

/// Whether it is this copy that is known.
fn is_copy(known: Option<u8>, copy: u8) -> bool
    ensures { result ≡ true → known ≡ Some copy }
{
    match known {
        Some(other) => other == copy,
        None => false,
    }
}

/// Makes the piece of one copy hold the sector, unless it is known to hold it.
fn mend_one<P: LocalPiece>(
    piece: &mut P,
    copy: u8,
    sector: &[u8],
    known: bool,
) -> Result<(), MarkFault>
    requires whole { length sector.now ≡ 512 }
    requires sector { (P.seen piece.old).sectors ≡ 1 }
    requires known { known ≡ true → IsWhatIs sector.now (P.seen piece.old) }
    ensures { IsMendedOn copy sector.now (P.seen piece.old) (P.seen piece.new) result }
{
    if known {
        return Ok(());
    }
    if is_held(piece, sector) {
        return Ok(());
    }
    put_one(piece, copy, sector)
}

/// Whether the piece was read and holds the sector.
fn is_held<P: LocalPiece>(piece: &mut P, sector: &[u8]) -> bool
    requires whole { length sector.now ≡ 512 }
    requires sector { (P.seen piece.old).sectors ≡ 1 }
    ensures kept { Keeps (P.seen piece.old) (P.seen piece.new) }
    ensures told { (P.seen piece.new).told ≡ (P.seen piece.old).told }
    ensures held { result ≡ true → IsWhatIs sector.now (P.seen piece.old) }
{
    let mut held = [0; 512];
    match piece.read(0, &mut held) {
        Ok(()) => first_difference(sector, &held).is_none(),
        Err(_fault) => false,
    }
}
