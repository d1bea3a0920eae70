ghost use Rattle.vx_piece.specs.Seen.{Keeps};

use crate::board::Wire;
use crate::fuse::{Fuse, share};
use crate::power_shelf::PowerShelf;
use crate::powered::Powered;
use std::alloc::Global;
use std::test::Fail;
use vx_base::BLOCK;
use vx_names::Name;
use vx_piece::{MemPiece, Piece, PieceFault};
use vx_shelf::{MemShelf, Shelf};

/// A device of eight sectors in memory.
fn device(alloc: Global, number: u32) -> Result<MemPiece, Fail> {
    let bytes = vec![in alloc; 0u8; 8 * BLOCK]?;
    match MemPiece::new(number, bytes, Vec::new(alloc)) {
        Some(piece) => Ok(piece),
        None => unreachable!(),
    }
}

/// Writes a sector of this byte, where the piece has the sector.
fn put<P: Piece>(piece: &mut P, at: u64, byte: u8) -> Result<(), PieceFault>
    ensures { Keeps (P.seen piece.old) (P.seen piece.new) }
{
    if at >= piece.sectors() {
        return Err(PieceFault::Failed);
    }
    let sector = [byte; BLOCK];
    piece.write(at, &sector)
}

/// The first byte of a sector, where the piece has the sector.
fn byte_at<P: Piece>(piece: &mut P, at: u64) -> Result<u8, PieceFault>
    ensures { Keeps (P.seen piece.old) (P.seen piece.new) }
{
    if at >= piece.sectors() {
        return Err(PieceFault::Failed);
    }
    let mut sector = [0u8; BLOCK];
    piece.read(at, &mut sector)?;
    Ok(sector[0])
}

/// Writes the first two sectors of the device, and tells how each write ended.
fn put_two<S: Shelf>(
    shelf: &mut S,
    name: &Name,
    byte: u8,
) -> Option<(Result<(), PieceFault>, Result<(), PieceFault>)> {
    let mut piece = shelf.take(name).ok()?;
    let first = put(&mut piece, 0, byte);
    let second = put(&mut piece, 1, byte);
    shelf.give(name, piece);
    Some((first, second))
}

/// The first bytes of the first two sectors of the device.
fn two_bytes<S: Shelf>(
    shelf: &mut S,
    name: &Name,
) -> Option<(Result<u8, PieceFault>, Result<u8, PieceFault>)> {
    let mut piece = shelf.take(name).ok()?;
    let first = byte_at(&mut piece, 0);
    let second = byte_at(&mut piece, 1);
    shelf.give(name, piece);
    Some((first, second))
}

#[test]
fn the_fourth_write_of_two_fuses_is_lost(rt: HostRuntime) -> Result<(), Fail> {
    let lost = Err(PieceFault::PowerLost);
    let mut master = Some(Wire::new(rt.alloc())?);
    let mut one = Fuse {
        inner: device(rt.alloc(), 0)?,
        wire: share(&mut master),
    };
    let mut other = Fuse {
        inner: device(rt.alloc(), 1)?,
        wire: share(&mut master),
    };
    let Some(master) = &mut master else {
        panic!(rt; "no memory");
    };
    master.set(Some(2));
    assert!(rt; put(&mut one, 0, 1) == Ok(()) && byte_at(&mut one, 0) == Ok(1));
    master.set(None);
    assert!(rt; put(&mut other, 1, 1) == Ok(()) && put(&mut one, 2, 1) == Ok(()));
    master.set(Some(3));
    assert!(rt; put(&mut other, 3, 1) == lost && byte_at(&mut one, 2).is_err());
    master.set(None);
    assert!(rt; put(&mut one, 4, 1) == lost && byte_at(&mut other, 1).is_err());
    assert!(rt; byte_at(&mut one.inner, 0) == Ok(1) && byte_at(&mut one.inner, 2) == Ok(1));
    assert!(rt; byte_at(&mut other.inner, 1) == Ok(1) && byte_at(&mut other.inner, 3) == Ok(0));
    assert!(rt; byte_at(&mut one.inner, 4) == Ok(0) && master.drawn() == 4);
    Ok(())
}

#[test]
fn devices_get_their_power_back(rt: HostRuntime) -> Result<(), Fail> {
    let (done, lost) = (Ok(()), Err(PieceFault::PowerLost));
    let (one, two) = (Name::number(1), Name::number(2));
    let shelf = MemShelf::new(Vec::new(rt.alloc()));
    let Ok(mut shelf) = Powered::new(rt.alloc(), shelf) else {
        panic!(rt; "no memory");
    };
    assert!(rt; shelf.make(rt.alloc(), &one, 8).is_ok() && shelf.make(rt.alloc(), &two, 8).is_ok());
    assert!(rt; put_two(&mut shelf, &one, 1) == Some((done, done)) && shelf.drawn() == 2);
    shelf.set(Some(3));
    assert!(rt; put_two(&mut shelf, &two, 1) == Some((done, lost)) && shelf.has_gone());
    assert!(rt;
        two_bytes(&mut shelf, &one)
            == Some((Err(PieceFault::PowerLost), Err(PieceFault::PowerLost)))
    );
    shelf.set(None);
    assert!(rt; two_bytes(&mut shelf, &two).is_none());
    shelf.restore();
    assert!(rt; !shelf.has_gone() && two_bytes(&mut shelf, &one) == Some((Ok(1), Ok(1))));
    assert!(rt; two_bytes(&mut shelf, &two) == Some((Ok(1), Ok(0))) && !shelf.has_gone());
    Ok(())
}
