//! The first sector of each copy, which holds the header.

ghost use Rattle.std.specs.Prelude.{◌≡◌, ◌<◌, length};
ghost use Rattle.vx_pages.specs.Reading.{IsGot, IsMended};
ghost use Rattle.vx_maps.specs.Heads.{AreChanged, ArePut, HaveFirst, IsPutFirst};
ghost use Rattle.vx_maps.specs.Sheets.{sheets_seen};
ghost use Rattle.vx_maps.specs.Slots.{copies_in};

use crate::slots::{Sheets, put_both, take_both};
use vx_marks::MarkFault;
use vx_pages::LocalPiece;
use vx_pages::copies::{get, mend, put};

/// Writes the first sector of each copy in turn, and stops at the first that fails.
pub fn put_heads<P: LocalPiece + Drop>(
    sheets: &mut Sheets<P>,
    sector: &[u8],
) -> Result<(), MarkFault>
    requires whole { length sector.now ≡ 512 }
    requires first { HaveFirst (sheets_seen P.seen sheets.old) }
    ensures { ArePut sector.now (sheets_seen P.seen sheets.old) (sheets_seen P.seen sheets.new) result }
{
    let (mut first, mut second) = take_both(sheets, 0);
    let result = put(&mut first, &mut second, sector);
    put_both(sheets, 0, first, second);
    result
}

/// Reads the first sector of one copy, 0 or 1.
pub fn get_head<P: LocalPiece + Drop>(
    sheets: &mut Sheets<P>,
    copy: u8,
    into: &mut [u8],
) -> Result<(), MarkFault>
    requires whole { length into.old ≡ 512 }
    requires first { HaveFirst (sheets_seen P.seen sheets.old) }
    requires there { copy < copies_in (sheets_seen P.seen sheets.old) }
    ensures got { AreChanged (λ before after. IsGot copy into.new before after result) (sheets_seen P.seen sheets.old) (sheets_seen P.seen sheets.new) }
    ensures length { length into.new ≡ length into.old }
{
    let (mut first, mut second) = take_both(sheets, 0);
    let result = get(&mut first, &mut second, copy, into);
    put_both(sheets, 0, first, second);
    result
}

/// Makes the first sector of each copy these bytes where it is not, and stops at the first write that fails.
pub fn mend_heads<P: LocalPiece + Drop>(
    sheets: &mut Sheets<P>,
    sector: &[u8],
) -> Result<(), MarkFault>
    requires whole { length sector.now ≡ 512 }
    requires first { HaveFirst (sheets_seen P.seen sheets.old) }
    ensures { AreChanged (λ before after. IsMended sector.now before after result) (sheets_seen P.seen sheets.old) (sheets_seen P.seen sheets.new) }
{
    let (mut first, mut second) = take_both(sheets, 0);
    let result = mend(&mut first, &mut second, sector, None);
    put_both(sheets, 0, first, second);
    result
}

/// Writes the first sector of the first copy.
pub fn put_head<P: LocalPiece + Drop>(
    sheets: &mut Sheets<P>,
    sector: &[u8],
) -> Result<(), MarkFault>
    requires whole { length sector.now ≡ 512 }
    requires first { HaveFirst (sheets_seen P.seen sheets.old) }
    ensures { AreChanged (λ before after. IsPutFirst sector.now before after result) (sheets_seen P.seen sheets.old) (sheets_seen P.seen sheets.new) }
{
    let (mut first, second) = take_both(sheets, 0);
    let result = put(&mut first, &mut None, sector);
    put_both(sheets, 0, first, second);
    result
}
