//! Copies are put into slots, and put together again.

ghost use Rattle.std.specs.Prelude.{◌≡◌, ◌≤◌, ◌<◌, ◌*◌, ◌^◌, [], map, length, vec_capacity, IfOk, IfErr, Some};
ghost use Rattle.std.specs.Option.{option_map};
ghost use Rattle.vx_maps.specs.Copies.{AreCopies, SameRuns, copies_list};
ghost use Rattle.vx_maps.specs.Sheets.{sheets_seen};
ghost use Rattle.vx_maps.specs.Slots.{AreAllFull, AreWhole, pieces_in, slots_seen};
ghost use Rattle.vx_maps.specs.Spares.{HasRoom, HasRoomSecond, copies_seen};

use crate::runs::{cut_copy, take_out};
use crate::slots::Sheets;
use std::alloc::Global;
use vx_base::OutOfMemory;
use vx_pages::LocalPiece;
use vx_piece::Piece;

/// The memory to put the copies of a store together again.
#[derive(Drop)]
pub struct Spares<P> {
    pub shell: Vec<Vec<P>>,
    pub first: Vec<P>,
    pub second: Option<Vec<P>>,
}

/// Copies in slots, and the memory to put them together again.
#[derive(Drop)]
pub struct Cut<P> {
    pub sheets: Sheets<P>,
    pub spares: Spares<P>,
}

/// Memory for the pieces in these slots.
pub fn spares_of<P: LocalPiece + Drop>(
    alloc: Global,
    sheets: &Sheets<P>,
) -> Result<Spares<P>, OutOfMemory>
    ensures { IfOk result (λ spares. HasRoom (sheets_seen P.seen sheets.now) spares) }
{
    let shell = Vec::with_capacity(alloc, 2)?;
    let first = Vec::with_capacity(alloc, sheets.first.len())?;
    let second = match &sheets.second {
        Some(slots) => Some(Vec::with_capacity(alloc, slots.len())?),
        None => None,
    };
    Ok(Spares {
        shell,
        first,
        second,
    })
}

/// The copies in a list that has room for them.
fn list_of<P: LocalPiece + Drop>(
    mut shell: Vec<Vec<P>>,
    first: Vec<P>,
    second: Option<Vec<P>>,
) -> Vec<Vec<P>>
    requires empty { shell.items ≡ [] }
    requires room { length (copies_list [] (option_map (λ x. []) second)) ≤ vec_capacity shell }
    ensures { copies_seen P.seen result.items ≡ copies_list (map P.seen first.items) (option_map (λ x. map P.seen x.items) second) }
{
    shell.push_reserved(first);
    if let Some(second) = second {
        shell.push_reserved(second);
    }
    shell
}

/// Takes each piece of the second copy out of its slot, if there is a second copy.
fn take_out_second<P: LocalPiece + Drop>(
    slots: Option<Vec<Option<P>>>,
    spare: Option<Vec<P>>,
) -> Option<Vec<P>>
    requires full { AreAllFull (option_map (λ x. slots_seen P.seen x.items) slots) }
    requires room { HasRoomSecond (option_map (λ x. slots_seen P.seen x.items) slots) spare }
    ensures { option_map (λ x. map P.seen x.items) result ≡ option_map pieces_in (option_map (λ x. slots_seen P.seen x.items) slots) }
{
    let slots = slots?;
    let spare = spare?;
    Some(take_out(slots, spare))
}

/// Puts the copies together again.
pub fn join_sheets<P: LocalPiece + Drop>(sheets: Sheets<P>, spares: Spares<P>) -> Vec<Vec<P>>
    requires first { AreAllFull (Some (sheets_seen P.seen sheets).first) }
    requires second { AreAllFull (sheets_seen P.seen sheets).second }
    requires room { HasRoom (sheets_seen P.seen sheets) spares }
    ensures { copies_seen P.seen result.items ≡ copies_list (pieces_in (sheets_seen P.seen sheets).first) (option_map pieces_in (sheets_seen P.seen sheets).second) }
{
    let first = take_out(sheets.first, spares.first);
    let second = take_out_second(sheets.second, spares.second);
    list_of(spares.shell, first, second)
}

/// Cuts one copy or two. After a refusal each is the same run, perhaps of more pieces.
pub fn cut_sheets<P: Piece + Drop>(
    alloc: Global,
    size: u64,
    copies: Vec<Vec<P>>,
) -> Result<Cut<P>, (Vec<Vec<P>>, OutOfMemory)>
    requires copies { AreCopies size (copies_seen P.seen copies.items) }
    requires fits { 35 * size < 2 ^ 64 }
    ensures whole { IfOk result (λ cut. AreWhole size (sheets_seen P.seen cut.sheets)) }
    ensures room { IfOk result (λ cut. HasRoom (sheets_seen P.seen cut.sheets) cut.spares) }
    ensures same { IfOk result (λ cut. SameRuns (copies_seen P.seen copies.items) (copies_list (pieces_in (sheets_seen P.seen cut.sheets).first) (option_map pieces_in (sheets_seen P.seen cut.sheets).second))) }
    ensures kept { IfErr result (λ x. SameRuns (copies_seen P.seen copies.items) (copies_seen P.seen x.0.items)) }
{
    let mut shell = copies;
    if shell.reserve(2).is_err() {
        return Err((shell, OutOfMemory));
    }
    let second = if shell.len() == 2 { shell.pop() } else { None };
    let first = shell.pop().unwrap();
    match cut_copy(alloc, size, first) {
        Ok(first) => match second {
            None => Ok(Cut {
                sheets: Sheets {
                    first: first.slots,
                    second: None,
                },
                spares: Spares {
                    shell,
                    first: first.spare,
                    second: None,
                },
            }),
            Some(second) => match cut_copy(alloc, size, second) {
                Ok(second) => Ok(Cut {
                    sheets: Sheets {
                        first: first.slots,
                        second: Some(second.slots),
                    },
                    spares: Spares {
                        shell,
                        first: first.spare,
                        second: Some(second.spare),
                    },
                }),
                Err((second, _)) => {
                    let first = take_out(first.slots, first.spare);
                    Err((list_of(shell, first, Some(second)), OutOfMemory))
                }
            },
        },
        Err((first, _)) => Err((list_of(shell, first, second), OutOfMemory)),
    }
}
