//! The numbers of a group's devices, by the slots of their disks.
ghost use Rattle.std.specs.Prelude.{◌≡◌, ◌≤◌, ◌^◌, false, IfOk, IfSome};
ghost use Rattle.vx_stage_volumes.specs.Numbers.{AreNumbersOf, HaveOwnNumbers, is_taken, number_at};

use std::alloc::Global;
use vx_base::OutOfMemory;
use vx_copies::Disk;
use vx_piece::Piece;

/// The slots of a group.
const SLOTS: u8 = 32;

/// The number of the device of each slot. A slot without a disk gets one that no device of the group has.
pub fn numbers_of<P: Piece>(alloc: Global, disks: &[Disk<P>]) -> Result<Vec<u32>, OutOfMemory>
    requires own { HaveOwnNumbers P.seen disks.now }
    ensures { IfOk result (λ numbers. AreNumbersOf P.seen disks.now 32 (2 ^ 32) numbers.items) }
{
    let mut numbers = Vec::new(alloc);
    let mut next = 0;
    let mut slot = 0;
    'slots: while slot < SLOTS {
        match number_at(disks, slot) {
            Some(number) => numbers.push(number)?,
            None => {
                let Some(number) = spare_number(disks, next) else {
                    return Err(OutOfMemory);
                };
                let Some(later) = number.checked_add(1) else {
                    return Err(OutOfMemory);
                };
                numbers.push(number)?;
                next = later;
            }
        }
        slot += 1;
    }
    Ok(numbers)
}

/// The number of the device that the disk of the slot is on.
fn number_at<P: Piece>(disks: &[Disk<P>], slot: u8) -> Option<u32>
    ensures { result ≡ number_at P.seen disks.now slot }
{
    match disks {
        [] => None,
        [first, rest @ ..] => {
            if first.slot == slot {
                Some(first.piece.device())
            } else {
                number_at(rest, slot)
            }
        }
    }
}

/// The lowest number from this one on that no disk's device has.
fn spare_number<P: Piece>(disks: &[Disk<P>], from: u32) -> Option<u32>
    ensures from { IfSome result (λ number. from ≤ number) }
    ensures unused { IfSome result (λ number. is_taken P.seen disks.now number ≡ false) }
{
    let mut number = from;
    'numbers: while is_taken(disks, number) {
        number = number.checked_add(1)?;
    }
    Some(number)
}

/// Some disk is on the device of this number.
fn is_taken<P: Piece>(disks: &[Disk<P>], number: u32) -> bool
    ensures { result ≡ is_taken P.seen disks.now number }
{
    disks.iter().any(|disk| disk.piece.device() == number)
}
