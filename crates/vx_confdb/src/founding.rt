ghost use Rattle.std.specs.Prelude.{◌≡◌, ℕ, ◌<◌, ◌≤◌, List, length, map, None, IfOk};
ghost use Rattle.vx_copies.specs.Lists.{AllOf};
ghost use Rattle.vx_copies.specs.Disks.{disk_seen};
ghost use Rattle.vx_copies.specs.Chain.{Copy, IsSound};
ghost use Rattle.vx_confdb.specs.Create.{CreateGives, IsTooLong};
ghost use Rattle.vx_confdb.specs.Enlisted.{CreateWrites};
ghost use Rattle.vx_confdb.specs.Groups.{members, IsGroup};
ghost use Rattle.vx_confdb.specs.Prepare.{IsFresh, OffersNone, Tells};
ghost use Rattle.vx_confdb.specs.Texts.{text_of};

use crate::fault::{GroupFault, fault_of};
use crate::group::Group;
use crate::joining::{Prepared, join_all};
use crate::text::Text;
use crate::writing::write_all;
use std::alloc::Global;
use vx_copies::Disk;
use vx_header::MOST_TEXT;
use vx_names::Name;
use vx_piece::Piece;

/// A group that was not made, with the disks.
#[derive(Drop)]
pub struct Refused<P> {
    pub fault: GroupFault,
    pub disks: Vec<Disk<P>>,
}

/// Makes a group of these disks, in the order of their slots, and writes the text as its first configuration. A disk that
/// fails is not good. Wherever it is stopped the disks give no configuration of the group, or this text.
pub fn create<P: Piece>(
    alloc: Global,
    name: Name,
    disks: Vec<Disk<P>>,
    text: &[u8],
) -> Result<Group<P>, Refused<P>>
    requires few { length disks.items ≤ 32 }
    requires fresh { AllOf (IsFresh P.seen name) disks.items }
    requires none { AllOf (OffersNone name) (map (disk_seen P.seen) disks.items) }
    ensures gives { CreateGives P.seen result name text.now disks.items }
    ensures writes { CreateWrites P.seen result name text.now disks.items }
    ensures too_long { 522240 < length text.now → IsTooLong (length text.now) result }
    ensures group { IfOk result (IsGroup P.seen) }
    ensures sound { (missing : ℕ) (others : List Copy) → AllOf (λ c. c.offer ≡ None) others → AllOf Tells (map (disk_seen P.seen) disks.items) → IfOk result (λ group. IsSound name missing others group.sequence (length disks.items) (members P.seen group)) }
{
    if text.len() > MOST_TEXT as usize {
        let fault = GroupFault::TooLong(text.len() as u64);
        return Err(Refused { fault, disks });
    }
    let Ok(text) = Text::of(alloc, text) else {
        let fault = GroupFault::OutOfMemory;
        return Err(Refused { fault, disks });
    };
    found(name, disks, text)
}

fn found<P: Piece>(name: Name, disks: Vec<Disk<P>>, text: Text) -> Result<Group<P>, Refused<P>>
    requires few { length disks.items ≤ 32 }
    requires fresh { AllOf (IsFresh P.seen name) disks.items }
    requires none { AllOf (OffersNone name) (map (disk_seen P.seen) disks.items) }
    ensures gives { CreateGives P.seen result name (text_of text) disks.items }
    ensures writes { CreateWrites P.seen result name (text_of text) disks.items }
    ensures group { IfOk result (IsGroup P.seen) }
    ensures sound { (missing : ℕ) (others : List Copy) → AllOf (λ c. c.offer ≡ None) others → AllOf Tells (map (disk_seen P.seen) disks.items) → IfOk result (λ group. IsSound name missing others group.sequence (length disks.items) (members P.seen group)) }
{
    let mut disks = disks;
    match join_all(&mut disks, &name) {
        Prepared::Done => {}
        Prepared::Cut => {
            let fault = GroupFault::PowerLost;
            return Err(Refused { fault, disks });
        }
    }
    let mut sequence = 0;
    let carriers = disks.len();
    match write_all(&mut disks, carriers, &mut sequence, &text) {
        Ok(_) => Ok(Group::of(name, disks, sequence, text)),
        Err(lost) => Err(Refused {
            fault: fault_of(lost),
            disks,
        }),
    }
}
