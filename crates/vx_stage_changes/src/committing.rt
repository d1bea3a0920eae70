//! A commit to the disks of a group.
ghost use Rattle.std.specs.Prelude.{◌≡◌, ◌≤◌, length, None, Err};
ghost use Rattle.vx_confdb.specs.Groups.{IsAlive};
ghost use Rattle.vx_stage_changes.specs.Committing.{stop_of, CommitEnds};

use std::alloc::Global;
use vx_answers::{End, Parts, Refusal};
use vx_confdb::{Group, GroupFault};
use vx_house::Stop;
use vx_piece::Piece;

/// The first number of a commit from which on no further commit may begin.
pub const LATE: u64 = u64::MAX - 63;

/// Writes the text to all good disks. No commit begins whose numbers could pass the end of their type.
pub fn commit<P: Piece>(alloc: Global, base: &mut Group<P>, text: &[u8]) -> Result<(), Stop>
    requires alive { IsAlive P.seen base.old }
    requires going { base.old.lost ≡ None }
    requires short { length text.now ≤ 522240 }
    ensures ends { CommitEnds P.seen result text.now base.old base.new }
{
    if base.sequence() >= LATE {
        return Err(Stop::OutOfMemory);
    }
    match base.commit(alloc, text) {
        Ok(_) => Ok(()),
        Err(fault) => uncommitted(alloc, &fault),
    }
}

/// A commit that was not done ends the command.
fn uncommitted<T>(alloc: Global, fault: &GroupFault) -> Result<T, Stop>
    ensures { result ≡ Err (stop_of fault.now) }
{
    Err(stop_of(alloc, fault))
}

/// The stop that a commit which was not done is.
pub fn stop_of(alloc: Global, fault: &GroupFault) -> Stop
    ensures { result ≡ stop_of fault.now }
{
    match fault {
        GroupFault::OutOfMemory => Stop::OutOfMemory,
        GroupFault::TooLong(bytes) => Stop::Ended(End::Refused(Refusal::TooLong(*bytes))),
        GroupFault::GroupLost => Stop::Ended(End::GroupLost),
        GroupFault::PowerLost => Stop::Ended(End::Lost {
            parts: Parts::from_vec(Vec::new(alloc)),
        }),
    }
}
