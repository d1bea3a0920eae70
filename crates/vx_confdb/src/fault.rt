ghost use Rattle.std.specs.Prelude.{◌≡◌};
ghost use Rattle.vx_confdb.specs.Faults.{fault_of};

use vx_copies::Lost;

/// Why a call on a group was not done.
#[derive(Clone, Copy, Debug, PartialEq, Eq)]
pub enum GroupFault {
    OutOfMemory,
    /// The text has so many bytes, and more than 522,240.
    TooLong(u64),
    /// No disk that was good is good any more. The group has to be imported again.
    GroupLost,
    /// The power is gone. The group has to be imported again.
    PowerLost,
}

pub(crate) fn fault_of(lost: Lost) -> GroupFault
    ensures { result ≡ fault_of lost }
{
    match lost {
        Lost::GroupLost => GroupFault::GroupLost,
        Lost::PowerLost => GroupFault::PowerLost,
    }
}
