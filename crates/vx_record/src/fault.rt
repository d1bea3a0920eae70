use std::alloc::{AllocError, AllocFailed};

/// Why a text was not read.
#[derive(Clone, Copy, Debug, PartialEq, Eq)]
pub enum RecordFault {
    /// The first line, from 1, that does not fit; one past the last line where the text ends inside a record.
    BadRecord(u64),
    OutOfMemory,
}

impl From<AllocError> for RecordFault {
    ghost use Rattle.std.specs.Prelude.{◌≡◌};
    ghost use Rattle.vx_record.specs.declared.fault.RecordFault.TheVariants.{OutOfMemory};

    ghost from_gives = { λ _ e. e ≡ OutOfMemory };

    fn from(_refused: AllocError) -> RecordFault {
        RecordFault::OutOfMemory
    }
}

impl<T: Drop> From<AllocFailed<T>> for RecordFault {
    ghost use Rattle.std.specs.Prelude.{◌≡◌};
    ghost use Rattle.vx_record.specs.declared.fault.RecordFault.TheVariants.{OutOfMemory};

    ghost from_gives = { λ _ e. e ≡ OutOfMemory };

    fn from(_refused: AllocFailed<T>) -> RecordFault {
        RecordFault::OutOfMemory
    }
}
