ghost use Rattle.vx_maps.specs.Creating.{IsBusy, IsFaultOf};

use vx_marks::MarkFault;

/// Why there is no store.
#[derive(Clone, Copy, Debug, PartialEq, Eq)]
pub enum StoreFault {
    /// Memory that was asked for was not there.
    OutOfMemory,
    /// No copy could be read whole and has the header of the volume's maps.
    NoCopy,
    /// A call on a piece of this copy, on this device, failed.
    Failed { copy: u8, device: u32 },
    /// The power is gone.
    PowerLost,
}

/// Copies of which no store was made.
#[derive(Drop)]
pub struct StoreRefused<P> {
    pub fault: StoreFault,
    pub copies: Vec<Vec<P>>,
}

/// The fault of a mark as one of a store.
pub fn fault_of(fault: MarkFault) -> StoreFault
    requires { IsBusy fault → ⊥ }
    ensures { IsFaultOf fault result }
{
    match fault {
        MarkFault::Failed { copy, device } => StoreFault::Failed { copy, device },
        MarkFault::PowerLost | MarkFault::Busy => StoreFault::PowerLost,
    }
}
