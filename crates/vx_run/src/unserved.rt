ghost use Rattle.std.specs.Prelude.{◌≡◌};
ghost use Rattle.vx_run.specs.declared.unserved.Unserved.TheVariants as unserved;

use vx_base::OutOfMemory;

/// Why a command has no answer.
#[derive(Clone, Copy, Debug, PartialEq, Eq)]
pub enum Unserved {
    /// Nothing was done for want of memory.
    OutOfMemory,
    /// The group or the power was lost, and there was no memory to join the group's devices: they are still held.
    HeldUp,
}

impl From<OutOfMemory> for Unserved {
    ghost from_gives = { λ _ e. e ≡ unserved.OutOfMemory };

    fn from(_refused: OutOfMemory) -> Unserved {
        Unserved::OutOfMemory
    }
}
