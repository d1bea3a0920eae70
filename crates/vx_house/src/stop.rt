ghost use Rattle.std.specs.Prelude.{◌≡◌, [], Err};
ghost use Rattle.vx_answers.specs.declared.answer.End.TheVariants as ends;
ghost use Rattle.vx_house.specs.declared.stop.Stop.TheVariants as stops;

use std::alloc::Global;
use vx_answers::{End, Parts, Refusal};
use vx_base::OutOfMemory;
use vx_names::Name;

/// Why the stages of a command go no further.
#[derive(Drop)]
pub enum Stop {
    /// The command ends here.
    Ended(End),
    OutOfMemory,
}

impl From<OutOfMemory> for Stop {
    fn from(_refused: OutOfMemory) -> Stop
        ensures { result ≡ stops.OutOfMemory }
    {
        Stop::OutOfMemory
    }
}

/// A test has refused the command.
pub fn refused<T>(refusal: Refusal) -> Result<T, Stop>
    ensures { result ≡ Err (stops.Ended (ends.Refused refusal)) }
{
    Err(Stop::Ended(End::Refused(refusal)))
}

/// The device failed, or the shelf as it was to hand it over.
pub fn fault<T>(alloc: Global, device: Name) -> Result<T, Stop>
    ensures { result ≡ Err (stops.Ended (ends.Fault device device [])) }
{
    Err(Stop::Ended(End::Fault {
        told: device,
        device,
        parts: Parts::from_vec(Vec::new(alloc)),
    }))
}

/// The power is gone.
pub fn lost<T>(alloc: Global) -> Result<T, Stop>
    ensures { result ≡ Err (stops.Ended (ends.Lost [])) }
{
    Err(Stop::Ended(End::Lost {
        parts: Parts::from_vec(Vec::new(alloc)),
    }))
}
