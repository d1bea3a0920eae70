ghost use Rattle.std.specs.Prelude.{◌≡◌};
ghost use Rattle.vx_volume.specs.Calls.{IsNoRange};
ghost use Rattle.vx_group_calls.specs.Ending.{EndsAs, device_of};

use crate::served::Served;
use vx_answers::{Bytes, Parts};
use vx_cell::Place;
use vx_life::Part;
use vx_volume::IoFault;

/// How a call ends whose range lay in the volume.
pub fn ended(outcome: Result<(), IoFault>, parts: Vec<Part>, blocks: Vec<u8>) -> Served
    requires { IsNoRange outcome }
    ensures { EndsAs outcome parts.items blocks.items result }
{
    let parts = Parts::from_vec(parts);
    match outcome {
        Ok(()) => Served::Done {
            parts,
            blocks: Bytes::from_vec(blocks),
        },
        Err(IoFault::Fault(place)) => Served::Fault {
            device: device_of(place),
            parts,
        },
        Err(IoFault::PowerLost) => Served::Lost { parts },
        Err(IoFault::Range) => unreachable!(),
    }
}

fn device_of(place: Place) -> u32
    ensures { result ≡ device_of place }
{
    match place {
        Place::Data { device, .. } | Place::Log { device, .. } => device,
    }
}
