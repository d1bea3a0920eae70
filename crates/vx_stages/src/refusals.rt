//! The refusal that a broken rule gives.
ghost use Rattle.std.specs.Prelude.{◌≡◌, IfOk};
ghost use Rattle.vx_stages.specs.Refusals.{refusal_by, refusal_from};

use vx_answers::Refusal;
use vx_base::OutOfMemory;
use vx_config_parts::ObjectFault;

/// Why a broken rule refuses a command. None for want of memory, which is no refusal.
pub fn refusal_by(fault: &ObjectFault) -> Option<Refusal>
    ensures { result ≡ refusal_by fault.now }
{
    match fault {
        ObjectFault::Exists(name) => Some(Refusal::Exists(*name)),
        ObjectFault::NoObject(name) => Some(Refusal::NoObject(*name)),
        ObjectFault::InUse(name) => Some(Refusal::InUse(*name)),
        ObjectFault::Overlap(name) => Some(Refusal::Overlap(*name)),
        ObjectFault::Outside(name) => Some(Refusal::Outside(*name)),
        ObjectFault::NoMap(name) => Some(Refusal::NoMap(*name)),
        ObjectFault::Limit(which) => Some(Refusal::Limit(*which)),
        ObjectFault::NotWhole(name) => Some(Refusal::NotWhole(*name)),
        ObjectFault::NoLog(name) => Some(Refusal::NoLog(*name)),
        ObjectFault::OutOfMemory => None,
    }
}

/// Why the first broken rule refuses a command, if one is broken.
pub fn refusal_from(broken: &Option<ObjectFault>) -> Result<Option<Refusal>, OutOfMemory>
    ensures { IfOk result (λ refusal. refusal ≡ refusal_from broken.now) }
{
    match broken {
        None => Ok(None),
        Some(fault) => match refusal_by(fault) {
            Some(refusal) => Ok(Some(refusal)),
            None => Err(OutOfMemory),
        },
    }
}
