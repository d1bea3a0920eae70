ghost use Rattle.std.specs.Prelude.{◌≡◌, Some, None, IsSome, IfOk, OnErr, is_some};
ghost use Rattle.std.specs.BTreeMap.{get};
ghost use Rattle.std.specs.Cmp.Lexicographic.{slice_cmp};
ghost use Rattle.std.specs.Ordering.{nat_cmp};
ghost use Rattle.vx_base.specs.Named.{put, SameUnder};
ghost use Rattle.vx_shelf.specs.Shelf.{SameCounts, put_count};
ghost use Rattle.vx_files.specs.Known.{held_in, held_with, counted_in, number_in, AreNumbered};

use std::collections::BTreeMap;
use vx_base::OutOfMemory;
use vx_names::Name;

/// A device that was taken before: its number, its sectors while it is held, and how often calls of it had failed when
/// it last came back.
#[derive(Clone, Copy, Debug, PartialEq, Eq)]
pub struct Known {
    pub device: u32,
    pub held: Option<u64>,
    pub faults: u64,
}

/// Whether the device of that name is held.
pub fn is_held(known: &BTreeMap<Name, Known>, name: &Name) -> bool
    ensures { result ≡ is_some (held_in known.now name.now) }
{
    match known.get(name) {
        None => false,
        Some(one) => one.held.is_some(),
    }
}

/// Holds so many sectors under the name, and answers the device: its number is the one that it had before, or the next.
pub fn hold(
    known: &mut BTreeMap<Name, Known>,
    name: &Name,
    sectors: u64,
) -> Result<Known, OutOfMemory>
    ensures held { IfOk result (λ one. SameUnder (put name.now (held_with one.device (Some sectors)) (held_in known.old)) (held_in known.new)) }
    ensures stays { OnErr result (SameUnder (held_in known.old) (held_in known.new)) }
    ensures counted { IfOk result (λ one. one.faults ≡ counted_in known.old name.now) }
    ensures counts { SameCounts (counted_in known.old) (counted_in known.new) }
    ensures numbered { AreNumbered known.old → AreNumbered known.new }
{
    let one = known_as(known, name)?;
    let held = Some(sectors);
    let Ok(_) = known.insert(*name, Known { held, ..one }) else {
        return Err(OutOfMemory);
    };
    Ok(one)
}

/// The device that is held under the name is held no more. So often its calls have failed.
pub fn release(known: &mut BTreeMap<Name, Known>, name: &Name, faults: u64)
    requires { IsSome (held_in known.old name.now) }
    ensures given { SameUnder (put name.now None (held_in known.old)) (held_in known.new) }
    ensures counts { SameCounts (put_count name.now faults (counted_in known.old)) (counted_in known.new) }
    ensures numbered { AreNumbered known.old → AreNumbered known.new }
{
    let Some(one) = known.get(name).copied() else {
        unreachable!();
    };
    let device = one.device;
    let held = None;
    let Ok(_) = known.insert(
        *name,
        Known {
            device,
            held,
            faults,
        },
    ) else {
        unreachable!();
    };
}

/// The device of that name, or one with the next number where the name is new.
fn known_as(known: &BTreeMap<Name, Known>, name: &Name) -> Result<Known, OutOfMemory>
    ensures faults { IfOk result (λ one. one.faults ≡ counted_in known.now name.now) }
    ensures device { IfOk result (λ one. one.device ≡ number_in known.now name.now) }
{
    match known.get(name) {
        Some(one) => Ok(*one),
        None => match u32::try_from(known.len()) {
            Ok(device) => Ok(Known {
                device,
                held: None,
                faults: 0,
            }),
            Err(_) => Err(OutOfMemory),
        },
    }
}
