ghost use Rattle.std.specs.Prelude.{◌≡◌, ◌+◌, nat_le};
ghost use Rattle.vx_rules.specs.Space.{has_room, lies_inside, outside_fault};

use crate::index::Index;
use vx_config_parts::{Object, ObjectFault, Subdisk};

/// The subdisk has a sector, and lies in the public region of its disk.
pub(crate) fn outside_fault(index: &Index, object: &Object) -> Option<ObjectFault>
    ensures { result ≡ outside_fault index.now.all.now object.now }
{
    match object {
        Object::SubdiskRecord(subdisk) if !lies_inside(index, subdisk) => Some(ObjectFault::Outside(
            subdisk.name,
        )),
        _ => None,
    }
}

fn lies_inside(index: &Index, subdisk: &Subdisk) -> bool
    ensures { result ≡ lies_inside index.now.all.now subdisk.now }
{
    subdisk.len > 0 && has_room(index, subdisk)
}

#[tactic(auto, using(crate::proofs::Lookups::has_room_is))]
fn has_room(index: &Index, subdisk: &Subdisk) -> bool
    ensures { result ≡ has_room index.now.all.now subdisk.now }
{
    match index.disk(&subdisk.disk) {
        Some(disk) => ends_by(subdisk.off, subdisk.len, disk.publen),
        None => false,
    }
}

fn ends_by(off: u64, len: u64, end: u64) -> bool
    ensures { result ≡ nat_le (off + len) end }
{
    off <= end && len <= end - off
}
