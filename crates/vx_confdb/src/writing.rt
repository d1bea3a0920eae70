ghost use Rattle.std.specs.Prelude.{◌≡◌, ◌+◌, ◌-◌, ◌<◌, ◌≤◌, ◌^◌, length, map};
ghost use Rattle.vx_copies.specs.Lists.{AllOf};
ghost use Rattle.vx_copies.specs.Disks.{disk_seen, IsReady};
ghost use Rattle.vx_confdb.specs.Carried.{IsCarried};
ghost use Rattle.vx_confdb.specs.Texts.{text_of};

use crate::text::Text;
use vx_copies::{Disk, Lost, commit};
use vx_piece::Piece;

/// Writes the text to all good disks, as long as one of the first `carriers` disks is good.
pub fn write_all<P: Piece>(
    disks: &mut Vec<Disk<P>>,
    carriers: usize,
    sequence: &mut u64,
    text: &Text,
) -> Result<(), Lost>
    requires ready { AllOf IsReady (map (disk_seen P.seen) disks.old.items) }
    requires count { length disks.old.items ≤ 32 }
    requires carriers { carriers ≤ length disks.old.items }
    requires low { sequence.old < 2 ^ 64 - 64 }
    ensures carried { IsCarried result carriers sequence.old sequence.new (text_of text.now) (map (disk_seen P.seen) disks.old.items) (map (disk_seen P.seen) disks.new.items) }
    ensures long { length disks.new.items ≡ length disks.old.items }
{
    let mut sector = [0; 512];
    let (whole, padded) = (text.text(), text.sectors());
    commit(disks, carriers, sequence, whole, padded, &mut sector)
}
