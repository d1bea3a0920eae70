//! The disks of a group, and those of its configuration.
ghost use Rattle.std.specs.Prelude.{◌≡◌};
ghost use Rattle.vx_stage_volumes.specs.Disks.{has_disk, have_disks, is_disk_of};

use vx_copies::Disk;
use vx_mask::contains;
use vx_objects::Disk as Record;

/// The sectors of the private region.
const PRIVATE_SECTORS: u64 = 2048;

/// Whether each record of a good slot is that of a disk, which has room for its public region.
pub fn have_disks<P>(disks: &[Disk<P>], good: u32, records: &[Record]) -> bool
    ensures { result ≡ have_disks disks.now good records.now }
{
    records.iter().all(|entry| !contains(good as u64, entry.slot as u32) || has_disk(disks, entry))
}

fn has_disk<P>(disks: &[Disk<P>], entry: &Record) -> bool
    ensures { result ≡ has_disk disks.now entry.now }
{
    disks.iter().any(|disk| is_disk_of(entry, disk))
}

/// The disk has the slot of the record, and room for its public region behind the private one.
fn is_disk_of<P>(entry: &Record, disk: &Disk<P>) -> bool
    ensures { result ≡ is_disk_of entry.now disk.now }
{
    disk.slot == entry.slot
        && disk.sectors >= PRIVATE_SECTORS
        && disk.sectors - PRIVATE_SECTORS >= entry.publen
}
