//! Whether the disks of a configuration are those of a group.

ghost use Rattle.std.specs.Prelude.{◌≡◌, ℕ, IsTrue, IfSome, IfOk};
ghost use Rattle.std.specs.List.{list_any, list_all};
ghost use Rattle.vx_carve.specs.Carved.{HaveNumbers};
ghost use Rattle.vx_confdb.specs.Groups.{members};
ghost use Rattle.vx_copies.specs.Disks.{disk_seen};
ghost use Rattle.vx_piece.specs.MemPiece.{mem_seen};
ghost use Rattle.vx_image.specs.UsedPlexes.{IsVolOf};
ghost use Rattle.vx_group_start.specs.GroupDisks.{AreGroupDisks};
ghost use Rattle.vx_volume_rows.specs.Matching.{is_disk_on};

use std::alloc::{AllocError, Global};
use vx_confdb::Group;
use vx_objects::{Config, Disk, Vol};
use vx_piece::{MemPiece, Piece};

/// The first volume of a configuration.
pub fn first_volume(config: &Config) -> Option<Vol>
    ensures { IfSome result (λ vol. IsVolOf config.now vol) }
{
    let volumes = config.volumes.as_slice();
    if volumes.is_empty() {
        return None;
    }
    let vol = &volumes[0];
    Some(*vol)
}

/// The numbers of the devices of a group's disks, in their order.
pub fn numbers_of(alloc: Global, group: &Group<MemPiece>) -> Result<Vec<u32>, AllocError> {
    group
        .disks()
        .iter()
        .map(|disk| disk.piece.device())
        .collect(alloc)
}

/// There are two numbers, and they differ.
pub fn differ(numbers: &[u32]) -> bool
    ensures { IsTrue result → HaveNumbers numbers.now }
{
    numbers.len() == 2 && numbers[0] != numbers[1]
}

/// Each disk of the configuration is one of the group's.
pub fn are_group_disks(config: &Config, numbers: &[u32], group: &Group<MemPiece>) -> bool
    ensures { IsTrue result → (good : ℕ) → AreGroupDisks numbers.now (members mem_seen group.now) good config.now.disks }
{
    all_are_disks(config.disks.as_slice(), numbers, group.disks())
}

fn all_are_disks(disks: &[Disk], numbers: &[u32], held: &[vx_copies::Disk<MemPiece>]) -> bool
    ensures { result ≡ list_all (λ d. list_any (λ h. is_disk_on numbers.now d (disk_seen mem_seen h)) held.now) disks.now }
{
    disks.iter().all(|disk| is_among(disk, numbers, held))
}

fn is_among(disk: &Disk, numbers: &[u32], held: &[vx_copies::Disk<MemPiece>]) -> bool
    ensures { result ≡ list_any (λ h. is_disk_on numbers.now disk.now (disk_seen mem_seen h)) held.now }
{
    held.iter().any(|held| is_disk_on(disk, numbers, held))
}

fn is_disk_on(disk: &Disk, numbers: &[u32], held: &vx_copies::Disk<MemPiece>) -> bool
    ensures { result ≡ is_disk_on numbers.now disk.now (disk_seen mem_seen held.now) }
{
    let slot = usize::from(disk.slot);
    slot < numbers.len()
        && numbers[slot] == held.piece.device()
        && 2048 <= held.sectors
        && disk.publen <= held.sectors - 2048
}
