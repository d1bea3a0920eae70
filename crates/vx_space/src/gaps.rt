ghost use Rattle.std.specs.Prelude.{◌≡◌, ◌++◌, true, IfOk, OnOk};
ghost use Rattle.std.specs.List.{list_all};
ghost use Rattle.std.specs.List.Sorted.{IsPermutation, IsNonDecreasingBy};
ghost use Rattle.vx_config_parts.specs.declared.subdisk.Subdisk.{Subdisk};
ghost use Rattle.vx_space.specs.Gaps.{gaps, all_gaps, ends_in};

use crate::extent::{Extent, put_between};
use std::alloc::Global;
use vx_base::OutOfMemory;
use vx_config_parts::{Disk, Subdisk, same};

/// The subdisks by their first sectors.
pub(crate) fn by_start(alloc: Global, subdisks: &[Subdisk]) -> Result<Vec<Subdisk>, OutOfMemory>
    ensures same { IfOk result (λ sorted. IsPermutation subdisks.now sorted.items) }
    ensures order { IfOk result (λ sorted. IsNonDecreasingBy (λ (s : Subdisk). s.off) sorted.items) }
{
    let mut sorted = Vec::new(alloc);
    sorted.extend_from_slice(subdisks)?;
    sorted.sort_by_key(|subdisk| subdisk.off)?;
    Ok(sorted)
}

/// The runs of all these disks between the subdisks, which rise by their first sectors.
pub(crate) fn all_gaps(
    alloc: Global,
    disks: &[Disk],
    subdisks: &[Subdisk],
) -> Result<Vec<Extent>, OutOfMemory>
    requires { list_all ends_in subdisks.now ≡ true }
    ensures { IfOk result (λ found. found.items ≡ all_gaps subdisks.now disks.now) }
{
    let mut found = Vec::new(alloc);
    for disk in disks {
        put_gaps(&mut found, disk, subdisks)?;
    }
    Ok(found)
}

fn put_gaps(found: &mut Vec<Extent>, disk: &Disk, subdisks: &[Subdisk]) -> Result<(), OutOfMemory>
    requires { list_all ends_in subdisks.now ≡ true }
    ensures { OnOk result (found.new.items ≡ found.old.items ++ gaps disk.now 0 subdisks.now) }
{
    let mut at = 0;
    for subdisk in subdisks {
        if same(&subdisk.disk, &disk.name) {
            put_between(found, &disk.name, at, subdisk.off)?;
            at = at.max(subdisk.off + subdisk.len);
        }
    }
    put_between(found, &disk.name, at, disk.publen)
}
