ghost use Rattle.std.specs.Prelude.{◌≡◌, ◌⊎◌, [], Ok, Err, IfOk, IfErr};
ghost use Rattle.vx_new_volumes.specs.Steps.{place, repeated};

use crate::disks::{first_with, largest_on, others};
use crate::fault::PlanFault;
use std::alloc::Global;
use vx_names::Name;
use vx_objects::Listed;
use vx_space::{Extent, Free};

/// So many sectors of the first of the disks that has them; it leaves the disks.
pub(crate) fn place(
    alloc: Global,
    need: u64,
    disks: &mut Vec<Name>,
    free: &mut Free,
) -> Result<Listed<Extent>, PlanFault>
    ensures found { IfOk result (λ part. place need disks.old.items free.old ≡ Ok (record { part = part; disks = disks.new.items; free = free.new })) }
    ensures refused { IfErr result (λ fault. (fault ≡ PlanFault.OutOfMemory) ⊎ (place need disks.old.items free.old ≡ Err fault)) }
{
    let Some(disk) = first_with(need, disks, free) else {
        return Err(PlanFault::NoSpace {
            have: largest_on(disks, free),
            need,
        });
    };
    let Ok(left) = others(alloc, &disk, disks) else {
        return Err(PlanFault::OutOfMemory);
    };
    let Ok(part) = free.take(alloc, &disk, need) else {
        return Err(PlanFault::OutOfMemory);
    };
    *disks = left;
    Ok(Listed::from_vec(part))
}

/// So many of these, each from another of the disks.
pub(crate) fn places(
    alloc: Global,
    need: u64,
    count: u32,
    disks: &mut Vec<Name>,
    free: &mut Free,
) -> Result<Listed<Listed<Extent>>, PlanFault>
    ensures found { IfOk result (λ parts. repeated (place need) count [] disks.old.items free.old ≡ Ok (record { part = parts; disks = disks.new.items; free = free.new })) }
    ensures refused { IfErr result (λ fault. (fault ≡ PlanFault.OutOfMemory) ⊎ (repeated (place need) count [] disks.old.items free.old ≡ Err fault)) }
{
    let mut done = Vec::new(alloc);
    for _ in 0..count {
        let part = place(alloc, need, disks, free)?;
        let Ok(()) = done.push(part) else {
            return Err(PlanFault::OutOfMemory);
        };
    }
    Ok(Listed::from_vec(done))
}
