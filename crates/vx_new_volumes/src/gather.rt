ghost use Rattle.std.specs.Prelude.{◌≡◌, ◌⊎◌, ◌++◌, ◌≤◌, Ok, Err, IfOk, IfErr, OnOk};
ghost use Rattle.vx_space.specs.Extents.{total, taken, left};
ghost use Rattle.vx_new_volumes.specs.Steps.{gather, spread};

use crate::disks::{share, total_up_to};
use crate::fault::PlanFault;
use std::alloc::Global;
use vx_base::OutOfMemory;
use vx_names::Name;
use vx_objects::Listed;
use vx_space::{Extent, Free};

/// What was taken of some disks.
#[derive(Drop)]
struct Gathered {
    extents: Vec<Extent>,
    /// The disks that were not touched.
    kept: Vec<Name>,
}

/// So many sectors of the disks in turn, where together they have them; those that are touched leave the disks.
#[tactic(auto, using(crate::proofs::Spreads::too_few, crate::proofs::Spreads::enough))]
pub(crate) fn spread(
    alloc: Global,
    need: u64,
    disks: &mut Vec<Name>,
    free: &mut Free,
) -> Result<Listed<Extent>, PlanFault>
    ensures found { IfOk result (λ part. spread need disks.old.items free.old ≡ Ok (record { part = part; disks = disks.new.items; free = free.new })) }
    ensures refused { IfErr result (λ fault. (fault ≡ PlanFault.OutOfMemory) ⊎ (spread need disks.old.items free.old ≡ Err fault)) }
{
    let have = total_up_to(need, disks, free);
    if have < need {
        return Err(PlanFault::NoSpace { have, need });
    }
    let Ok(gathered) = gather(alloc, need, disks, free) else {
        return Err(PlanFault::OutOfMemory);
    };
    *disks = gathered.kept;
    Ok(Listed::from_vec(gathered.extents))
}

/// Sectors of the disks in turn, until there are so many.
fn gather(
    alloc: Global,
    need: u64,
    disks: &[Name],
    free: &mut Free,
) -> Result<Gathered, OutOfMemory>
    ensures { IfOk result (λ g. gather need disks.now free.old ≡ record { part = g.extents.items; disks = g.kept.items; free = free.new }) }
{
    let mut extents = Vec::new(alloc);
    let mut kept = Vec::new(alloc);
    let mut lacking = need;
    for disk in disks {
        let part = share(lacking, disk, free);
        if part == 0 {
            kept.push(*disk)?;
        } else {
            put_taken(alloc, &mut extents, free, disk, part)?;
            lacking -= part;
        }
    }
    Ok(Gathered { extents, kept })
}

/// Takes sectors of a disk, and appends them.
fn put_taken(
    alloc: Global,
    extents: &mut Vec<Extent>,
    free: &mut Free,
    disk: &Name,
    count: u64,
) -> Result<(), OutOfMemory>
    requires { count ≤ total disk.now free.old }
    ensures extents { OnOk result (extents.new.items ≡ extents.old.items ++ taken disk.now count free.old) }
    ensures left { OnOk result (free.new ≡ left disk.now count free.old) }
{
    let Ok(taken) = free.take(alloc, disk, count) else {
        return Err(OutOfMemory);
    };
    extents.extend_from_slice(&taken)?;
    Ok(())
}
