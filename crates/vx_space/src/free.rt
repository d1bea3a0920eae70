use crate::disks::good_disks;
use crate::extent::Extent;
use crate::fault::SpaceFault;
use crate::gaps::{all_gaps, by_start};
use crate::taking::{left_of, taken_of, total_of};
use std::alloc::Global;
use std::marker::Model;
use vx_base::OutOfMemory;
use vx_names::Name;
use vx_objects::Config;

/// The free space of a disk group, as extents by disk and start.
#[derive(Drop)]
pub struct Free {
    extents: Vec<Extent>,
}

impl Model for Free {
    ghost use Rattle.std.specs.Prelude.{List};
    ghost use Rattle.vx_space.specs.declared.extent.Extent.{Extent};
    ghost use Rattle.vx_space.specs.Small.{AreSmall};

    ghost Value = { List Extent };

    ghost view = { λ f. f.extents.items };

    ghost invariant = { λ f. AreSmall f.extents.items };
}

impl Free {
    ghost use Rattle.std.specs.Prelude.{◌≡◌, ◌<◌, ◌≤◌, IfOk, IfErr, OnOk, OnErr, Err};
    ghost use Rattle.vx_space.specs.Extents.{total, taken, left};
    ghost use Rattle.vx_space.specs.Free.{AreFree};

    /// The free space of the disks whose slots are in the mask.
    pub fn of(alloc: Global, config: &Config, good: u32) -> Result<Free, OutOfMemory>
        ensures { IfOk result (λ free. AreFree config.now good free) }
    {
        let disks = good_disks(alloc, config, good)?;
        let subdisks = by_start(alloc, config.subdisks.as_slice())?;
        let extents = all_gaps(alloc, &disks, &subdisks)?;
        Ok(Free { extents })
    }

    /// The free sectors of a disk.
    pub fn total(&self, disk: &Name) -> u64
        ensures { result ≡ total disk.now self.now }
    {
        total_of(&self.extents, disk)
    }

    /// Takes free sectors of a disk, the first ones that it has.
    pub fn take(
        &mut self,
        alloc: Global,
        disk: &Name,
        count: u64,
    ) -> Result<Vec<Extent>, SpaceFault>
        ensures taken { IfOk result (λ extents. extents.items ≡ taken disk.now count self.old) }
        ensures left { OnOk result (self.new ≡ left disk.now count self.old) }
        ensures same { OnErr result (self.new ≡ self.old) }
        ensures short { total disk.now self.old < count → result ≡ Err (SpaceFault.Short (total disk.now self.old)) }
        ensures enough { count ≤ total disk.now self.old → IfErr result (λ fault. fault ≡ SpaceFault.OutOfMemory) }
    {
        let have = self.total(disk);
        if have < count {
            return Err(SpaceFault::Short(have));
        }
        let Ok(taken) = taken_of(alloc, &self.extents, disk, count) else {
            return Err(SpaceFault::OutOfMemory);
        };
        let Ok(left) = left_of(alloc, &self.extents, disk, count) else {
            return Err(SpaceFault::OutOfMemory);
        };
        self.extents = left;
        Ok(taken)
    }
}
