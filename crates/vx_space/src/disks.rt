ghost use Rattle.std.specs.Prelude.{◌≡◌, IfOk};
ghost use Rattle.std.specs.List.{filter};
ghost use Rattle.vx_space.specs.Disks.{is_good, AreGoodDisks};

use std::alloc::Global;
use vx_base::OutOfMemory;
use vx_config_parts::Disk;
use vx_objects::Config;

/// The disks of the configuration whose slots are in the mask, by name.
pub fn good_disks(alloc: Global, config: &Config, good: u32) -> Result<Vec<Disk>, OutOfMemory>
    ensures { IfOk result (λ disks. AreGoodDisks config.now good disks.items) }
{
    let mut found = those_good(alloc, config.disks.as_slice(), good)?;
    found.sort_by_key(|disk| disk.name)?;
    Ok(found)
}

fn those_good(alloc: Global, disks: &[Disk], good: u32) -> Result<Vec<Disk>, OutOfMemory>
    ensures { IfOk result (λ found. found.items ≡ filter (is_good good) disks.now) }
{
    let mut found = Vec::new(alloc);
    for disk in disks {
        if is_good(good, disk) {
            found.push(*disk)?;
        }
    }
    Ok(found)
}

fn is_good(good: u32, disk: &Disk) -> bool
    ensures { result ≡ is_good good disk.now }
{
    vx_mask::contains(good as u64, disk.slot as u32)
}
