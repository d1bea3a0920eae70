ghost use Rattle.std.specs.Prelude.{◌≡◌, min, not, IfOk};
ghost use Rattle.std.specs.List.{filter};
ghost use Rattle.vx_space.specs.Extents.{total};
ghost use Rattle.vx_new_volumes.specs.Disks.{names_of, is_among, candidates, without, others, total_on, largest_on, first_with};

use std::alloc::Global;
use vx_base::OutOfMemory;
use vx_config_parts::same;
use vx_names::Name;
use vx_objects::Disk;
use vx_space::Free;

pub(crate) fn names_of(alloc: Global, disks: &[Disk]) -> Result<Vec<Name>, OutOfMemory>
    ensures { IfOk result (λ names. names.items ≡ names_of disks.now) }
{
    let mut names = Vec::new(alloc);
    for disk in disks {
        names.push(disk.name)?;
    }
    Ok(names)
}

fn is_among(names: &[Name], name: &Name) -> bool
    ensures { result ≡ is_among names.now name.now }
{
    names.iter().any(|other| same(other, name))
}

/// Those of the disks that are among these names; all where no name is given.
pub(crate) fn candidates(
    alloc: Global,
    names: &[Name],
    disks: &[Name],
) -> Result<Vec<Name>, OutOfMemory>
    ensures { IfOk result (λ found. found.items ≡ candidates names.now disks.now) }
{
    if names.is_empty() {
        let mut all = Vec::new(alloc);
        all.extend_from_slice(disks)?;
        return Ok(all);
    }
    those_among(alloc, names, disks)
}

fn those_among(alloc: Global, names: &[Name], disks: &[Name]) -> Result<Vec<Name>, OutOfMemory>
    ensures { IfOk result (λ found. found.items ≡ filter (is_among names.now) disks.now) }
{
    let mut found = Vec::new(alloc);
    for disk in disks {
        if is_among(names, disk) {
            found.push(*disk)?;
        }
    }
    Ok(found)
}

/// The disks but those.
pub(crate) fn without(
    alloc: Global,
    avoid: &[Name],
    disks: &[Name],
) -> Result<Vec<Name>, OutOfMemory>
    ensures { IfOk result (λ found. found.items ≡ without avoid.now disks.now) }
{
    let mut found = Vec::new(alloc);
    for disk in disks {
        if !is_among(avoid, disk) {
            found.push(*disk)?;
        }
    }
    Ok(found)
}

/// The disks but that one.
pub(crate) fn others(alloc: Global, name: &Name, disks: &[Name]) -> Result<Vec<Name>, OutOfMemory>
    ensures { IfOk result (λ found. found.items ≡ others name.now disks.now) }
{
    let mut found = Vec::new(alloc);
    for disk in disks {
        if !same(disk, name) {
            found.push(*disk)?;
        }
    }
    Ok(found)
}

/// The free sectors of these disks together, or as many as are needed where they have more.
pub(crate) fn total_up_to(need: u64, disks: &[Name], free: &Free) -> u64
    ensures { result ≡ min need (total_on disks.now free.now) }
{
    let mut lacking = need;
    for disk in disks {
        lacking -= share(lacking, disk, free);
    }
    need - lacking
}

/// What a disk can give of the sectors that are lacking. It is not looked at where none are.
pub(crate) fn share(lacking: u64, disk: &Name, free: &Free) -> u64
    ensures { result ≡ min lacking (total disk.now free.now) }
{
    if lacking == 0 {
        return 0;
    }
    lacking.min(free.total(disk))
}

/// The free sectors of the one of these disks that has the most.
pub(crate) fn largest_on(disks: &[Name], free: &Free) -> u64
    ensures { result ≡ largest_on disks.now free.now }
{
    let mut largest = 0;
    for disk in disks {
        largest = free.total(disk).max(largest);
    }
    largest
}

/// The first of these disks that has so many free sectors.
pub(crate) fn first_with(need: u64, disks: &[Name], free: &Free) -> Option<Name>
    ensures { result ≡ first_with need disks.now free.now }
{
    for disk in disks {
        if need <= free.total(disk) {
            return Some(*disk);
        }
    }
    None
}
