ghost use Rattle.std.specs.Prelude.{◌≡◌, ◌==◌, ◌&&◌, ◌-◌};
ghost use Rattle.std.specs.List.{list_any};
ghost use Rattle.vx_header.specs.Named.{label_of};
ghost use Rattle.vx_mask.specs.Mask.{has};
ghost use Rattle.vx_stage_import.specs.Judging.{labels_of, stray_in, is_disk_of, is_started, started_in};

use std::collections::BTreeMap;
use vx_config_parts::same;
use vx_header::Header;
use vx_import::GroupDevice;
use vx_mask::contains;
use vx_names::Name;
use vx_objects::{Disk, Vol};
use vx_piece::Piece;
use vx_started::Started;

/// The disk of the first device whose slot is good and which the configuration does not record.
pub(crate) fn first_stray<P: Piece>(
    found: &[GroupDevice<P>],
    good: u32,
    disks: &[Disk],
) -> Option<Name>
    ensures { result ≡ stray_in disks.now good (labels_of found.now) }
{
    match found {
        [] => None,
        [first, rest @ ..] => {
            if contains(good as u64, first.header.slot as u32)
                && !is_recorded(disks, &first.header)
            {
                Some(first.header.disk)
            } else {
                first_stray(rest, good, disks)
            }
        }
    }
}

fn is_recorded(disks: &[Disk], header: &Header) -> bool
    ensures { result ≡ list_any (is_disk_of (label_of header.now)) disks.now }
{
    match disks {
        [] => false,
        [first, rest @ ..] => is_same_disk(first, header) || is_recorded(rest, header),
    }
}

fn is_same_disk(disk: &Disk, header: &Header) -> bool
    ensures { result ≡ is_disk_of (label_of header.now) disk.now }
{
    let sectors = header.sectors;
    disk.slot == header.slot && same(&disk.name, &header.disk) && disk.publen == sectors - 2048
}

/// The first of the volumes that has the name of a started one.
pub(crate) fn first_started<P>(vols: &[Vol], volumes: &BTreeMap<Name, Started<P>>) -> Option<Name>
    ensures { result ≡ started_in (is_started volumes.now) vols.now }
{
    match vols {
        [] => None,
        [first, rest @ ..] => {
            if is_in(volumes, &first.name) {
                Some(first.name)
            } else {
                first_started(rest, volumes)
            }
        }
    }
}

fn is_in<P>(volumes: &BTreeMap<Name, Started<P>>, vol: &Name) -> bool
    ensures { result ≡ is_started volumes.now vol.now }
{
    volumes.contains_key(vol)
}
