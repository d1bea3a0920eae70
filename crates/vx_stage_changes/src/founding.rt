//! The making of a group of disks.
ghost use Rattle.std.specs.Prelude.{◌≡◌, ◌≤◌, length, IfOk};
ghost use Rattle.std.specs.List.{list_all};
ghost use Rattle.vx_copies.specs.Lists.{AllOf};
ghost use Rattle.vx_stage_changes.specs.Creating.{record_of, group_records, is_fit, are_fit, IsUnwritten, IsDrawn, FoundEnds};

use crate::joining::{MOST_SECTORS, is_short_name};
use crate::planning::{NextConfig, text_of};
use crate::stop_of;
use std::alloc::Global;
use vx_base::OutOfMemory;
use vx_confdb::{Refused, create};
use vx_config_parts::Disk as Record;
use vx_copies::Disk;
use vx_header::PRIVATE_SECTORS;
use vx_house::{Imported, Stop};
use vx_names::Name;
use vx_objects::{Config, Group, Object};
use vx_piece::Piece;

/// Why a group was not made, with its disks.
#[derive(Drop)]
pub struct Unfounded<P> {
    pub stop: Stop,
    pub disks: Vec<Disk<P>>,
}

/// The record of a disk, which has its public region behind the private one.
fn record_of<P>(disk: &Disk<P>) -> Record
    ensures { result ≡ record_of disk.now }
{
    Record {
        name: disk.name,
        device: disk.device,
        slot: disk.slot,
        publen: disk.sectors.saturating_sub(PRIVATE_SECTORS),
    }
}

/// The records of a group and of its disks.
fn group_records<P>(alloc: Global, dg: &Name, disks: &[Disk<P>]) -> Result<Vec<Object>, OutOfMemory>
    ensures { IfOk result (λ records. records.items ≡ group_records dg.now disks.now) }
{
    let mut records = Vec::with_capacity(alloc, 1)?;
    records.push(Object::GroupRecord(Group {
        name: *dg,
        version: 1,
    }))?;
    for disk in disks {
        records.push(Object::DiskRecord(record_of(disk)))?;
    }
    Ok(records)
}

/// The configuration of a group of these disks, and its text, which so few disks never make too long.
fn drawn<P>(alloc: Global, dg: &Name, disks: &[Disk<P>]) -> Result<NextConfig, OutOfMemory>
    ensures { IfOk result (λ next. IsDrawn dg.now disks.now next.config next.text.items) }
{
    let records = group_records(alloc, dg, disks)?;
    let Ok(config) = Config::from_objects(alloc, &records) else {
        return Err(OutOfMemory);
    };
    let Ok(text) = text_of(alloc, &config, 0) else {
        return Err(OutOfMemory);
    };
    Ok(NextConfig { config, text })
}

/// The disk has a size and a name that one may have.
fn is_fit<P>(disk: &Disk<P>) -> bool
    ensures { result ≡ is_fit disk.now }
{
    PRIVATE_SECTORS < disk.sectors && disk.sectors <= MOST_SECTORS && is_short_name(&disk.name)
}

/// Each of the disks is fit.
fn all_fit<P>(disks: &[Disk<P>]) -> bool
    ensures { result ≡ list_all is_fit disks.now }
{
    disks.iter().all(|disk| is_fit(disk))
}

/// The group has a name that one may have, and each of its disks is fit.
fn are_fit<P>(dg: &Name, disks: &[Disk<P>]) -> bool
    ensures { result ≡ are_fit dg.now disks.now }
{
    is_short_name(dg) && all_fit(disks)
}

/// Makes a group of the disks by a commit. The disks are given back where it was not made.
pub(crate) fn found<P: Piece + Drop>(
    alloc: Global,
    dg: &Name,
    disks: Vec<Disk<P>>,
) -> Result<Imported<P>, Unfounded<P>>
    requires few { length disks.items ≤ 32 }
    requires unwritten { AllOf (IsUnwritten P.seen) disks.items }
    ensures ends { FoundEnds P.seen dg.now result disks.items }
{
    if !are_fit(dg, &disks) {
        let stop = Stop::OutOfMemory;
        return Err(Unfounded { stop, disks });
    }
    let Ok(NextConfig { config, text }) = drawn(alloc, dg, &disks) else {
        let stop = Stop::OutOfMemory;
        return Err(Unfounded { stop, disks });
    };
    match create(alloc, *dg, disks, &text) {
        Ok(base) => Ok(Imported::of(alloc, config, base)),
        Err(Refused { fault, disks }) => {
            let stop = stop_of(alloc, &fault);
            Err(Unfounded { stop, disks })
        }
    }
}
