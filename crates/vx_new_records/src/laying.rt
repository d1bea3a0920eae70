ghost use Rattle.std.specs.Prelude.{◌≡◌, [], IfOk, OnOk};
ghost use Rattle.vx_new_volumes.specs.Laying.{subdisk, next_on, with_next, put_extent, put_column, put_columns, put_plexes, put_logs};
ghost use Rattle.vx_new_records.specs.Laid.{laid, IsLaid};

use crate::known::Known;
use crate::naming::next_name;
use crate::parts::join;
use std::alloc::Global;
use vx_base::OutOfMemory;
use vx_config_parts::{Object, Subdisk, same};
use vx_names::Name;
use vx_new_volumes::Next;
use vx_objects::Listed;
use vx_space::Extent;

/// What was made of extents so far, and the numbers that come next.
#[derive(Drop)]
pub(crate) struct Laid {
    pub(crate) objects: Vec<Object>,
    pub(crate) nexts: Vec<Next>,
}

impl Laid {
    pub(crate) fn none(alloc: Global) -> Laid
        ensures { laid result ≡ record { objects = []; nexts = [] } }
    {
        Laid {
            objects: Vec::new(alloc),
            nexts: Vec::new(alloc),
        }
    }
}

/// Where an extent lies: behind so many sectors of a column of a plex.
#[derive(Clone, Copy)]
struct Place {
    plex: Name,
    col: u32,
    at: u64,
}

fn subdisk(name: Name, place: &Place, extent: &Extent) -> Object
    ensures { result ≡ subdisk name place.now.plex place.now.col place.now.at extent.now }
{
    Object::SubdiskRecord(Subdisk {
        name,
        disk: extent.disk,
        off: extent.start,
        len: extent.count,
        plex: Some(place.plex),
        col: place.col,
        at: place.at,
    })
}

/// The number from which on the next subdisk of a disk is named.
fn next_on(nexts: &[Next], disk: &Name) -> u64
    ensures { result ≡ next_on nexts.now disk.now }
{
    for next in nexts {
        if same(&next.disk, disk) {
            return next.number;
        }
    }
    1
}

/// Sets the number from which on the next subdisk of a disk is named.
fn set_next(nexts: &mut Vec<Next>, disk: Name, number: u64) -> Result<(), OutOfMemory>
    ensures { OnOk result (nexts.new.items ≡ with_next disk number nexts.old.items) }
{
    for index in 0..nexts.len() {
        if same(&nexts[index].disk, &disk) {
            nexts[index] = Next { disk, number };
            return Ok(());
        }
    }
    nexts.push(Next { disk, number })?;
    Ok(())
}

/// Puts an extent as a subdisk behind what was made so far; None where its name would be too long.
fn put_extent(
    alloc: Global,
    known: &Known,
    place: &Place,
    extent: &Extent,
    before: Laid,
) -> Result<Option<Laid>, OutOfMemory>
    ensures { IfOk result (IsLaid (put_extent known.now.names.items place.now.plex place.now.col place.now.at extent.now (laid before))) }
{
    let Laid {
        mut objects,
        mut nexts,
    } = before;
    let from = next_on(&nexts, &extent.disk);
    let Some(next) = next_name(alloc, known, extent.disk.as_bytes(), from)? else {
        return Ok(None);
    };
    join(&[subdisk(next.name, place, extent)], &mut objects)?;
    set_next(&mut nexts, extent.disk, next.number + 1)?;
    Ok(Some(Laid { objects, nexts }))
}

/// Puts the extents of a column, one behind the other.
fn put_column(
    alloc: Global,
    known: &Known,
    plex: &Name,
    col: u32,
    extents: &[Extent],
    before: Laid,
) -> Result<Option<Laid>, OutOfMemory>
    ensures { IfOk result (IsLaid (put_column known.now.names.items plex.now col 0 extents.now (laid before))) }
{
    let mut made = before;
    let mut at: u64 = 0;
    for extent in extents {
        let place = Place {
            plex: *plex,
            col,
            at,
        };
        let Some(more) = put_extent(alloc, known, &place, extent, made)? else {
            return Ok(None);
        };
        made = more;
        at = at.saturating_add(extent.count);
    }
    Ok(Some(made))
}

/// Puts the columns of a plex.
fn put_columns(
    alloc: Global,
    known: &Known,
    plex: &Name,
    columns: &[Listed<Extent>],
    before: Laid,
) -> Result<Option<Laid>, OutOfMemory>
    ensures { IfOk result (IsLaid (put_columns known.now.names.items plex.now 0 columns.now (laid before))) }
{
    let mut made = before;
    let mut col: u32 = 0;
    for column in columns {
        let Some(more) = put_column(alloc, known, plex, col, column.as_slice(), made)? else {
            return Ok(None);
        };
        made = more;
        col = col.saturating_add(1);
    }
    Ok(Some(made))
}

/// Puts the columns of plexes of these names.
pub(crate) fn put_plexes(
    alloc: Global,
    known: &Known,
    names: &[Name],
    plexes: &[Listed<Listed<Extent>>],
    before: Laid,
) -> Result<Option<Laid>, OutOfMemory>
    ensures { IfOk result (IsLaid (put_plexes known.now.names.items names.now plexes.now (laid before))) }
{
    let mut made = before;
    for (name, plex) in names.iter().zip(plexes) {
        let Some(more) = put_columns(alloc, known, name, plex.as_slice(), made)? else {
            return Ok(None);
        };
        made = more;
    }
    Ok(Some(made))
}

/// Puts logs of these names, each of one column.
pub(crate) fn put_logs(
    alloc: Global,
    known: &Known,
    names: &[Name],
    logs: &[Listed<Extent>],
    before: Laid,
) -> Result<Option<Laid>, OutOfMemory>
    ensures { IfOk result (IsLaid (put_logs known.now.names.items names.now logs.now (laid before))) }
{
    let mut made = before;
    for (name, log) in names.iter().zip(logs) {
        let Some(more) = put_column(alloc, known, name, 0, log.as_slice(), made)? else {
            return Ok(None);
        };
        made = more;
    }
    Ok(Some(made))
}
