//! Volumes on four disks, whose public regions have one size.

ghost use Rattle.std.specs.Prelude.{◌≡◌, ◌+◌, ◌<◌, ◌≤◌, ◌^◌, ◌∷◌, [], length, true, IsTrue, IfOk, IfSome};
ghost use Rattle.vx_layout.specs.Columns.{column_length, one_strip};
ghost use Rattle.vx_layout.specs.Valid.{is_layout};
ghost use Rattle.vx_carve_rows.specs.Setting.{AreSetOut, IsPlexIn, four_strips, is_apart_from};

use std::alloc::Global;
use vx_base::OutOfMemory;
use vx_block::Geometry;
use vx_layout::{Column, Columns, Layout, Strip};

/// The plexes of a volume, how it is cut into regions, and the sectors of a public region.
#[derive(Drop)]
pub struct Setting {
    pub layouts: Vec<Layout>,
    pub geometry: Geometry,
    pub sectors: u64,
    ghost set_out: { AreSetOut sectors geometry.length layouts.items },
    ghost some: { 0 < sectors },
    ghost fits: { sectors < 2 ^ 40 },
}

/// So many sectors of a disk's public region, from this one on.
pub fn strip(disk: u8, start: u64, count: u64) -> Strip
    ensures { result ≡ record { disk = disk; start = start; count = count } }
{
    Strip { disk, start, count }
}

fn column(alloc: Global, strips: &[Strip]) -> Result<Column, OutOfMemory>
    requires { column_length strips.now < 2 ^ 64 }
    ensures { IfOk result (λ column. column ≡ strips.now) }
{
    Column::from_vec(alloc, Vec::from_slice(alloc, strips)?)
}

/// A plex of one column.
fn concat(alloc: Global, strips: &[Strip]) -> Result<Layout, OutOfMemory>
    requires { is_layout 128 (strips.now ∷ []) ≡ true }
    ensures { IfOk result (λ l. l.columns ≡ strips.now ∷ []) }
{
    let mut columns = Vec::new(alloc);
    columns.push(column(alloc, strips)?)?;
    Ok(Layout {
        unit: 128,
        columns: Columns::from_vec(columns),
    })
}

/// A plex of four columns of one strip each.
fn striped(alloc: Global, unit: u64, start: u64, count: u64) -> Result<Layout, OutOfMemory>
    requires layout { is_layout unit (four_strips start count) ≡ true }
    requires fits { count < 2 ^ 64 }
    ensures { IfOk result (λ l. l.columns ≡ four_strips start count) }
{
    let mut columns = Vec::new(alloc);
    columns.push(column(alloc, &[strip(0, start, count)])?)?;
    columns.push(column(alloc, &[strip(1, start, count)])?)?;
    columns.push(column(alloc, &[strip(2, start, count)])?)?;
    columns.push(column(alloc, &[strip(3, start, count)])?)?;
    Ok(Layout {
        unit,
        columns: Columns::from_vec(columns),
    })
}

/// A volume of one plex of one column.
pub fn one_plex(
    alloc: Global,
    strips: &[Strip],
    sectors: u64,
    geometry: Geometry,
) -> Option<Setting>
    requires plex { IsPlexIn sectors geometry.length 128 (strips.now ∷ []) }
    requires some { 0 < sectors }
    requires fits { sectors < 2 ^ 40 }
{
    let layouts = vec![in alloc; concat(alloc, strips).ok()?].ok()?;
    Some(Setting {
        layouts,
        geometry,
        sectors,
    })
}

/// A mirror of two plexes of one column.
pub fn mirror(
    alloc: Global,
    first: &[Strip],
    second: &[Strip],
    sectors: u64,
    geometry: Geometry,
) -> Option<Setting>
    requires first { IsPlexIn sectors geometry.length 128 (first.now ∷ []) }
    requires second { IsPlexIn sectors geometry.length 128 (second.now ∷ []) }
    requires apart { is_apart_from (first.now ∷ []) (second.now ∷ []) ≡ true }
    requires apart_too { is_apart_from (second.now ∷ []) (first.now ∷ []) ≡ true }
    requires some { 0 < sectors }
    requires fits { sectors < 2 ^ 40 }
{
    let first = concat(alloc, first).ok()?;
    let second = concat(alloc, second).ok()?;
    let layouts = vec![in alloc; first, second].ok()?;
    Some(Setting {
        layouts,
        geometry,
        sectors,
    })
}

/// A volume of one plex of four columns.
pub fn stripes(
    alloc: Global,
    unit: u64,
    start: u64,
    count: u64,
    sectors: u64,
    geometry: Geometry,
) -> Option<Setting>
    requires plex { IsPlexIn sectors geometry.length unit (four_strips start count) }
    requires count { count < 2 ^ 64 }
    requires some { 0 < sectors }
    requires fits { sectors < 2 ^ 40 }
{
    let layouts = vec![in alloc; striped(alloc, unit, start, count).ok()?].ok()?;
    Some(Setting {
        layouts,
        geometry,
        sectors,
    })
}
