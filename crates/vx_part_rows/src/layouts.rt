//! Where the blocks of plexes lie.
ghost use Rattle.std.specs.Prelude.{◌≡◌, true, [], ◌∷◌, IfOk};
ghost use Rattle.vx_layout.specs.Columns.{one_strip, capacity};
ghost use Rattle.vx_layout.specs.Valid.{is_layout};

use std::alloc::Global;
use std::io;
use vx_base::OutOfMemory;
use vx_block::Span;
use vx_layout::{Column, Columns, Layout, Place, Run, Strip};

pub fn show<R: AllocGlobal + Print>(rt: &R) -> io::Result<()> {
    if striped(rt)?.is_err() || strips(rt)?.is_err() {
        return println!(rt; "no memory");
    }
    Ok(())
}

/// A column of 256 sectors at the front of a disk.
fn column(alloc: Global, disk: u8) -> Result<Column, OutOfMemory>
    ensures { IfOk result (λ column. column ≡ one_strip disk 0 256) }
{
    let mut strips = Vec::new(alloc);
    strips.push(Strip {
        disk,
        start: 0,
        count: 256,
    })?;
    Column::from_vec(alloc, strips)
}

/// One column on each of the disks 0, 1 and 2.
fn columns(alloc: Global) -> Result<Columns, OutOfMemory>
    ensures { IfOk result (λ columns. columns ≡ one_strip 0 0 256 ∷ one_strip 1 0 256 ∷ one_strip 2 0 256 ∷ []) }
{
    let mut columns = Vec::new(alloc);
    columns.push(column(alloc, 0)?)?;
    columns.push(column(alloc, 1)?)?;
    columns.push(column(alloc, 2)?)?;
    Ok(Columns::from_vec(columns))
}

/// Units of 128 blocks go round three columns.
fn striped<R: AllocGlobal + Print>(rt: &R) -> io::Result<Result<(), OutOfMemory>> {
    let columns = match columns(rt.alloc()) {
        Ok(columns) => columns,
        Err(e) => return Ok(Err(e)),
    };
    let layout = Layout { unit: 128, columns };
    println!(rt; "three columns: block 384 {:?}", layout.place(384))?;
    println!(rt; "block 511 {:?}", layout.place(511))?;
    println!(rt; "block 128 {:?}", layout.place(128))?;
    println!(rt;
        "disk 1, sector 0: block {:?}",
        layout.block_at(Place { disk: 1, sector: 0 })
    )?;
    println!(rt;
        "disk 3, sector 0: block {:?}",
        layout.block_at(Place { disk: 3, sector: 0 })
    )?;
    let span = Span {
        start: 100,
        count: 30,
    };
    match layout.runs_of(rt.alloc(), span) {
        Ok(runs) => put_runs(rt, runs.as_slice())?,
        Err(e) => return Ok(Err(e)),
    }
    Ok(Ok(()))
}

/// A column of strips of 5, 1 and 6 sectors.
fn strips<R: AllocGlobal + Print>(rt: &R) -> io::Result<Result<(), OutOfMemory>> {
    let columns = match broken(rt.alloc()) {
        Ok(columns) => columns,
        Err(e) => return Ok(Err(e)),
    };
    let layout = Layout { unit: 128, columns };
    println!(rt; "a column of three strips:")?;
    let span = Span { start: 4, count: 4 };
    match layout.runs_of(rt.alloc(), span) {
        Ok(runs) => put_runs(rt, runs.as_slice())?,
        Err(e) => return Ok(Err(e)),
    }
    Ok(Ok(()))
}

fn broken(alloc: Global) -> Result<Columns, OutOfMemory>
    ensures valid { IfOk result (λ columns. is_layout 128 columns ≡ true) }
    ensures long { IfOk result (λ columns. capacity columns ≡ 12) }
{
    let mut strips = Vec::new(alloc);
    strips.push(Strip {
        disk: 4,
        start: 10,
        count: 5,
    })?;
    strips.push(Strip {
        disk: 2,
        start: 7,
        count: 1,
    })?;
    strips.push(Strip {
        disk: 4,
        start: 30,
        count: 6,
    })?;
    let mut columns = Vec::new(alloc);
    columns.push(Column::from_vec(alloc, strips)?)?;
    Ok(Columns::from_vec(columns))
}

fn put_runs<R: Print>(rt: &R, runs: &[Run]) -> io::Result<()> {
    for run in runs {
        println!(rt; "{run:?}")?;
    }
    Ok(())
}
