//! Rows of volumes whose regions are taken out of pieces in memory and put back.

ghost use Rattle.std.specs.Prelude.{◌≡◌, ◌++◌, map, IfOk};
ghost use Rattle.std.specs.List.{flat_map};
ghost use Rattle.vx_piece.specs.MemPiece.{mem_seen};
ghost use Rattle.vx_carve_rows.specs.Setting.{ArePublic};

use crate::setting::{Setting, mirror, one_plex, strip, stripes};
use crate::taking::{open, take_all, whole};
use std::alloc::Global;
use std::io;
use vx_block::Geometry;
use vx_carve::{PUBLIC, Pool, uncarve_plex};
use vx_piece::{MemPiece, Piece};

/// The sectors of the public region of each of the four disks.
const SECTORS: u64 = 64;

/// Three extents on two disks. Region 0 ends inside the first, and region 1 has the rest of it.
fn three_extents(alloc: Global) -> Option<Setting> {
    let strips = [strip(0, 5, 40), strip(1, 0, 10), strip(0, 50, 14)];
    one_plex(alloc, &strips, SECTORS, Geometry::new(64, 32)?)
}

/// A plex on disk 0, and one in two extents on disk 1. The last region is the shorter one.
fn two_plexes(alloc: Global) -> Option<Setting> {
    let second = [strip(1, 3, 40), strip(1, 44, 20)];
    mirror(
        alloc,
        &[strip(0, 0, 60)],
        &second,
        SECTORS,
        Geometry::new(60, 32)?,
    )
}

/// Four columns, whose units of eight sectors go round the four disks.
fn four_columns(alloc: Global) -> Option<Setting> {
    stripes(alloc, 8, 8, 40, SECTORS, Geometry::new(160, 32)?)
}

pub fn show(rt: &HostRuntime) -> io::Result<()> {
    row(rt, "a concat of three extents", three_extents(rt.alloc()))?;
    row(rt, "two plexes on two disks", two_plexes(rt.alloc()))?;
    row(rt, "four striped columns", four_columns(rt.alloc()))
}

/// A disk: each byte of a public sector is 64 times the number of the disk, and the sector.
fn device(alloc: Global, number: u8) -> Option<MemPiece> {
    let mut bytes = vec![in alloc; 0_u8; 1_048_576].ok()?;
    for sector in 0..SECTORS as u8 {
        for _ in 0..512_u32 {
            bytes.push(number % 4 * 64 + sector).ok()?;
        }
    }
    MemPiece::new(number as u32, bytes, Vec::new(alloc))
}

fn devices(alloc: Global) -> Option<Vec<MemPiece>> {
    vec![in alloc;
        device(alloc, 0)?,
        device(alloc, 1)?,
        device(alloc, 2)?,
        device(alloc, 3)?,
    ]
    .ok()
}

fn row(rt: &HostRuntime, title: &str, setting: Option<Setting>) -> io::Result<()> {
    println!(rt; "{title}")?;
    let Some(setting) = setting else {
        return println!(rt; "  no volume");
    };
    let Some(devices) = devices(rt.alloc()) else {
        return println!(rt; "  no memory");
    };
    match open(rt.alloc(), devices, setting.sectors) {
        Some(pool) => carved(rt, &setting, pool),
        None => println!(rt; "  no pool"),
    }
}

fn carved(rt: &HostRuntime, setting: &Setting, pool: Pool<MemPiece>) -> io::Result<()>
    requires { ArePublic setting.now.sectors (map mem_seen pool.items.items) }
{
    let mut pool = pool;
    let Ok(taken) = take_all(&mut pool, rt.alloc(), setting) else {
        return println!(rt; "  no memory");
    };
    for index in 0..taken.len() {
        let plexes = setting.layouts.len().max(1);
        print!(rt; "  region {}, plex {}:", index / plexes, index % plexes)?;
        show_pieces(rt, &taken[index])?;
    }
    let pool = show_pool(rt, "left", pool)?;
    put_back(rt, setting, pool, taken)
}

fn put_back(
    rt: &HostRuntime,
    setting: &Setting,
    pool: Pool<MemPiece>,
    taken: Vec<Vec<MemPiece>>,
) -> io::Result<()>
    requires { ArePublic setting.now.sectors (flat_map (λ xs. xs) (map (λ x. map mem_seen x.items) taken.items) ++ map mem_seen pool.items.items) }
{
    let mut pool = pool;
    if uncarve_plex(&mut pool, rt.alloc(), taken).is_err() {
        return println!(rt; "  no room");
    }
    let pool = show_pool(rt, "back", pool)?;
    let mut pool = pool;
    match whole(&mut pool, rt.alloc(), setting.sectors) {
        Ok(pieces) => {
            print!(rt; "  joined:")?;
            show_pieces(rt, &pieces)
        }
        Err(_) => println!(rt; "  no memory"),
    }
}

fn show_pool(rt: &HostRuntime, word: &str, pool: Pool<MemPiece>) -> io::Result<Pool<MemPiece>>
    ensures { IfOk result (λ p. p.items.items ≡ pool.items.items) }
{
    let items = pool.into_vec();
    print!(rt; "  {word}:")?;
    show_pieces(rt, &items)?;
    Ok(Pool::from_vec(items))
}

/// Each piece as its device, its first sector and their number, and the first and the last of its bytes, where those of
/// each sector are one more than those of the sector before.
fn show_pieces(rt: &HostRuntime, pieces: &Vec<MemPiece>) -> io::Result<()> {
    for piece in pieces {
        print!(rt; " {}:{}+{}", piece.device(), piece.start(), piece.sectors())?;
        match ends(piece.bytes()) {
            Some((first, last)) => print!(rt; " of {first}..{last}")?,
            None => print!(rt; " of other bytes")?,
        }
    }
    println!(rt)
}

/// The first and the last byte, where each byte is that of its sector and those of the sectors follow one another.
fn ends(bytes: &[u8]) -> Option<(u8, u8)> {
    let first = *bytes.first()?;
    for (index, byte) in bytes.iter().enumerate() {
        if *byte as usize != first as usize + index / 512 {
            return None;
        }
    }
    Some((first, *bytes.last()?))
}
