//! The largest volumes over pieces that store nothing: how long it takes to take all regions and to put them back.

ghost use Rattle.std.specs.Prelude.{map};
ghost use Rattle.vx_carve_rows.specs.Plain.{plain_seen};
ghost use Rattle.vx_carve_rows.specs.Setting.{ArePublic};

use crate::plain::PlainPiece;
use crate::setting::{Setting, mirror, strip, stripes};
use crate::taking::{open, take_all};
use std::alloc::Global;
use std::io;
use std::time::Instant;
use vx_block::Geometry;
use vx_carve::{PUBLIC, Pool, uncarve_plex};

/// The sectors of a public region, and those of a volume of 262,144 regions.
const SECTORS: u64 = 33_554_432;

/// Two plexes on two disks.
fn two_plexes(alloc: Global) -> Option<Setting> {
    let first = [strip(0, 0, 33_554_432)];
    let second = [strip(1, 0, 33_554_432)];
    mirror(
        alloc,
        &first,
        &second,
        SECTORS,
        Geometry::new(33_554_432, 128)?,
    )
}

/// Four columns, of which each region has a unit of 32 sectors.
fn four_columns(alloc: Global) -> Option<Setting> {
    stripes(
        alloc,
        32,
        0,
        8_388_608,
        SECTORS,
        Geometry::new(33_554_432, 128)?,
    )
}

/// Measures the volume of that name: `mirror`, or else four striped columns.
pub fn measure(rt: &HostRuntime, word: &str) -> io::Result<()> {
    let setting = if word == "mirror" {
        two_plexes(rt.alloc())
    } else {
        four_columns(rt.alloc())
    };
    let Some(setting) = setting else {
        return println!(rt; "no volume");
    };
    let Some(devices) = devices(rt.alloc()) else {
        return println!(rt; "no memory");
    };
    match open(rt.alloc(), devices, setting.sectors) {
        Some(pool) => carved(rt, &setting, pool),
        None => println!(rt; "no pool"),
    }
}

fn devices(alloc: Global) -> Option<Vec<PlainPiece>> {
    let mut devices = Vec::new(alloc);
    for number in 0..4_u32 {
        devices
            .push(PlainPiece::new(number, PUBLIC + SECTORS))
            .ok()?;
    }
    Some(devices)
}

fn carved(rt: &HostRuntime, setting: &Setting, pool: Pool<PlainPiece>) -> io::Result<()>
    requires { ArePublic setting.now.sectors (map plain_seen pool.items.items) }
{
    let mut pool = pool;
    let start = Instant::now(rt)?;
    let Ok(taken) = take_all(&mut pool, rt.alloc(), setting) else {
        return println!(rt; "no memory");
    };
    let out = start.elapsed(rt)?;
    let mut pieces = 0_u64;
    for plex in &taken {
        pieces = pieces.saturating_add(plex.len() as u64);
    }
    let again = Instant::now(rt)?;
    let done = uncarve_plex(&mut pool, rt.alloc(), taken).is_ok();
    let back = again.elapsed(rt)?;
    println!(rt;
        "{} regions, {} pieces: out {} us, back {} us, done {}, {} pieces left in the pool",
        setting.geometry.regions(),
        pieces,
        out.as_micros(),
        back.as_micros(),
        done,
        pool.into_vec().len()
    )
}
