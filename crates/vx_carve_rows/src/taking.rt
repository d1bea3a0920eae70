//! Regions are taken out of a pool, and put back.

ghost use Rattle.std.specs.Prelude.{◌≡◌, ◌+◌, ◌^◌, ◌<◌, ◌++◌, map, IfOk, IfSome};
ghost use Rattle.std.specs.List.{flat_map};
ghost use Rattle.vx_carve.specs.Together.{IsRunOf, SameSectors};
ghost use Rattle.vx_carve.specs.Carved.{ArePieces};
ghost use Rattle.vx_carve_rows.specs.Setting.{ArePublic, numbers, stretch, stretches};

use crate::setting::Setting;
use std::alloc::Global;
use vx_base::OutOfMemory;
use vx_carve::{PUBLIC, Pool, carve, carve_region};
use vx_layout::Run;
use vx_piece::Piece;

/// The numbers of the devices of the four slots.
const NUMBERS: [u32; 4] = [0, 1, 2, 3];

/// The public region of a whole device, where it is that of this slot and has this size.
fn public_of<P: Piece + Drop>(alloc: Global, device: P, slot: u32, sectors: u64) -> Option<P>
    requires { sectors < 2 ^ 40 }
    ensures { IfSome result (λ p. IsRunOf slot 2048 sectors (P.seen p)) }
{
    if device.device() != slot || device.start() != 0 || device.sectors() != PUBLIC + sectors {
        return None;
    }
    if sectors == 0 {
        return None;
    }
    match device.split(alloc, PUBLIC) {
        Ok((_, public)) => Some(public),
        Err(_) => None,
    }
}

/// The public regions of the four devices.
pub fn open<P: Piece + Drop>(alloc: Global, devices: Vec<P>, sectors: u64) -> Option<Pool<P>>
    requires { sectors < 2 ^ 40 }
    ensures { IfSome result (λ pool. ArePublic sectors (map P.seen pool.items.items)) }
{
    let mut devices = devices;
    let third = public_of(alloc, devices.pop()?, 3, sectors)?;
    let second = public_of(alloc, devices.pop()?, 2, sectors)?;
    let first = public_of(alloc, devices.pop()?, 1, sectors)?;
    let zeroth = public_of(alloc, devices.pop()?, 0, sectors)?;
    let items = vec![in alloc; zeroth, first, second, third].ok()?;
    Some(Pool::from_vec(items))
}

/// Takes all regions of the volume out of the pool, the last one first, and gives the pieces of each plex of each region,
/// the regions in order.
pub fn take_all<P: Piece + Drop>(
    pool: &mut Pool<P>,
    alloc: Global,
    setting: &Setting,
) -> Result<Vec<Vec<P>>, OutOfMemory>
    requires { ArePublic setting.now.sectors (map P.seen pool.old.items.items) }
    ensures { IfOk result (λ v. SameSectors (map P.seen pool.old.items.items) (flat_map (λ xs. xs) (map (λ x. map P.seen x.items) v.items) ++ map P.seen pool.new.items.items)) }
{
    let mut taken: Vec<Vec<P>> = Vec::new(alloc);
    let mut region = setting.geometry.regions();
    'regions: while region > 0 {
        region -= 1;
        let span = setting.geometry.range_of(region);
        match carve_region(pool, alloc, &NUMBERS, setting.layouts.as_slice(), span) {
            Ok(plexes) => {
                let mut plexes = plexes;
                plexes.reverse();
                taken.append(&mut plexes)?;
            }
            Err(_) => return Err(OutOfMemory),
        }
    }
    taken.reverse();
    Ok(taken)
}

/// The public region of the disk in a slot.
fn stretch(sectors: u64, disk: u8) -> Run
    ensures { result ≡ stretch sectors disk }
{
    Run {
        disk,
        sector: 0,
        count: sectors,
        block: 0,
    }
}

fn stretches(sectors: u64) -> [Run; 4]
    ensures { result ≡ stretches sectors }
{
    [
        stretch(sectors, 0),
        stretch(sectors, 1),
        stretch(sectors, 2),
        stretch(sectors, 3),
    ]
}

/// Takes the public region of each disk out of the pool, as one piece.
pub fn whole<P: Piece + Drop>(
    pool: &mut Pool<P>,
    alloc: Global,
    sectors: u64,
) -> Result<Vec<P>, OutOfMemory>
    requires public { ArePublic sectors (map P.seen pool.old.items.items) }
    requires some { 0 < sectors }
    requires fits { sectors < 2 ^ 40 }
    ensures { IfOk result (λ v. ArePieces numbers (stretches sectors) (map P.seen v.items)) }
{
    let runs = stretches(sectors);
    carve(pool, alloc, &NUMBERS, &runs)
}
