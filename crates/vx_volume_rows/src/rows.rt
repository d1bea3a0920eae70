ghost use Rattle.std.specs.Prelude.{◌≡◌, ℕ, [], map};
ghost use Rattle.vx_carve.specs.Carved.{HaveNumbers};
ghost use Rattle.vx_confdb.specs.Groups.{members};
ghost use Rattle.vx_copies.specs.Lists.{AllOf};
ghost use Rattle.vx_piece.specs.MemPiece.{mem_seen};
ghost use Rattle.vx_fronts.specs.Parted.{AreParted, IsCutShort};
ghost use Rattle.vx_image.specs.UsedPlexes.{IsVolOf};
ghost use Rattle.vx_group_start.specs.GroupDisks.{AreGroupDisks};

use crate::group::group;
use crate::leaving::left;
use crate::matching::{are_group_disks, differ, first_volume, numbers_of};
use crate::running::ran;
use crate::shown::show_fault;
use crate::text::{ALONE, TWICE};
use std::alloc::Global;
use std::collections::BTreeMap;
use std::io;
use vx_carve::Pool;
use vx_confdb::Group;
use vx_fronts::open_group;
use vx_group_start::laws::volumes_can_be_opened;
use vx_group_start::open_volume;
use vx_lending::Public;
use vx_objects::{Config, Vol};
use vx_piece::{Bad, MemPiece};
use vx_record::read;

/// What is done with a volume.
#[derive(Clone, Copy)]
enum Way {
    /// Calls are made on it, and before them its plexes are copied to or not.
    Called { copies: bool },
    /// Its second plex leaves it. `good` are the slots whose disks are good as it is opened.
    Left { good: u32 },
}

const CALLED: Way = Way::Called { copies: false };

const COPIED: Way = Way::Called { copies: true };

pub fn show(rt: &HostRuntime) -> io::Result<()> {
    println!(rt; "one plex on the first disk, no log")?;
    row(rt, CALLED, ALONE, Vec::new(rt.alloc()))?;
    println!(rt; "the same, and a write of one of its sectors fails")?;
    let bad = vec![in rt.alloc(); failing(2186)]?;
    row(rt, CALLED, ALONE, bad)?;
    println!(rt; "a plex and a log on each disk")?;
    row(rt, CALLED, TWICE, Vec::new(rt.alloc()))?;
    println!(rt; "the same, and a write of a sector of the first plex fails")?;
    let bad = vec![in rt.alloc(); failing(2186)]?;
    row(rt, CALLED, TWICE, bad)?;
    println!(rt; "a plex and a log on each disk, and the second plex is copied to")?;
    row(rt, COPIED, TWICE, Vec::new(rt.alloc()))?;
    println!(rt; "the same, and a write of a sector of the first plex fails")?;
    let bad = vec![in rt.alloc(); failing(2186)]?;
    row(rt, COPIED, TWICE, bad)?;
    println!(rt; "a plex and a log on each disk, of which the second plex is taken out")?;
    row(rt, Way::Left { good: 3 }, TWICE, Vec::new(rt.alloc()))?;
    println!(rt; "the same, opened while the second disk is not good")?;
    row(rt, Way::Left { good: 1 }, TWICE, Vec::new(rt.alloc()))
}

/// A sector whose first write fails.
fn failing(sector: u64) -> Bad {
    Bad {
        start: sector,
        count: 1,
        on_read: false,
        on_write: true,
        skip: 0,
        times: 1,
    }
}

fn row(rt: &HostRuntime, way: Way, text: &[u8], bad: Vec<Bad>) -> io::Result<()> {
    let Some(config) = config_of(rt.alloc(), text) else {
        return println!(rt; "  no configuration");
    };
    match group(rt.alloc(), bad) {
        Some(group) => opened(rt, way, &config, group),
        None => println!(rt; "  no group"),
    }
}

fn config_of(alloc: Global, text: &[u8]) -> Option<Config> {
    let records = read(alloc, text).ok()?;
    Config::read(alloc, records.as_slice()).ok()
}

/// Parts the devices of a group.
fn opened(rt: &HostRuntime, way: Way, config: &Config, group: Group<MemPiece>) -> io::Result<()>
    requires { AreParted (members mem_seen group) [] }
{
    let mut group = group;
    let mut pool = Pool::from_vec(Vec::new(rt.alloc()));
    if open_group(rt.alloc(), &mut group, &mut pool).is_err() {
        return println!(rt; "  no memory");
    }
    let numbers = numbers_of(rt.alloc(), &group)?;
    let Some(vol) = first_volume(config) else {
        return println!(rt; "  no volume");
    };
    if !differ(&numbers) || !are_group_disks(config, &numbers, &group) {
        return println!(rt; "  other disks");
    }
    started(rt, way, config, &vol, &numbers, group, pool)
}

/// Opens a volume over parted devices.
fn started(
    rt: &HostRuntime,
    way: Way,
    config: &Config,
    vol: &Vol,
    numbers: &[u32],
    group: Group<MemPiece>,
    pool: Pool<MemPiece>,
) -> io::Result<()>
    requires of { IsVolOf config.now vol.now }
    requires apart { HaveNumbers numbers.now }
    requires disks { (good : ℕ) → AreGroupDisks numbers.now (members mem_seen group) good config.now.disks }
    requires short { AllOf IsCutShort (members mem_seen group) }
    requires parted { AreParted (members mem_seen group) (map mem_seen pool.items.items) }
{
    volumes_can_be_opened();
    let mut public = Public {
        pool,
        left: Vec::new(rt.alloc()),
        running: BTreeMap::new(rt.alloc()),
        stuck: Vec::new(rt.alloc()),
    };
    match open_volume(rt.alloc(), config, good_of(way), vol, numbers, &mut public) {
        Ok(running) => match way {
            Way::Called { copies } => ran(rt, copies, vol.name, group, public, running),
            Way::Left { .. } => left(rt, vol.name, running),
        },
        Err(fault) => show_fault(rt, fault),
    }
}

/// The slots whose disks are good.
fn good_of(way: Way) -> u32 {
    match way {
        Way::Called { .. } => 3,
        Way::Left { good } => good,
    }
}
