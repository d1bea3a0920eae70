//! Where a volume lies, as its scenario tells it: for each block of a plex, and each bit of a copy of its log, the sector of a device.
use vx_volume_judge::{has, sectors};

/// The map of the dirty regions.
pub const DIRTY: u64 = 30;

/// A run of sectors of a device.
#[derive(Clone, Copy)]
pub struct Extent {
    /// The place of the device in the order of the devices.
    pub device: u64,
    pub first: u64,
    pub count: u64,
}

/// A sector of a device.
#[derive(Clone, Copy)]
pub struct Place {
    pub device: u64,
    pub sector: u64,
}

/// Runs of sectors, one behind the other.
#[derive(Drop)]
pub struct Column {
    pub extents: Vec<Extent>,
}

impl Column {
    /// Where a sector of it lies.
    pub fn place(&self, sector: u64) -> Option<Place> {
        let mut behind = sector;
        for extent in &self.extents {
            if behind < extent.count {
                return Some(Place {
                    device: extent.device,
                    sector: extent.first.saturating_add(behind),
                });
            }
            behind = behind.saturating_sub(extent.count);
        }
        None
    }

    /// Whether a part of it lies on the device.
    pub fn is_on(&self, device: u64) -> bool {
        self.extents.iter().any(|extent| extent.device == device)
    }
}

/// A data plex: its name, the map that marks it, and its columns, over which its blocks go in strips.
#[derive(Drop)]
pub struct Plex {
    pub name: String,
    pub map: u64,
    /// The blocks of a strip.
    pub unit: u64,
    pub columns: Vec<Column>,
}

impl Plex {
    /// Where a block of it lies.
    pub fn place(&self, block: u64) -> Option<Place> {
        let unit = self.unit.max(1);
        let count = (self.columns.len() as u64).max(1);
        let strip = block / unit;
        let column = self.columns.get((strip % count) as usize)?;
        let first = (strip / count).saturating_mul(unit);
        column.place(first.saturating_add(block % unit))
    }

    /// The bytes of a block of it.
    pub fn block<'i>(&self, images: &[&'i [u8]], block: u64) -> Option<&'i [u8]> {
        sector_at(images, self.place(block)?)
    }

    /// Whether a part of it lies on the device.
    pub fn is_on(&self, device: u64) -> bool {
        self.columns.iter().any(|column| column.is_on(device))
    }
}

/// The bytes of a sector of a device.
pub fn sector_at<'i>(images: &[&'i [u8]], place: Place) -> Option<&'i [u8]> {
    sectors(*images.get(place.device as usize)?, place.sector, 1)
}

/// A copy of the log: its name, and its sectors.
#[derive(Drop)]
pub struct Log {
    pub name: String,
    pub sectors: Column,
}

/// A volume `v`, with all plexes and copies of its log that it has or may get, the plexes by their maps, the copies by their names.
#[derive(Drop)]
pub struct Shape {
    /// Its blocks, and those of a region.
    pub length: u64,
    pub region: u64,
    pub plexes: Vec<Plex>,
    pub logs: Vec<Log>,
}

impl Shape {
    pub fn regions(&self) -> u64 {
        self.length.div_ceil(self.region.max(1))
    }

    /// The first block of a region.
    pub fn first_of(&self, region: u64) -> u64 {
        region.saturating_mul(self.region)
    }

    /// The block behind a region.
    pub fn end_of(&self, region: u64) -> u64 {
        self.first_of(region)
            .saturating_add(self.region)
            .min(self.length)
    }

    /// Whether a copy of the log marks a region in a map. Each map has a slot behind three others: a blank sector, and then a bit for each
    /// region. There are less than 4,096 regions, whose bits stand in one sector.
    pub fn is_marked(&self, images: &[&[u8]], log: &Log, map: u64, region: u64) -> bool {
        let slot = self.slot_sectors().saturating_mul(map.saturating_add(3));
        let Some(place) = log.sectors.place(slot.saturating_add(1)) else {
            return false;
        };
        let Some(page) = sector_at(images, place) else {
            return false;
        };
        match page.get((region / 8) as usize) {
            Some(byte) => has(u64::from(*byte), region % 8),
            None => false,
        }
    }

    /// The sectors of a slot: its blank sector and a bit for each region, in whole pages of 16 sectors.
    fn slot_sectors(&self) -> u64 {
        let bytes = self.regions().div_ceil(8).saturating_add(512);
        bytes.div_ceil(8_192).saturating_mul(16)
    }

    /// The maps of the dirty regions and of the plexes, as the bits of a number.
    pub fn maps(&self) -> u64 {
        let mut maps = bit(DIRTY);
        for plex in &self.plexes {
            maps |= bit(plex.map);
        }
        maps
    }
}

/// The set that has just this number, or none where it is not below 64.
pub fn bit(number: u64) -> u64 {
    if number < 64 { 1u64 << number } else { 0 }
}
