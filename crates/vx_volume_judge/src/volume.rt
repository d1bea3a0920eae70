//! The volume as the bytes of its disks are: its plexes with what they hold, and the copies of its log that count. It is read by
//! the formats alone.
use crate::bytes::{are_zero, decimal, field, has, only, part, sectors};
use crate::finding::Finding;
use crate::form::Form;
use crate::private::{PRIVATE, is_disk, is_named, newest};
use crate::record::{Attribute, Records, figure, read, value};
use crate::state::{PlexState, VolumeState};
use std::alloc::Global;

/// The map of the dirty regions.
pub const DIRTY: u64 = 30;

/// The maps of a log.
const MAPS: u64 = 32;

/// A plex, of data or of the log.
#[derive(Drop)]
pub struct Plex {
    /// The map that marks it: of a log, and where there is no log, none, and a number behind all.
    pub map: u64,
    pub state: PlexState,
    /// Whether all its disks are good.
    pub held: bool,
    /// What it holds, sector by sector.
    pub bytes: Vec<u8>,
}

#[derive(Drop)]
pub struct Volume {
    pub state: VolumeState,
    pub length: u64,
    pub region: u64,
    /// The data plexes, by name.
    pub plexes: Vec<Plex>,
    /// The log plexes, by name.
    pub logs: Vec<Plex>,
}

// ---- from the records and the disks

/// The volume `v` of the group that these images are the disks of, where it is recorded. Its records are some of these, but for the
/// states, and there are no others.
pub fn volume_on(
    alloc: Global,
    images: &[&[u8]],
    records: Records<'_>,
) -> Result<Option<Volume>, Finding> {
    let offer = newest(images)?;
    for image in images {
        if !is_disk(image) {
            return Err(Finding::Copies);
        }
    }
    let attributes = read(alloc, offer.text)?;
    if !has_volume(attributes.as_slice()) {
        return Ok(None);
    }
    if !records.have(alloc, attributes.as_slice())? {
        return Err(Finding::Records);
    }
    let group = Group {
        attributes: attributes.as_slice(),
        images,
        good: offer.good,
    };
    Ok(Some(group.volume(alloc)?))
}

/// Whether something is recorded beside the group and its disks.
fn has_volume(attributes: &[Attribute<'_>]) -> bool {
    for one in attributes {
        if one.is_volume() {
            return true;
        }
    }
    false
}

/// A configuration with the disks that it lies on.
#[derive(Clone, Copy)]
struct Group<'g, 'a> {
    attributes: &'g [Attribute<'a>],
    images: &'g [&'a [u8]],
    good: u64,
}

impl<'g, 'a> Group<'g, 'a> {
    fn value(&self, kind: &str, name: &str, attribute: &str) -> Result<&'a str, Finding> {
        value(self.attributes, kind, name, attribute)
    }

    fn number(&self, kind: &str, name: &str, attribute: &str) -> Result<u64, Finding> {
        figure(self.attributes, kind, name, attribute)
    }

    fn volume(&self, alloc: Global) -> Result<Volume, Finding> {
        let state = VolumeState::read(self.value("vol", "v", "state")?);
        let mut volume = Volume {
            state: state.ok_or(Finding::Records)?,
            length: self.number("vol", "v", "len")?,
            region: self.number("vol", "v", "region")?,
            plexes: Vec::new(alloc),
            logs: Vec::new(alloc),
        };
        for one in self.attributes {
            if one.says("plex", "vol", "v") {
                self.add(alloc, one.name, &mut volume)?;
            }
        }
        Ok(volume)
    }

    /// Adds a plex to its volume.
    fn add(&self, alloc: Global, name: &str, volume: &mut Volume) -> Result<(), Finding> {
        if self.value("plex", name, "kind")? == "log" {
            volume.logs.push(self.plex(alloc, name, u64::MAX)?)?;
        } else {
            let map = self.map(name)?;
            volume.plexes.push(self.plex(alloc, name, map)?)?;
        }
        Ok(())
    }

    /// The map of a data plex.
    fn map(&self, name: &str) -> Result<u64, Finding> {
        match self.value("plex", name, "map")? {
            "-" => Ok(u64::MAX),
            word => decimal(word).ok_or(Finding::Records),
        }
    }

    /// A plex of one column: its subdisks lie in it one behind the other.
    fn plex(&self, alloc: Global, name: &str, map: u64) -> Result<Plex, Finding> {
        let state = PlexState::read(self.value("plex", name, "state")?);
        let mut plex = Plex {
            map,
            state: state.ok_or(Finding::Records)?,
            held: true,
            bytes: Vec::new(alloc),
        };
        for _ in self.attributes {
            match self.subdisk(name, plex.bytes.len() as u64 / 512) {
                Some(subdisk) => self.append(subdisk, &mut plex)?,
                None => break,
            }
        }
        if plex.bytes.is_empty() || self.value("plex", name, "layout")? != "concat" {
            return Err(Finding::Records);
        }
        Ok(plex)
    }

    /// The subdisk of a plex that begins at this sector of its column.
    fn subdisk(&self, plex: &str, at: u64) -> Option<&'a str> {
        for one in self.attributes {
            if one.says("sd", "plex", plex) && self.begins_at(one.name, at) {
                return Some(one.name);
            }
        }
        None
    }

    /// Whether a subdisk begins at this sector of its column.
    fn begins_at(&self, subdisk: &str, at: u64) -> bool {
        match self.number("sd", subdisk, "at") {
            Ok(first) => first == at,
            Err(_) => false,
        }
    }

    /// Adds what a subdisk holds to its plex.
    fn append(&self, subdisk: &str, plex: &mut Plex) -> Result<(), Finding> {
        let disk = self.value("sd", subdisk, "disk")?;
        let slot = self.number("dm", disk, "slot")?;
        let first = PRIVATE.saturating_add(self.number("sd", subdisk, "off")?);
        let count = self.number("sd", subdisk, "len")?;
        let bytes = sectors(self.image(disk, slot)?, first, count).ok_or(Finding::Records)?;
        plex.bytes.extend_from_slice(bytes)?;
        plex.held = plex.held && has(self.good, slot);
        Ok(())
    }

    /// The disk of this name and slot.
    fn image(&self, name: &str, slot: u64) -> Result<&'a [u8], Finding> {
        for image in self.images {
            if is_named(image, name, slot) {
                return Ok(*image);
            }
        }
        Err(Finding::Records)
    }
}

// ---- plexes, regions and the log

impl Plex {
    /// Whether it is read and written.
    pub fn is_available(&self) -> bool {
        self.held && self.state.is_available()
    }

    /// The bytes of a block.
    pub fn block(&self, block: u64) -> Option<&[u8]> {
        sectors(self.bytes.as_slice(), block, 1)
    }
}

impl Volume {
    /// How it is recorded, but for its states.
    pub fn form(&self) -> Form {
        Form {
            mirrored: 1 < self.plexes.len(),
            logged: self.is_logged(),
            region: self.region,
        }
    }

    pub fn regions(&self) -> u64 {
        self.length.div_ceil(self.region.max(1))
    }

    /// The first block of a region.
    pub fn first_of(&self, region: u64) -> u64 {
        region.saturating_mul(self.region)
    }

    /// The block behind a region.
    pub fn end_of(&self, region: u64) -> u64 {
        self.first_of(region)
            .saturating_add(self.region)
            .min(self.length)
    }

    /// The bytes of a plex in a region.
    pub fn bytes_in<'p>(&self, plex: &'p Plex, region: u64) -> Option<&'p [u8]> {
        let first = self.first_of(region);
        let count = self.end_of(region).saturating_sub(first);
        sectors(plex.bytes.as_slice(), first, count)
    }

    /// Whether a log plex is a copy that counts: it is active, its disks are good, and it begins with the header of this volume.
    pub fn counts(&self, log: &Plex) -> bool {
        log.held && log.state == PlexState::Active && self.is_headed(log)
    }

    fn is_headed(&self, log: &Plex) -> bool {
        let Some(header) = sectors(log.bytes.as_slice(), 0, 1) else {
            return false;
        };
        if part(header, 0, 8) != b"vxdco020".as_slice() {
            return false;
        }
        if field(header, 8, 8) != self.length || field(header, 16, 8) != self.region {
            return false;
        }
        field(header, 24, 4) == MAPS && are_zero(part(header, 28, 484))
    }

    /// Whether it has a log, be it on good disks or not.
    pub fn is_logged(&self) -> bool {
        !self.logs.is_empty()
    }

    /// How many copies of the log count.
    pub fn copies(&self) -> u64 {
        let mut copies = 0u64;
        for log in &self.logs {
            if self.counts(log) {
                copies = copies.saturating_add(1);
            }
        }
        copies
    }

    /// The maps that a log plex marks in a region, as a set of their numbers.
    pub fn marks(&self, log: &Plex, region: u64) -> u64 {
        let mut marks = 0u64;
        for map in 0..MAPS {
            if self.is_marked(log, region, map) {
                marks |= only(map);
            }
        }
        marks
    }

    /// Each map has a slot behind three others: a blank sector, and then a bit for each region.
    fn is_marked(&self, log: &Plex, region: u64, map: u64) -> bool {
        let slot = self.slot_sectors().saturating_mul(map.saturating_add(3));
        let first = slot.saturating_add(1).saturating_mul(512);
        let place = first.saturating_add(region / 8);
        match log.bytes.get(place as usize) {
            Some(byte) => has(u64::from(*byte), region % 8),
            None => false,
        }
    }

    /// The sectors of a slot: its blank sector and a bit for each region, in whole pages of 16 sectors.
    fn slot_sectors(&self) -> u64 {
        let bytes = self.regions().div_ceil(8).saturating_add(512);
        bytes.div_ceil(8_192).saturating_mul(16)
    }

    /// The maps that each copy marks in a region: all of them where no copy counts.
    pub fn sure(&self, region: u64) -> u64 {
        let mut sure = u64::MAX;
        for log in &self.logs {
            if self.counts(log) {
                sure &= self.marks(log, region);
            }
        }
        sure
    }

    /// The maps that some copy marks in a region.
    pub fn possible(&self, region: u64) -> u64 {
        let mut possible = 0u64;
        for log in &self.logs {
            if self.counts(log) {
                possible |= self.marks(log, region);
            }
        }
        possible
    }

    /// Whether the data plex has the lowest map.
    pub fn is_lowest(&self, plex: &Plex) -> bool {
        for other in &self.plexes {
            if other.map < plex.map {
                return false;
            }
        }
        true
    }

    /// How many data plexes are read and written.
    pub fn available(&self) -> u64 {
        let mut available = 0u64;
        for plex in &self.plexes {
            if plex.is_available() {
                available = available.saturating_add(1);
            }
        }
        available
    }

    /// The map of the dirty regions and those of the plexes.
    pub fn maps(&self) -> u64 {
        let mut maps = only(DIRTY);
        for plex in &self.plexes {
            maps |= only(plex.map);
        }
        maps
    }
}
