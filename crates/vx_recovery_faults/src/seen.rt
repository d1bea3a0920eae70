//! What the bytes of the disks say of a group and its volume, by the formats alone and by where the scenario says that it lies.
use crate::shape::{DIRTY, Log, Plex, Shape, bit, sector_at};
use crate::text::value_of;
use std::alloc::Global;
use std::str;
use vx_volume_judge::{
    Finding, Offer, PlexState, VolumeState, are_zero, field, has, is_disk, newest, part, slot_of,
};

/// The maps of a log.
const MAPS: u64 = 32;

/// How many plexes and copies of the log are recorded; with no plex there is no volume.
#[derive(Clone, Copy, PartialEq, Eq)]
pub struct Form {
    pub plexes: u64,
    pub logs: u64,
}

/// A data plex that is recorded.
#[derive(Clone, Copy)]
pub struct SeenPlex<'s> {
    pub plex: &'s Plex,
    pub state: PlexState,
    /// Whether all its disks are good.
    pub held: bool,
}

impl<'s> SeenPlex<'s> {
    /// Whether it is read and written.
    pub fn is_available(&self) -> bool {
        self.held && self.state.is_available()
    }
}

/// A volume as its disks hold it.
#[derive(Drop)]
pub struct Seen<'s> {
    pub shape: &'s Shape,
    pub images: &'s [&'s [u8]],
    /// The state of the volume, where it is recorded.
    pub state: Option<VolumeState>,
    pub plexes: Vec<SeenPlex<'s>>,
    /// How many copies of the log are recorded, and those that count, by their names.
    pub recorded: u64,
    pub logs: Vec<&'s Log>,
}

/// The configuration on these disks, where there is one.
pub fn offer_on<'i>(images: &[&'i [u8]]) -> Result<Option<Offer<'i>>, Finding> {
    match newest(images) {
        Ok(offer) => Ok(Some(offer)),
        Err(Finding::Configuration) => Ok(None),
        Err(finding) => Err(finding),
    }
}

/// The text of a configuration.
pub fn text_of<'i>(offer: &Offer<'i>) -> Result<&'i str, Finding> {
    match str::from_utf8(offer.text) {
        Ok(text) => Ok(text),
        Err(_) => Err(Finding::Configuration),
    }
}

/// Whether the device is a disk whose slot is among these.
pub fn is_good(images: &[&[u8]], good: u64, device: u64) -> bool {
    match images.get(device as usize) {
        Some(image) => is_disk(image) && has(good, slot_of(image)),
        None => false,
    }
}

impl<'s> Seen<'s> {
    /// The volume on these disks.
    pub fn on(
        alloc: Global,
        shape: &'s Shape,
        images: &'s [&'s [u8]],
    ) -> Result<Seen<'s>, Finding> {
        let mut seen = Seen {
            shape,
            images,
            state: None,
            plexes: Vec::new(alloc),
            recorded: 0,
            logs: Vec::new(alloc),
        };
        if let Some(offer) = offer_on(images)? {
            seen.read(text_of(&offer)?, offer.good)?;
        }
        Ok(seen)
    }

    /// Takes what the text of a configuration says.
    fn read(&mut self, text: &str, good: u64) -> Result<(), Finding> {
        if let Some(word) = value_of(text, "vol", "v", "state") {
            self.state = Some(VolumeState::read(word).ok_or(Finding::Records)?);
        }
        let shape = self.shape;
        for plex in &shape.plexes {
            if let Some(word) = value_of(text, "plex", plex.name.as_str(), "state") {
                let state = PlexState::read(word).ok_or(Finding::Records)?;
                let held = self.is_held(plex, good);
                self.plexes.push(SeenPlex { plex, state, held })?;
            }
        }
        for log in &shape.logs {
            if let Some(word) = value_of(text, "plex", log.name.as_str(), "state") {
                self.recorded = self.recorded.saturating_add(1);
                if word == "ACTIVE" && self.counts(log, good) {
                    self.logs.push(log)?;
                }
            }
        }
        Ok(())
    }

    /// Whether all disks of a plex are good.
    fn is_held(&self, plex: &Plex, good: u64) -> bool {
        for device in 0..self.images.len() as u64 {
            if plex.is_on(device) && !is_good(self.images, good, device) {
                return false;
            }
        }
        true
    }

    /// Whether all disks of a copy of the log are good, and it begins with the header of this volume.
    fn counts(&self, log: &Log, good: u64) -> bool {
        for device in 0..self.images.len() as u64 {
            if log.sectors.is_on(device) && !is_good(self.images, good, device) {
                return false;
            }
        }
        match log.sectors.place(0) {
            Some(place) => self.is_header(sector_at(self.images, place).unwrap_or(&[])),
            None => false,
        }
    }

    fn is_header(&self, sector: &[u8]) -> bool {
        if part(sector, 0, 8) != b"vxdco020".as_slice() {
            return false;
        }
        if field(sector, 8, 8) != self.shape.length || field(sector, 16, 8) != self.shape.region {
            return false;
        }
        field(sector, 24, 4) == MAPS && are_zero(part(sector, 28, 484))
    }

    /// How many plexes and copies of the log are recorded.
    pub fn form(&self) -> Form {
        Form {
            plexes: self.plexes.len() as u64,
            logs: self.recorded,
        }
    }

    // ---- marks

    /// The maps that a copy of the log marks in a region.
    pub fn marks(&self, log: &Log, region: u64) -> u64 {
        let mut marks = 0u64;
        if self.shape.is_marked(self.images, log, DIRTY, region) {
            marks |= bit(DIRTY);
        }
        for seen in &self.plexes {
            if self
                .shape
                .is_marked(self.images, log, seen.plex.map, region)
            {
                marks |= bit(seen.plex.map);
            }
        }
        marks
    }

    /// The maps that each copy that counts marks in a region: none where no copy counts.
    pub fn sure(&self, region: u64) -> u64 {
        let mut sure = if self.logs.is_empty() { 0 } else { u64::MAX };
        for log in &self.logs {
            sure &= self.marks(*log, region);
        }
        sure
    }

    /// The maps that some copy marks in a region.
    pub fn possible(&self, region: u64) -> u64 {
        let mut possible = 0u64;
        for log in &self.logs {
            possible |= self.marks(*log, region);
        }
        possible
    }

    /// The maps that the first copy that counts marks in a region, by which a volume is started.
    pub fn loaded(&self, region: u64) -> u64 {
        match self.logs.first() {
            Some(log) => self.marks(*log, region),
            None => 0,
        }
    }

    /// Whether some available plex is not among these marks.
    pub fn has_current(&self, marks: u64) -> bool {
        self.plexes
            .iter()
            .any(|seen| seen.is_available() && !has(marks, seen.plex.map))
    }

    /// The maps of the available plexes.
    pub fn available(&self) -> u64 {
        let mut maps = 0u64;
        for seen in &self.plexes {
            if seen.is_available() {
                maps |= bit(seen.plex.map);
            }
        }
        maps
    }

    /// Whether it was left started: then it has to be recovered.
    pub fn was_started(&self) -> bool {
        match self.state {
            Some(VolumeState::Active | VolumeState::NeedSync | VolumeState::Sync) => true,
            _ => false,
        }
    }
}
