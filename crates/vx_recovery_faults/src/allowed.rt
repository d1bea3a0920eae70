//! What a fault can cause in an import and a recovery.
use crate::report::{FaultAt, Part};
use crate::seen::{Seen, SeenPlex, offer_on, text_of};
use crate::shape::{DIRTY, bit};
use crate::text::disk_of;
use vx_volume_judge::{decimal, has, slot_of};

/// A fault that has fired, over what the disks held before.
#[derive(Clone, Copy)]
pub struct Suspect<'s> {
    pub seen: &'s Seen<'s>,
    pub fault: FaultAt,
}

impl<'s> Suspect<'s> {
    /// Whether the answer names its disk behind this.
    fn is_named(&self, line: &str, before: &str) -> bool {
        match (line.strip_prefix(before), self.disk()) {
            (Some(rest), Some(disk)) => rest == disk,
            _ => false,
        }
    }

    /// The name of the disk on the device that fails.
    fn disk(&self) -> Option<&'s str> {
        let image = self.seen.images.get(self.fault.device as usize)?;
        match offer_on(self.seen.images) {
            Ok(Some(offer)) => match text_of(&offer) {
                Ok(text) => disk_of(text, slot_of(*image)),
                Err(_) => None,
            },
            _ => None,
        }
    }

    fn is_at(&self, part: Part, on_write: bool) -> bool {
        self.fault.part == part && self.fault.on_write == on_write
    }

    /// An import is refused where a disk that is recorded as good cannot be read.
    pub fn may_refuse_import(&self, line: &str) -> bool {
        self.is_at(Part::Private, false) && self.is_named(line, "refused missing ")
    }

    /// Whether a recovery may end so. It tells the fault of a disk where a copy of the log cannot be written, or a plex that is copied to, or where
    /// a region cannot be read from any other plex. It is refused where the only copy of the log cannot be read, or was dropped with its disk; or
    /// where the plexes that were dropped with their disk were the only ones that are current somewhere.
    pub fn may_end(&self, line: &str) -> bool {
        if self.is_named(line, "fault ") {
            return self.is_at(Part::Log, true)
                || self.is_at(Part::Data, true)
                || (self.is_at(Part::Data, false) && self.lacks_another());
        }
        let may_drop = self.is_at(Part::Private, true);
        if line == "refused no log v" {
            return (may_drop || self.is_at(Part::Log, false)) && self.has_all_logs();
        }
        match line.strip_prefix("refused no current ") {
            Some(word) => match decimal(word) {
                Some(region) => may_drop && !self.is_current_elsewhere(region),
                None => false,
            },
            None => false,
        }
    }

    /// Whether a part of a plex that is available lies on the device.
    pub fn has_plex(&self) -> bool {
        self.seen.plexes.iter().any(|one| one.is_available() && one.plex.is_on(self.fault.device))
    }

    /// Whether all copies of the log lie on the device.
    fn has_all_logs(&self) -> bool {
        self.seen
            .logs
            .iter()
            .all(|log| log.sectors.is_on(self.fault.device))
    }

    /// Whether a plex is available, and lies on other devices.
    fn is_elsewhere(&self, one: &SeenPlex<'_>) -> bool {
        one.is_available() && !one.plex.is_on(self.fault.device)
    }

    /// Whether some plex on other devices is surely current in a region.
    fn is_current_elsewhere(&self, region: u64) -> bool {
        let marks = self.seen.possible(region);
        self.seen
            .plexes
            .iter()
            .any(|one| self.is_elsewhere(one) && !has(marks, one.plex.map))
    }

    /// Whether in some region that is read no plex on other devices is surely current.
    fn lacks_another(&self) -> bool {
        let maps = self.seen.available() | bit(DIRTY);
        for region in 0..self.seen.shape.regions() {
            let is_read = self.seen.possible(region) & maps != 0;
            if is_read && !self.is_current_elsewhere(region) {
                return true;
            }
        }
        false
    }
}
