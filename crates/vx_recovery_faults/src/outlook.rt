//! What an import of a group and a recovery of its volume are to answer, by the bytes of its disks, where nothing fails.
use crate::seen::{Seen, offer_on, text_of};
use crate::text::{disk_of, value_of};
use std::alloc::{AllocError, Global};
use vx_volume_judge::{Finding, Offer, VolumeState, has, is_disk, slot_of};

/// The most slots of a group.
const SLOTS: u64 = 32;

#[derive(Drop)]
pub enum Outlook {
    /// The import is refused so.
    NoImport(String),
    /// No volume is recorded.
    Unrecorded,
    /// It was never started, and a recovery passes it over.
    Empty,
    /// It can be neither started nor recovered, which is refused so.
    Refused(String),
    /// It was stopped, and a recovery starts it.
    Starts,
    /// It was left started, and is recovered.
    Recovers,
}

impl Outlook {
    /// By these disks.
    pub fn of(alloc: Global, seen: &Seen<'_>) -> Result<Outlook, Finding> {
        let Some(offer) = offer_on(seen.images)? else {
            return Ok(Outlook::NoImport(String::from_str(alloc, "refused no group dg")?));
        };
        let text = text_of(&offer)?;
        if let Some(slot) = missing(seen.images, &offer) {
            let disk = disk_of(text, slot).unwrap_or("-");
            let answer = format!(in alloc; "refused missing {disk}")?;
            return Ok(Outlook::NoImport(answer));
        }
        match seen.state {
            None => Ok(Outlook::Unrecorded),
            Some(VolumeState::Empty) => Ok(Outlook::Empty),
            Some(state) => {
                let is_logged = value_of(text, "vol", "v", "dco") != Some("-");
                match refusal_of(alloc, seen, is_logged)? {
                    Some(refusal) => Ok(Outlook::Refused(refusal)),
                    None if state == VolumeState::Clean => Ok(Outlook::Starts),
                    None => Ok(Outlook::Recovers),
                }
            }
        }
    }

    /// Whether a volume can be neither started nor recovered.
    pub fn is_refused(&self) -> bool {
        match self {
            Outlook::Refused(_) => true,
            _ => false,
        }
    }

    /// Whether the volume runs behind a recovery, or once it is started then.
    pub fn is_read(&self) -> bool {
        match self {
            Outlook::Empty | Outlook::Starts | Outlook::Recovers => true,
            _ => false,
        }
    }
}

/// The first slot that is recorded as good and that no disk has.
fn missing(images: &[&[u8]], offer: &Offer<'_>) -> Option<u64> {
    for slot in 0..SLOTS {
        let is_there = images
            .iter()
            .any(|image| is_disk(*image) && slot_of(*image) == slot);
        if has(offer.good, slot) && !is_there {
            return Some(slot);
        }
    }
    None
}

/// Why a volume that is not empty can be neither started nor recovered: it has a log no copy of which counts, or by the first copy that counts
/// no plex is current in some region.
fn refusal_of(
    alloc: Global,
    seen: &Seen<'_>,
    is_logged: bool,
) -> Result<Option<String>, AllocError> {
    if is_logged && seen.logs.is_empty() {
        return Ok(Some(String::from_str(alloc, "refused no log v")?));
    }
    for region in 0..seen.shape.regions() {
        if !seen.has_current(seen.loaded(region)) {
            return Ok(Some(format!(in alloc; "refused no current {region}")?));
        }
    }
    Ok(None)
}
