//! The devices as the trials begin.
use crate::trial::run_on;
use std::alloc::{AllocError, Global};
use vx_volume_judge::{
    Candidates, Finding, Form, Known, PRIVATE, REGION, Records, Step, VolumeState, take_all,
};

/// The blocks of the volume.
pub const LENGTH: u64 = 384;

/// The first sector of a data subdisk and of a log subdisk on its device, and the sectors of a log subdisk.
pub const DATA: u64 = PRIVATE;

pub const LOG: u64 = DATA + LENGTH;

pub const LOG_SECTORS: u64 = 560;

/// What the blocks of a region are full of on the plex of each disk before anything was done: this, and the number of the region. The
/// lowest of two plexes is on disk01.
const LOWEST: u8 = 0x10;

const OTHER: u8 = 0x20;

/// What a log is full of before it is made.
const OLD_LOG: u8 = 0xff;

/// What leaves the group without a volume, and the answers.
const TO_GROUP: &str = "vxdg init dg disk01=i0 disk02=i1\nvxdg deport dg\n";

const GROUPED: &str = "ok\nok\n";

/// What leaves the volume CLEAN, and the answers with several plexes and with one.
const TO_CLEAN: &str = "vxdg import dg\nvxvol start v\nvxvol stop v\nvxdg deport dg\n";

const CLEANED: &str = "ok\nok copied 3\nok\nok\n";

const CLEANED_ALONE: &str = "ok\nok copied 0\nok\nok\n";

/// What leaves a CLEAN volume ACTIVE, and the answers.
const TO_ACTIVE: &str = "vxdg import dg\nvxvol start v\nwrite v 127 130 fill 31\n";

const STARTED: &str = "ok\nok copied 0\nok 0:0.1 1:0.1 2:0.1\n";

/// The bytes of the two devices.
pub type Images = Vec<Vec<u8>>;

/// How the devices are as a trial begins.
#[derive(Clone, Copy, PartialEq, Eq)]
pub enum Base {
    NoVolume,
    Empty,
    Clean,
    Active,
}

impl Base {
    pub fn read(word: &str) -> Option<Base> {
        match word {
            "NONE" => Some(Base::NoVolume),
            "EMPTY" => Some(Base::Empty),
            "CLEAN" => Some(Base::Clean),
            "ACTIVE" => Some(Base::Active),
            _ => None,
        }
    }

    /// Whether the volume was never started.
    pub fn is_first(self) -> bool {
        self == Base::NoVolume || self == Base::Empty
    }
}

/// The group without a volume, with other bytes on each plex and in the log; the volume EMPTY, with the same bytes; CLEAN, started and
/// stopped once; and ACTIVE, started, written and left.
#[derive(Drop)]
pub struct Bases {
    /// The records that the volume may have; it begins with the first.
    texts: Vec<String>,
    /// The form in which it begins.
    pub form: Form,
    none: Images,
    empty: Images,
    clean: Images,
    active: Images,
}

impl Bases {
    /// The bases of a volume that may have these records, and begins with the first.
    pub fn make(alloc: Global, texts: Vec<String>) -> Result<Bases, Finding> {
        let records = texts.first().ok_or(Finding::Records)?.as_str();
        let form = Form::read(alloc, records)?;
        let none = after(alloc, &blank(alloc)?, TO_GROUP, GROUPED)?;
        let script = format!(in alloc;
            "vxdg import dg\nvxmake -d\n{records}end\nvxdg deport dg\n"
        )?;
        let empty = after(alloc, &none, script.as_str(), "ok\nok\nok\n")?;
        let clean = after(alloc, &empty, TO_CLEAN, cleaned(form))?;
        let active = after(alloc, &clean, TO_ACTIVE, STARTED)?;
        Ok(Bases {
            texts,
            form,
            none,
            empty,
            clean,
            active,
        })
    }

    /// The records that the volume may have.
    pub fn records(&self) -> Records<'_> {
        Records {
            texts: self.texts.as_slice(),
        }
    }

    /// The images that a trial begins with.
    pub fn of(&self, from: Base) -> &Images {
        match from {
            Base::NoVolume => &self.none,
            Base::Empty => &self.empty,
            Base::Clean => &self.clean,
            Base::Active => &self.active,
        }
    }
}

fn cleaned(form: Form) -> &'static str {
    if form.mirrored {
        CLEANED
    } else {
        CLEANED_ALONE
    }
}

/// What is known of the volume of this form as a trial begins: it holds what its lowest plex was full of, which is on the disk, and what was
/// written to it. One that is not recorded will hold the same.
pub fn known(alloc: Global, from: Base, form: Form, disk: &str) -> Result<Known, Finding> {
    let lowest = if disk == "disk02" { OTHER } else { LOWEST };
    let mut bytes = Vec::new(alloc);
    for block in 0..LENGTH {
        bytes.push(fill(lowest, block))?;
    }
    let candidates = Candidates::new(alloc, bytes.as_slice())?;
    match from {
        Base::NoVolume => Ok(Known::new(None, form, candidates)),
        Base::Empty => Ok(Known::new(Some(VolumeState::Empty), form, candidates)),
        Base::Clean => Ok(Known::new(Some(VolumeState::Clean), form, candidates)),
        Base::Active => started(alloc, form, candidates),
    }
}

/// What is known of the volume once it was started, written and left.
fn started(alloc: Global, form: Form, candidates: Candidates) -> Result<Known, Finding> {
    let mut known = Known::new(Some(VolumeState::Clean), form, candidates);
    let steps = steps_of(alloc, TO_ACTIVE)?;
    take_all(&mut known, steps.as_slice(), STARTED)?;
    known.end();
    Ok(known)
}

/// The steps of a script.
pub fn steps_of(alloc: Global, script: &str) -> Result<Vec<Step>, Finding> {
    let mut steps = Vec::new(alloc);
    for line in script.lines() {
        match Step::read(line) {
            Some(step) => steps.push(step)?,
            None => return Err(Finding::Records),
        }
    }
    Ok(steps)
}

/// What a block of a plex is full of before anything was done.
fn fill(plex: u8, block: u64) -> u8 {
    plex | u8::try_from(block / REGION).unwrap_or(0)
}

/// The images, to be looked at.
pub fn slices(alloc: Global, images: &Images) -> Result<Vec<&[u8]>, AllocError> {
    let mut slices = Vec::new(alloc);
    for image in images {
        slices.push(image.as_slice())?;
    }
    Ok(slices)
}

/// The images again.
pub fn copy(alloc: Global, images: &Images) -> Result<Images, AllocError> {
    let mut copies = Vec::new(alloc);
    for image in images {
        copies.push(Vec::from_slice(alloc, image.as_slice())?)?;
    }
    Ok(copies)
}

/// Two devices without a header.
fn blank(alloc: Global) -> Result<Images, AllocError> {
    let mut images = Vec::new(alloc);
    images.push(blank_image(alloc, LOWEST)?)?;
    images.push(blank_image(alloc, OTHER)?)?;
    Ok(images)
}

fn blank_image(alloc: Global, plex: u8) -> Result<Vec<u8>, AllocError> {
    let mut image = Vec::new(alloc);
    push_sectors(&mut image, PRIVATE, 0)?;
    for block in 0..LENGTH {
        push_sectors(&mut image, 1, fill(plex, block))?;
    }
    push_sectors(&mut image, LOG_SECTORS, OLD_LOG)?;
    Ok(image)
}

fn push_sectors(image: &mut Vec<u8>, count: u64, byte: u8) -> Result<(), AllocError> {
    let bytes = count.saturating_mul(512) as usize;
    image.resize(image.len().saturating_add(bytes), byte)
}

/// What is left of the images after a script that answers so.
fn after(alloc: Global, images: &Images, script: &str, wanted: &str) -> Result<Images, Finding> {
    let images = slices(alloc, images)?;
    let ran = run_on(alloc, images.as_slice(), None, script)?;
    if ran.answers() != wanted {
        return Err(Finding::Answer(0));
    }
    let mut left = Vec::new(alloc);
    for image in ran.images(alloc)? {
        left.push(Vec::from_slice(alloc, image)?)?;
    }
    Ok(left)
}
