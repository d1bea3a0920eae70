//! Images that are changed by hand: wrong ones, of which each has to be found, and right ones beside them.
use crate::base::{Base, Bases, Images, LOG, copy, known, slices, steps_of};
use std::alloc::{AllocError, Global};
use vx_volume_judge::{
    Finding, Form, Known, PRIVATE, VolumeState, cut, decimal, hexadecimal, judge, take_all,
};

/// What imports the group, what starts the volume behind that, and the answers.
const TO_GROUP: &str = "vxdg import dg\n";

const GROUPED: &str = "ok\n";

const TO_START: &str = "vxdg import dg\nvxvol start v\n";

const STARTED: &str = "ok\nok copied 0\n";

/// What gives the volume a mirror, or logs, what takes them away, and the answers.
const MIRROR: (&str, &str) = ("vxassist mirror v", "ok copied 3");

const LOGS: (&str, &str) = ("vxsnap prepare v", "ok");

const NO_LOGS: (&str, &str) = ("vxsnap unprepare v", "ok");

/// Images in a state, with what is known of them.
#[derive(Drop)]
struct Case {
    title: String,
    images: Images,
    known: Known,
}

/// The lines that tell of each case of a file whether the judge finds of it what it has to. The file has for each case a line
/// `case STATE TITLE`, then its changes, or lines `known WORD` where something else is known, and a line `wanted TEXT`: what is found, or
/// `nothing`.
pub fn told(alloc: Global, bases: &Bases, text: &str) -> Result<Vec<String>, Finding> {
    let mut told = Vec::new(alloc);
    let mut case = begun(alloc, bases, "CLEAN ")?;
    let mut number = 0u64;
    for line in text.lines() {
        number = number.saturating_add(1);
        let (word, rest) = cut(line, ' ').ok_or(Finding::Answer(number))?;
        match word {
            "case" => case = begun(alloc, bases, rest)?,
            "wanted" => told.push(case.told(alloc, bases, rest)?)?,
            "known" => case.know(alloc, bases, rest)?,
            _ => {
                if case.change(alloc, word, rest)?.is_none() {
                    return Err(Finding::Answer(number));
                }
            }
        }
    }
    Ok(told)
}

/// The case of these words, before its changes.
fn begun(alloc: Global, bases: &Bases, words: &str) -> Result<Case, Finding> {
    let (state, title) = cut(words, ' ').ok_or(Finding::Records)?;
    let from = Base::read(state).ok_or(Finding::Records)?;
    Ok(Case {
        title: String::from_str(alloc, title)?,
        images: copy(alloc, bases.of(from))?,
        known: known_in(alloc, bases, state)?,
    })
}

/// What is known of the volume in this state.
fn known_in(alloc: Global, bases: &Bases, state: &str) -> Result<Known, Finding> {
    let from = Base::read(state).ok_or(Finding::Records)?;
    known(alloc, from, bases.form, "disk01")
}

/// The form, with logs or without.
fn logged(form: Form, logged: bool) -> Form {
    Form { logged, ..form }
}

impl Case {
    /// The line of the case.
    fn told(&self, alloc: Global, bases: &Bases, wanted: &str) -> Result<String, Finding> {
        let images = slices(alloc, &self.images)?;
        let found = match judge(alloc, images.as_slice(), bases.records(), &self.known) {
            Ok(_) => String::from_str(alloc, "nothing")?,
            Err(finding) => format!(in alloc; "{finding}")?,
        };
        if found.as_str() == wanted {
            Ok(format!(in alloc; "{}: ok", self.title)?)
        } else {
            Ok(format!(in alloc; "{}: {found}", self.title)?)
        }
    }

    /// What is known: `known STATE` the volume in another state, `known ALONE` that it has one plex, `known MIRROR` that a mirror of it was
    /// answered to be done, `known LOGS` and `known NO_LOGS` that it was answered that it got logs or lost them.
    fn know(&mut self, alloc: Global, bases: &Bases, word: &str) -> Result<(), Finding> {
        let form = bases.form;
        let alone = Form {
            mirrored: false,
            ..form
        };
        match word {
            "ALONE" => {
                self.known.find(alone);
                Ok(())
            }
            "MIRROR" => self.answered(alloc, alone, MIRROR),
            "LOGS" => self.answered(alloc, logged(form, false), LOGS),
            "NO_LOGS" => self.answered(alloc, logged(form, true), NO_LOGS),
            _ => {
                self.known = known_in(alloc, bases, word)?;
                Ok(())
            }
        }
    }

    /// A line was answered so, of the volume in a form before it; where it may run, behind a start.
    fn answered(&mut self, alloc: Global, before: Form, line: (&str, &str)) -> Result<(), Finding> {
        let (head, answers) = if self.known.may_be(VolumeState::Active) {
            (TO_START, STARTED)
        } else {
            (TO_GROUP, GROUPED)
        };
        let script = format!(in alloc; "{head}{}\n", line.0)?;
        let answers = format!(in alloc; "{answers}{}\n", line.1)?;
        self.known.find(before);
        let steps = steps_of(alloc, script.as_str())?;
        take_all(&mut self.known, steps.as_slice(), answers.as_str())?;
        self.known.end();
        Ok(())
    }

    /// Does a change. It is None where that is no change.
    fn change(&mut self, alloc: Global, word: &str, rest: &str) -> Result<Option<()>, AllocError> {
        match word {
            "fill" => Ok(self.fill(rest)),
            "may" => Ok(self.may(rest)),
            "mark" => Ok(self.mark(rest)),
            "flip" => Ok(self.flip(rest)),
            "text" => self.text(alloc, rest),
            _ => Ok(None),
        }
    }

    /// `fill PLEX BLOCK XX`: a block of a plex is full of a byte.
    fn fill(&mut self, rest: &str) -> Option<()> {
        let (plex, rest) = read_number(rest)?;
        let (block, byte) = read_number(rest)?;
        let byte = hexadecimal(byte)?;
        let first = PRIVATE.saturating_add(block).saturating_mul(512) as usize;
        let image = self.images.get_mut(plex as usize)?.as_mut_slice();
        image.get_mut(first..first.saturating_add(512))?.fill(byte);
        Some(())
    }

    /// `may BLOCK XX`: the block may be full of this byte too.
    fn may(&mut self, rest: &str) -> Option<()> {
        let (block, byte) = read_number(rest)?;
        self.known.candidates.add(block, hexadecimal(byte)?);
        Some(())
    }

    /// `mark COPY MAP XX`: these regions, as bits, are marked in a map of a copy of the log. Each map has 16 sectors, the first of
    /// which is blank.
    fn mark(&mut self, rest: &str) -> Option<()> {
        let (log, rest) = read_number(rest)?;
        let (map, regions) = read_number(rest)?;
        let slot = LOG.saturating_add(map.saturating_add(3).saturating_mul(16));
        let place = slot.saturating_add(1).saturating_mul(512);
        *self.byte(log, place)? |= hexadecimal(regions)?;
        Some(())
    }

    /// `flip IMAGE PLACE`: the lowest bit of a byte is turned.
    fn flip(&mut self, rest: &str) -> Option<()> {
        let (image, place) = read_number(rest)?;
        *self.byte(image, decimal(place)?)? ^= 1;
        Some(())
    }

    fn byte(&mut self, image: u64, place: u64) -> Option<&mut u8> {
        self.images.get_mut(image as usize)?.get_mut(place as usize)
    }

    /// `text OLD NEW`: a text is written over wherever it stands. A comma is the end of a line and the tab of the next.
    fn text(&mut self, alloc: Global, rest: &str) -> Result<Option<()>, AllocError> {
        let Some((old, new)) = cut(rest, ' ') else {
            return Ok(None);
        };
        let old = lines_of(alloc, old)?;
        let new = lines_of(alloc, new)?;
        for image in self.images.iter_mut() {
            write_over(image, old.as_slice(), new.as_slice());
        }
        Ok(Some(()))
    }
}

fn lines_of(alloc: Global, text: &str) -> Result<Vec<u8>, AllocError> {
    let mut lines = Vec::new(alloc);
    for byte in text.as_bytes() {
        if *byte == b',' {
            lines.extend_from_slice(b"\n\t")?;
        } else {
            lines.push(*byte)?;
        }
    }
    Ok(lines)
}

/// Writes bytes over each place where others stand.
fn write_over(image: &mut Vec<u8>, old: &[u8], new: &[u8]) {
    for place in 0..image.len() {
        if stand_at(image.as_slice(), place, old) {
            write_at(image, place, new);
        }
    }
}

fn stand_at(bytes: &[u8], place: usize, wanted: &[u8]) -> bool {
    match bytes.get(place..) {
        Some(rest) => rest.starts_with(wanted),
        None => false,
    }
}

fn write_at(bytes: &mut Vec<u8>, place: usize, new: &[u8]) {
    for (byte, to) in bytes.iter_mut().skip(place).zip(new) {
        *byte = *to;
    }
}

/// The number up to the first blank, and the text behind that.
fn read_number(text: &str) -> Option<(u64, &str)> {
    let (number, rest) = cut(text, ' ')?;
    Some((decimal(number)?, rest))
}
