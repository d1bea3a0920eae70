//! A volume that gets a mirror: what is known of it by the answers, what is wanted of its bytes, and how a mirror is answered.
use crate::bytes::{decimal, has};
use crate::finding::Finding;
use crate::form::Is;
use crate::known::Known;
use crate::private::{newest, slot_of};
use crate::step::{Answer, Sort};
use crate::volume::Volume;
use std::alloc::Global;

// ---- what is known

impl Known {
    /// Its map is marked on the log, its records are added by a commit, and then its plex is copied to. Where the log has not failed a
    /// fault is one of copying.
    pub(crate) fn mirror(&mut self, answer: Answer<'_>) -> bool {
        match answer.sort {
            Sort::Ok => {
                let fits = self.mirrored != Is::So && self.are_all(answer.rest);
                self.mirrored = Is::So;
                self.copied = true;
                self.runs() && fits
            }
            Sort::Refused => self.refuses_mirror(answer.rest),
            Sort::Fault if answer.name != "group" => {
                let is_sure = !self.log_failed || self.mirrored == Is::So;
                self.mirrored = if is_sure { Is::So } else { Is::Unsure };
                self.runs()
            }
            Sort::Fault | Sort::Lost => {
                if self.mirrored == Is::Not {
                    self.mirrored = Is::Unsure;
                }
                let may_be = self.runs != Is::Not;
                self.end();
                may_be
            }
        }
    }

    /// Whether it is told that all regions were copied.
    fn are_all(&self, words: &str) -> bool {
        match words.strip_prefix("copied ") {
            Some(count) => decimal(count) == Some(self.regions()),
            None => false,
        }
    }

    /// Whether a mirror may be refused so: there is no group, no volume, it does not run, it has no log, or no good disk is left.
    fn refuses_mirror(&mut self, refusal: &str) -> bool {
        match refusal {
            "no group -" => self.imported != Is::So,
            "no object v" => self.imported == Is::So && self.states.may_be_unrecorded(),
            "not started v" => self.is_there() && self.rests(refusal),
            "no log v" => self.logged != Is::So && self.runs(),
            _ => refusal == "too few disks 1" && self.runs(),
        }
    }

    /// Whether a mirror was done, and nothing has failed that marks a plex.
    fn is_copied(&self) -> bool {
        self.copied && !self.log_failed && !self.data_failed
    }
}

// ---- what is wanted of its bytes

/// Where a mirror was done, and nothing failed that marks a plex, each plex on good disks is unmarked on each copy of the log.
pub(crate) fn look_at_marks(volume: &Volume, region: u64, known: &Known) -> Result<(), Finding> {
    if !known.is_copied() {
        return Ok(());
    }
    for plex in &volume.plexes {
        if plex.held && has(volume.possible(region), plex.map) {
            return Err(Finding::Marked(region));
        }
    }
    Ok(())
}

// ---- how it is answered

/// The answer of a mirror of the volume, which was started and each plex of which lies on one good disk: a good disk has to be left.
pub fn mirror_of(alloc: Global, images: &[&[u8]], volume: &Volume) -> Result<String, Finding> {
    let good = newest(images)?.good;
    let mut disks = 0usize;
    for image in images {
        if has(good, slot_of(image)) {
            disks = disks.saturating_add(1);
        }
    }
    if disks <= volume.plexes.len() {
        return Ok(String::from_str(alloc, "refused too few disks 1")?);
    }
    Ok(format!(in alloc; "ok copied {}", volume.regions())?)
}
