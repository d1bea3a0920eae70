//! A volume that gets logs or loses them: what is known of it by the answers, what is wanted of its logs, and how new logs are answered.
use crate::bytes::{decimal, has};
use crate::finding::Finding;
use crate::form::Is;
use crate::known::Known;
use crate::private::{newest, slot_of};
use crate::state::{PlexState, VolumeState};
use crate::step::{Answer, Sort, Step};
use crate::volume::{DIRTY, Volume};
use std::alloc::Global;

/// The words of a line `vxsnap prepare v [ndcomirs=N] [regionsize=LENGTH]`.
#[derive(Clone, Copy)]
pub struct NewLogs {
    pub count: u64,
    /// The blocks of the volume's regions from then on, where that is said.
    pub region: Option<u64>,
}

impl NewLogs {
    pub fn read(line: &str) -> Option<NewLogs> {
        let words = line.strip_prefix("vxsnap prepare v")?;
        let mut new = NewLogs {
            count: 1,
            region: None,
        };
        for word in words.split_whitespace() {
            if let Some(count) = word.strip_prefix("ndcomirs=") {
                new.count = decimal(count)?;
            } else {
                new.region = Some(length_of(word.strip_prefix("regionsize=")?)?);
            }
        }
        Some(new)
    }
}

/// The sectors of a length of so many sectors, or of so many times 1,024 bytes with `k` behind them.
fn length_of(word: &str) -> Option<u64> {
    match word.strip_suffix("k") {
        Some(digits) => Some(decimal(digits)?.saturating_mul(2)),
        None => decimal(word),
    }
}

// ---- what is known

impl Known {
    /// An empty log is written, and then the records of the logs are added by a commit. Where a fault of a disk is told it is one of the
    /// log, of which nothing is recorded then.
    pub(crate) fn prepare(&mut self, step: Step, answer: Answer<'_>) -> bool {
        match answer.sort {
            Sort::Ok => {
                let fits = self.is_there() && self.logged != Is::So && answer.rest.is_empty();
                self.logged = Is::So;
                self.region = step.region.unwrap_or(self.region);
                fits
            }
            Sort::Refused => self.refuses_logs(step, answer.rest),
            Sort::Fault if answer.name != "group" => {
                let fits = self.is_there() && self.logged != Is::So && self.log_failed;
                self.logged = Is::Not;
                fits
            }
            Sort::Fault | Sort::Lost => self.loses_group(Is::Not),
        }
    }

    /// The records of the logs are removed by a commit, and nothing else is done.
    pub(crate) fn unprepare(&mut self, answer: Answer<'_>) -> bool {
        match answer.sort {
            Sort::Ok => {
                let fits = self.is_there() && self.logged != Is::Not && answer.rest.is_empty();
                self.logged = Is::Not;
                fits && self.mirrored != Is::So
            }
            Sort::Refused => self.refuses_loss(answer.rest),
            Sort::Fault if answer.name != "group" => false,
            Sort::Fault | Sort::Lost => self.loses_group(Is::So),
        }
    }

    /// The group is lost in the commit, or the power at any call. The volume may have its logs or not, where it had them or not, as the
    /// command wants it.
    fn loses_group(&mut self, before: Is) -> bool {
        if self.logged == before {
            self.logged = Is::Unsure;
        }
        let may_be = self.is_there();
        self.end();
        may_be
    }

    /// Whether new logs may be refused so: there is no group, no volume, it has logs, it runs with other regions, or good disks have no
    /// room for them.
    fn refuses_logs(&self, step: Step, refusal: &str) -> bool {
        match refusal {
            "no group -" => self.imported != Is::So,
            "no object v" => self.imported == Is::So && self.states.may_be_unrecorded(),
            "exists v_dco" => self.is_there() && self.logged != Is::Not,
            "state ACTIVE" => step.region.is_some() && self.runs != Is::Not,
            _ => self.is_there() && self.logged != Is::So && refusal.starts_with("no space "),
        }
    }

    /// Whether it may be refused so that logs go: there is no group, no volume, it has none, or they are needed.
    fn refuses_loss(&self, refusal: &str) -> bool {
        match refusal {
            "no group -" => self.imported != Is::So,
            "no object v" => self.imported == Is::So && self.states.may_be_unrecorded(),
            "no log v" => self.is_there() && self.logged != Is::So,
            _ => refusal == "in use v_dco" && self.is_there() && self.mirrored != Is::Not,
        }
    }
}

// ---- what is wanted of the logs

/// The log of an EMPTY volume is EMPTY, that of another ACTIVE. Where no write of it has failed, each copy on good disks has its header
/// once the volume was started, and while it is stopped no region is dirty.
pub(crate) fn look_at_logs(volume: &Volume, known: &Known) -> Result<(), Finding> {
    let state = if volume.state == VolumeState::Empty {
        PlexState::Empty
    } else {
        PlexState::Active
    };
    for log in &volume.logs {
        if log.state != state {
            return Err(Finding::PlexState);
        }
        if state == PlexState::Active && log.held && !known.log_failed && !volume.counts(log) {
            return Err(Finding::NoHeader);
        }
    }
    if volume.state == VolumeState::Clean && !known.log_failed {
        return look_at_dirty(volume);
    }
    Ok(())
}

/// No copy of the log shows a dirty region.
fn look_at_dirty(volume: &Volume) -> Result<(), Finding> {
    for region in 0..volume.regions() {
        if has(volume.possible(region), DIRTY) {
            return Err(Finding::Dirty(region));
        }
    }
    Ok(())
}

// ---- how they are answered

/// The answer of new logs of a volume that has none: each takes a good disk, and there is room on each of these.
pub fn logs_of(alloc: Global, images: &[&[u8]], new: NewLogs) -> Result<String, Finding> {
    let good = newest(images)?.good;
    let mut disks = 0u64;
    for image in images {
        if has(good, slot_of(image)) {
            disks = disks.saturating_add(1);
        }
    }
    let answer = if disks < new.count {
        "refused no space 0 560"
    } else {
        "ok"
    };
    Ok(String::from_str(alloc, answer)?)
}
