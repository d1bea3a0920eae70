//! What is known of the volume by the answers that were given.
use crate::candidates::Candidates;
use crate::finding::Finding;
use crate::form::{Form, Is};
use crate::state::{States, VolumeState};
use crate::step::{Answer, Command, Sort, Step, byte_of, region_of};

/// The blocks of a region, where nothing else is said.
pub const REGION: u64 = 128;

/// The candidates of the volume, the states in which it may be recorded, whether its group is imported and it runs, and what commands have
/// changed of its form.
#[derive(Drop)]
pub struct Known {
    pub candidates: Candidates,
    /// Whether a write of the log has failed: then it may show marks that were to be taken away.
    pub log_failed: bool,
    /// Whether a write of data has failed: then a plex may be marked that was copied to.
    pub data_failed: bool,
    pub(crate) states: States,
    pub(crate) imported: Is,
    pub(crate) runs: Is,
    /// The blocks of its regions, unless it is unsure whether it has the logs that were to give it others.
    pub(crate) region: u64,
    /// Whether the plex of a mirror is recorded.
    pub(crate) mirrored: Is,
    /// Whether a mirror was done.
    pub(crate) copied: bool,
    /// Whether logs are recorded.
    pub(crate) logged: Is,
}

impl Known {
    /// Of a volume in this state and of this form, or one that is not recorded and is to have this form, whose group is not imported.
    pub fn new(state: Option<VolumeState>, form: Form, candidates: Candidates) -> Known {
        let states = match state {
            Some(state) => States::none().and(state),
            None => States::unrecorded(),
        };
        Known {
            candidates,
            log_failed: false,
            data_failed: false,
            states,
            imported: Is::Not,
            runs: Is::Not,
            region: form.region,
            mirrored: Is::of(form.mirrored),
            copied: false,
            logged: Is::of(form.logged),
        }
    }

    /// Whether the volume may be recorded.
    pub fn may_be_recorded(&self) -> bool {
        self.states.may_be_recorded()
    }

    /// Whether the volume may not be recorded.
    pub fn may_be_unrecorded(&self) -> bool {
        self.states.may_be_unrecorded()
    }

    /// Whether the volume may be recorded so.
    pub fn may_be(&self, state: VolumeState) -> bool {
        self.states.has(state)
    }

    /// What is found where the volume is recorded in a form in which it may not be.
    pub fn misfit(&self, form: Form) -> Option<Finding> {
        if !self.mirrored.may_be(form.mirrored) {
            return Some(if form.mirrored {
                Finding::Mirrored
            } else {
                Finding::NotMirrored
            });
        }
        if !self.logged.may_be(form.logged) {
            return Some(if form.logged {
                Finding::Logged
            } else {
                Finding::NotLogged
            });
        }
        None
    }

    /// The volume was found to be recorded in this form.
    pub fn find(&mut self, form: Form) {
        self.region = form.region;
        self.mirrored = Is::of(form.mirrored);
        self.logged = Is::of(form.logged);
    }

    /// How many regions the volume has.
    pub(crate) fn regions(&self) -> u64 {
        self.candidates.blocks().div_ceil(self.region.max(1))
    }

    /// All devices are given back.
    pub fn end(&mut self) {
        self.imported = Is::Not;
        self.runs = Is::Not;
    }

    /// Takes an answer. It tells whether that may be given here.
    fn take(&mut self, step: Step, answer: Answer<'_>) -> bool {
        match step.command {
            Command::Import => self.import(answer),
            Command::Deport => self.deport(answer),
            Command::Make => self.make(answer),
            Command::Start => self.start(answer),
            Command::Recover => self.recover(answer),
            Command::Mirror => self.mirror(answer),
            Command::Prepare => self.prepare(step, answer),
            Command::Unprepare => self.unprepare(answer),
            Command::Stop => self.stop(answer),
            Command::Read => self.read(step, answer),
            Command::Write => self.write(step, answer),
        }
    }

    // ---- the group

    /// What was started is recorded as one that has to be made equal. A commit that failed may have done so.
    fn import(&mut self, answer: Answer<'_>) -> bool {
        match answer.sort {
            Sort::Ok => {
                self.imported = Is::So;
                self.states = self.states.imported();
                answer.rest.is_empty()
            }
            Sort::Refused => true,
            Sort::Fault | Sort::Lost => {
                if self.states.may_be_started() {
                    self.states = self.states.and(VolumeState::NeedSync);
                }
                true
            }
        }
    }

    fn deport(&mut self, answer: Answer<'_>) -> bool {
        match answer.sort {
            Sort::Ok => {
                let may_be = self.imported != Is::Not && self.runs != Is::So;
                self.end();
                may_be && answer.rest.is_empty()
            }
            Sort::Refused => self.refuses_deport(answer.rest),
            Sort::Fault => false,
            Sort::Lost => {
                self.end();
                answer.rest.is_empty()
            }
        }
    }

    fn refuses_deport(&self, refusal: &str) -> bool {
        match refusal {
            "in use v" => self.runs != Is::Not,
            "no group dg" => self.imported != Is::So,
            _ => false,
        }
    }

    // ---- the volume is made

    /// Its records are added by a commit, EMPTY, and then it is started.
    fn make(&mut self, answer: Answer<'_>) -> bool {
        let may_be = self.imported == Is::So && self.states.may_be_unrecorded();
        match answer.sort {
            Sort::Ok => {
                self.states = States::none().and(VolumeState::Active);
                self.runs = Is::So;
                may_be
            }
            Sort::Refused => self.refuses_make(may_be, answer.rest),
            Sort::Fault if answer.name != "group" => {
                self.states = States::none()
                    .and(VolumeState::Empty)
                    .and(VolumeState::Active);
                self.runs = Is::Unsure;
                may_be
            }
            Sort::Fault | Sort::Lost => {
                self.states = self.states.and(VolumeState::Empty).and(VolumeState::Active);
                self.end();
                may_be
            }
        }
    }

    /// Whether a volume that may be made may be refused so, or the group is not there. What the start refuses is recorded.
    fn refuses_make(&mut self, may_be: bool, refusal: &str) -> bool {
        match refusal {
            "no log v" | "no current 0" => {
                self.states = States::none().and(VolumeState::Empty);
                may_be
            }
            "no group -" => self.imported != Is::So,
            _ => may_be && refusal.starts_with("too few disks "),
        }
    }

    // ---- the volume's start and stop

    fn start(&mut self, answer: Answer<'_>) -> bool {
        match answer.sort {
            Sort::Ok => {
                let may_be = self.is_there() && self.runs != Is::So;
                self.states = States::none().and(VolumeState::Active);
                self.runs = Is::So;
                may_be
            }
            Sort::Refused => self.refuses(answer.rest),
            Sort::Fault if answer.name != "group" => {
                self.runs = Is::Unsure;
                self.states = self.states.and(VolumeState::Active);
                self.is_there()
            }
            Sort::Fault | Sort::Lost => {
                self.end();
                self.states = self.states.and(VolumeState::Active);
                true
            }
        }
    }

    /// A volume that was left started is recovered. Where that is not done its recovery may be recorded as begun or as ended.
    fn recover(&mut self, answer: Answer<'_>) -> bool {
        let may_be = self.is_there() && self.runs != Is::So;
        if answer.sort == Sort::Ok {
            self.states = States::none().and(VolumeState::Active);
            self.runs = Is::So;
            return may_be && answer.rest.is_empty();
        }
        self.states = self.states.and(VolumeState::Sync).and(VolumeState::Active);
        self.end();
        may_be
    }

    fn stop(&mut self, answer: Answer<'_>) -> bool {
        match answer.sort {
            Sort::Ok => {
                let may_be = self.runs != Is::Not;
                self.states = States::none().and(VolumeState::Clean);
                self.runs = Is::Not;
                may_be && answer.rest.is_empty()
            }
            Sort::Refused => {
                let may_be = self.runs != Is::So && self.refuses(answer.rest);
                self.runs = Is::Not;
                may_be
            }
            Sort::Fault if answer.name != "group" => self.runs(),
            Sort::Fault | Sort::Lost => {
                self.end();
                self.states = self.states.and(VolumeState::Clean);
                true
            }
        }
    }

    // ---- what all of them ask

    /// Whether the group is imported and the volume may be recorded.
    pub(crate) fn is_there(&self) -> bool {
        self.imported == Is::So && self.states.may_be_recorded()
    }

    /// Whether a start or a stop may be refused so.
    fn refuses(&self, refusal: &str) -> bool {
        if refusal == "no object v" {
            return self.imported == Is::So && self.states.may_be_unrecorded();
        }
        match refusal.strip_prefix("state ") {
            Some(word) => self.may_be_called(word),
            None => self.is_there() || refusal.starts_with("no group"),
        }
    }

    /// Whether the volume may be recorded in the state of this word.
    fn may_be_called(&self, word: &str) -> bool {
        match VolumeState::read(word) {
            Some(state) => self.may_be(state),
            None => false,
        }
    }

    /// The volume has answered, so it runs. Whether it may.
    pub(crate) fn runs(&mut self) -> bool {
        let may_be = self.runs != Is::Not;
        self.runs = Is::So;
        may_be
    }

    /// The volume does not run. Whether that may be.
    pub(crate) fn rests(&mut self, refusal: &str) -> bool {
        let may_be = self.runs != Is::So && refusal == "not started v";
        self.runs = Is::Not;
        may_be
    }

    /// The volume was called, and the power may have gone.
    fn calls(&mut self, sort: Sort) -> bool {
        let may_be = self.runs();
        if sort == Sort::Lost {
            self.end();
        }
        may_be
    }

    // ---- reads and writes

    /// A write that is done leaves its value alone, in the regions that it was done in. It may have been written to the last
    /// region of one that failed. A fault tells at least one region.
    fn write(&mut self, step: Step, answer: Answer<'_>) -> bool {
        if answer.sort == Sort::Refused {
            return self.rests(answer.rest);
        }
        let Some(told) = self.parts_told(step, answer.rest) else {
            return false;
        };
        let fits = match answer.sort {
            Sort::Ok => told == self.regions_of(step),
            Sort::Fault => 0 < told,
            _ => true,
        };
        let done = if answer.sort == Sort::Ok {
            told
        } else {
            told.saturating_sub(1)
        };
        self.write_parts(step, done, told);
        self.calls(answer.sort) && fits
    }

    /// The first parts of a write are done, and the next up to those that are told may be.
    fn write_parts(&mut self, step: Step, done: u64, told: u64) {
        for block in step.start..step.end() {
            let part = self.part_of(step, block);
            if part < done {
                self.candidates.set(block, step.byte);
            } else if part < told {
                self.candidates.add(block, step.byte);
            }
        }
    }

    /// A read that is done has one of the candidates of each block, and leaves it alone.
    fn read(&mut self, step: Step, answer: Answer<'_>) -> bool {
        if answer.sort == Sort::Refused {
            return self.rests(answer.rest);
        }
        let Some(told) = self.parts_told(step, answer.rest) else {
            return false;
        };
        let fits = answer.sort != Sort::Ok
            || (told == self.regions_of(step) && self.read_blocks(step, answer.rest));
        self.calls(answer.sort) && fits
    }

    /// Whether the blocks that are told are all of a read, and each is a candidate.
    fn read_blocks(&mut self, step: Step, words: &str) -> bool {
        let mut block = step.start;
        for word in words.split_whitespace() {
            if region_of(word).is_none() {
                if !self.read_block(block, byte_of(word)) {
                    return false;
                }
                block = block.saturating_add(1);
            }
        }
        block == step.end()
    }

    /// Whether a block that was read holds a candidate, which it alone is then.
    fn read_block(&mut self, block: u64, byte: Option<u8>) -> bool {
        let is_among = self.candidates.has(block, byte);
        if let Some(byte) = byte {
            self.candidates.set(block, byte);
        }
        is_among
    }

    // ---- the regions of a call

    /// The region of a block.
    fn region_at(&self, block: u64) -> u64 {
        block / self.region.max(1)
    }

    /// How many regions of a step lie before that of a block.
    fn part_of(&self, step: Step, block: u64) -> u64 {
        self.region_at(block)
            .saturating_sub(self.region_at(step.start))
    }

    /// How many regions the blocks lie in.
    fn regions_of(&self, step: Step) -> u64 {
        self.part_of(step, step.end().saturating_sub(1))
            .saturating_add(1)
    }

    /// How many parts are told, where they are those of the first regions of the range.
    fn parts_told(&self, step: Step, words: &str) -> Option<u64> {
        let first = self.region_at(step.start);
        let mut told = 0u64;
        for word in words.split_whitespace() {
            if let Some(region) = region_of(word) {
                if region != first.saturating_add(told) {
                    return None;
                }
                told = told.saturating_add(1);
            }
        }
        if told <= self.regions_of(step) {
            Some(told)
        } else {
            None
        }
    }
}

/// Takes the answers of a script, a line for each step, and one before it where a volume was recovered.
pub fn take_all(known: &mut Known, steps: &[Step], answers: &str) -> Result<(), Finding> {
    let mut lines = answers.lines();
    let mut number = 0u64;
    for step in steps {
        number = number.saturating_add(1);
        let line = lines.next().unwrap_or("");
        let line = if tells_recovery(line) {
            lines.next().unwrap_or("")
        } else {
            line
        };
        if !take_line(known, *step, line) {
            return Err(Finding::Answer(number));
        }
    }
    match lines.next() {
        None => Ok(()),
        Some(_) => Err(Finding::Answer(number.saturating_add(1))),
    }
}

/// Whether the line tells of a volume that was recovered; the answer comes behind it.
pub fn tells_recovery(line: &str) -> bool {
    line.starts_with("volume v recovered ")
}

fn take_line(known: &mut Known, step: Step, line: &str) -> bool {
    match Answer::read(line) {
        Some(answer) => known.take(step, answer),
        None => false,
    }
}
