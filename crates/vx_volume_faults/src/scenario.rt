//! A script and the answers that it has where nothing fails.
use crate::base::Base;
use std::alloc::{AllocError, Global};
use vx_volume_judge::{Command, Finding, Step, cut, decimal};

#[derive(Drop)]
pub struct Scenario {
    pub title: String,
    /// The files of the records that the volume may have; it begins with the first.
    pub records: Vec<String>,
    /// The disk of the only copy of the log that it has or is to have; with two copies or none it is empty.
    pub only_log: String,
    /// The disk of the only plex that there is before a mirror; with two plexes it is empty.
    pub only_plex: String,
    /// How the devices are as the script begins.
    pub from: Base,
    pub steps: Vec<Step>,
    pub script: String,
    /// The line that makes the volume; where it is recorded first it is empty.
    pub making: String,
    /// The line that gives it a mirror; where none does it is empty.
    pub mirroring: String,
    /// The last line that gives it logs, or takes them away, and whether it comes before a start; where none does it is empty.
    pub logging: String,
    pub logs_first: bool,
    /// The answers where nothing fails.
    pub wanted: String,
}

impl Scenario {
    /// The scenario of a file: `title TEXT`, `records FILE`, for other records that the volume may have `or FILE`, `from STATE` or
    /// `from NONE`, where the log has one copy `log DISK`, where there is one plex first `plex DISK`, and for each step a line `> COMMAND`
    /// and a line `< ANSWER`. In an answer `=XX*N` stands for N blocks.
    pub fn read(alloc: Global, text: &str) -> Result<Scenario, Finding> {
        let mut scenario = Scenario {
            title: String::new(alloc),
            records: Vec::new(alloc),
            only_log: String::new(alloc),
            only_plex: String::new(alloc),
            from: Base::Empty,
            steps: Vec::new(alloc),
            script: String::new(alloc),
            making: String::new(alloc),
            mirroring: String::new(alloc),
            logging: String::new(alloc),
            logs_first: true,
            wanted: String::new(alloc),
        };
        let mut number = 0u64;
        for line in text.lines() {
            number = number.saturating_add(1);
            let Some((word, rest)) = cut(line, ' ') else {
                return Err(Finding::Answer(number));
            };
            if !scenario.take(alloc, word, rest)? {
                return Err(Finding::Answer(number));
            }
        }
        Ok(scenario)
    }

    /// The disk of the lowest plex.
    pub fn lowest(&self) -> &str {
        if self.only_plex.is_empty() {
            "disk01"
        } else {
            self.only_plex.as_str()
        }
    }

    /// Takes a line. It tells whether it is one.
    fn take(&mut self, alloc: Global, word: &str, rest: &str) -> Result<bool, AllocError> {
        match word {
            "title" => self.title = String::from_str(alloc, rest)?,
            "records" | "or" => self.records.push(String::from_str(alloc, rest)?)?,
            "log" => self.only_log = String::from_str(alloc, rest)?,
            "plex" => self.only_plex = String::from_str(alloc, rest)?,
            "from" => return Ok(self.begin(rest)),
            ">" => return self.command(alloc, rest),
            "<" => self.answer(rest)?,
            _ => return Ok(false),
        }
        Ok(true)
    }

    fn begin(&mut self, state: &str) -> bool {
        match Base::read(state) {
            Some(from) => {
                self.from = from;
                true
            }
            None => false,
        }
    }

    /// Adds a step.
    fn command(&mut self, alloc: Global, line: &str) -> Result<bool, AllocError> {
        let Some(step) = Step::read(line) else {
            return Ok(false);
        };
        match step.command {
            Command::Make => self.making = String::from_str(alloc, line)?,
            Command::Mirror => self.mirroring = String::from_str(alloc, line)?,
            Command::Prepare | Command::Unprepare => self.take_logging(alloc, line)?,
            _ => {}
        }
        self.steps.push(step)?;
        self.script.push_str(line)?;
        self.script.push('\n')?;
        Ok(true)
    }

    /// Takes a line that gives the volume logs, or takes them away.
    fn take_logging(&mut self, alloc: Global, line: &str) -> Result<(), AllocError> {
        self.logging = String::from_str(alloc, line)?;
        self.logs_first = self.steps.iter().all(|step| step.command != Command::Start);
        Ok(())
    }

    /// Adds a wanted answer.
    fn answer(&mut self, line: &str) -> Result<(), AllocError> {
        let mut is_first = true;
        for word in line.split_whitespace() {
            if !is_first {
                self.wanted.push(' ')?;
            }
            is_first = false;
            self.blocks(word)?;
        }
        self.wanted.push('\n')?;
        Ok(())
    }

    /// Adds a word of an answer, as often as it says.
    fn blocks(&mut self, word: &str) -> Result<(), AllocError> {
        let Some((block, count)) = cut(word, '*') else {
            self.wanted.push_str(word)?;
            return Ok(());
        };
        self.wanted.push_str(block)?;
        for _ in 1..decimal(count).unwrap_or(0) {
            self.wanted.push(' ')?;
            self.wanted.push_str(block)?;
        }
        Ok(())
    }
}
