//! A scenario: devices, the shape of a volume on them, a script that leaves the base, and the commands behind it that are swept.
use crate::counts::Left;
use crate::seen::Form;
use crate::shape::{Column, Extent, Log, Plex, Shape};
use crate::trial::{BadOf, DEVICES};
use std::alloc::{AllocError, Global};
use vx_piece::Bad;
use vx_volume_judge::{Finding, cut, decimal};

/// A command, with the answer that it has where nothing fails, and how much of the volume is recorded then.
#[derive(Drop)]
pub struct Step {
    pub line: String,
    /// The lines that belong to it, as records.
    pub rest: String,
    pub wanted: String,
    pub form: Form,
    /// Behind how many writes it is cut where faults are moved along the recovery of what that leaves.
    pub faults: Vec<u64>,
}

#[derive(Drop)]
pub struct Scenario {
    pub title: String,
    /// The sectors of each device.
    pub devices: Vec<u64>,
    /// The bad sectors of the script that leaves the base, and of those that are cut.
    pub bads: Vec<BadOf>,
    pub fails: Vec<BadOf>,
    pub shape: Shape,
    pub steps: Vec<Step>,
    /// How many of the steps leave the base. The others are swept.
    pub base: usize,
    /// Of the cuts of a command each of so many is followed by cuts of the import and of the recovery. Those of a write are all followed by cuts
    /// of the recovery.
    pub every: u64,
    /// How many regions are dirty in the base, and in how many a plex that is available is marked.
    pub left: Left,
}

impl Scenario {
    /// The scenario of a file: `title TEXT`; `device SECTORS` for each device; `length BLOCKS`, `region BLOCKS`; for each plex
    /// `plex NAME MAP UNIT`, and behind it for each column `column DEVICE FIRST COUNT`, each further run of its sectors `and DEVICE FIRST COUNT`;
    /// for each copy of the log `log NAME DEVICE FIRST COUNT`; `bad DEVICE FIRST COUNT read|write SKIP TIMES` for sectors that are bad as the base
    /// is made, and `fails ..` for those that are as commands are cut; `every N`; for each step `> COMMAND`, its further lines `| TEXT`,
    /// `< ANSWER`, where it changes what is recorded `has PLEXES LOGS`, and `faults N ..`; and before the first that is swept `sweep`, and behind
    /// that `left DIRTY MARKED` where some regions of the base are dirty, or some plexes marked.
    pub fn read(alloc: Global, text: &str) -> Result<Scenario, Finding> {
        let mut scenario = Scenario {
            title: String::new(alloc),
            devices: Vec::new(alloc),
            bads: Vec::new(alloc),
            fails: Vec::new(alloc),
            shape: Shape {
                length: 0,
                region: 1,
                plexes: Vec::new(alloc),
                logs: Vec::new(alloc),
            },
            steps: Vec::new(alloc),
            base: 0,
            every: 1,
            left: Left {
                dirty: 0,
                marked: 0,
            },
        };
        let mut number = 0u64;
        for line in text.lines() {
            number = number.saturating_add(1);
            let (word, rest) = cut(line, ' ').unwrap_or((line, ""));
            if scenario.take(alloc, word, rest)?.is_none() {
                return Err(Finding::Answer(number));
            }
        }
        Ok(scenario)
    }

    /// Takes a line. It is None where it is none.
    fn take(&mut self, alloc: Global, word: &str, rest: &str) -> Result<Option<()>, AllocError> {
        match word {
            "" => Ok(Some(())),
            "title" => {
                self.title = String::from_str(alloc, rest)?;
                Ok(Some(()))
            }
            "plex" | "column" | "and" | "log" => self.take_shape(alloc, word, rest),
            ">" | "|" | "<" | "faults" => self.take_step(alloc, word, rest),
            "device" => match decimal(rest) {
                Some(sectors) => {
                    self.devices.push(sectors)?;
                    Ok(Some(()))
                }
                None => Ok(None),
            },
            "bad" | "fails" => match bad_of(rest) {
                Some(bad) if word == "bad" => {
                    self.bads.push(bad)?;
                    Ok(Some(()))
                }
                Some(bad) => {
                    self.fails.push(bad)?;
                    Ok(Some(()))
                }
                None => Ok(None),
            },
            _ => Ok(self.take_figure(word, rest)),
        }
    }

    /// Takes a line that is a number, or two.
    fn take_figure(&mut self, word: &str, rest: &str) -> Option<()> {
        match word {
            "length" => self.shape.length = decimal(rest)?,
            "region" => self.shape.region = decimal(rest)?,
            "every" => self.every = decimal(rest)?,
            "sweep" => self.base = self.steps.len(),
            "left" => {
                let (dirty, marked) = cut(rest, ' ')?;
                self.left = Left {
                    dirty: decimal(dirty)?,
                    marked: decimal(marked)?,
                };
            }
            "has" => {
                let (plexes, logs) = cut(rest, ' ')?;
                self.steps.last_mut()?.form = Form {
                    plexes: decimal(plexes)?,
                    logs: decimal(logs)?,
                };
            }
            _ => return None,
        }
        Some(())
    }

    // ---- the shape

    fn take_shape(
        &mut self,
        alloc: Global,
        word: &str,
        rest: &str,
    ) -> Result<Option<()>, AllocError> {
        if word == "plex" {
            return self.add_plex(alloc, rest);
        }
        if word == "log" {
            return self.add_log(alloc, rest);
        }
        let (Some(plex), Some(extent)) = (self.shape.plexes.last_mut(), extent_of(rest)) else {
            return Ok(None);
        };
        if word == "column" {
            let mut extents = Vec::new(alloc);
            extents.push(extent)?;
            plex.columns.push(Column { extents })?;
            return Ok(Some(()));
        }
        match plex.columns.last_mut() {
            Some(column) => {
                column.extents.push(extent)?;
                Ok(Some(()))
            }
            None => Ok(None),
        }
    }

    fn add_plex(&mut self, alloc: Global, rest: &str) -> Result<Option<()>, AllocError> {
        let Some((name, map, unit)) = plex_of(rest) else {
            return Ok(None);
        };
        self.shape.plexes.push(Plex {
            name: String::from_str(alloc, name)?,
            map,
            unit,
            columns: Vec::new(alloc),
        })?;
        Ok(Some(()))
    }

    fn add_log(&mut self, alloc: Global, rest: &str) -> Result<Option<()>, AllocError> {
        let Some((name, words)) = cut(rest, ' ') else {
            return Ok(None);
        };
        let Some(extent) = extent_of(words) else {
            return Ok(None);
        };
        let mut extents = Vec::new(alloc);
        extents.push(extent)?;
        self.shape.logs.push(Log {
            name: String::from_str(alloc, name)?,
            sectors: Column { extents },
        })?;
        Ok(Some(()))
    }

    // ---- the steps

    fn take_step(
        &mut self,
        alloc: Global,
        word: &str,
        rest: &str,
    ) -> Result<Option<()>, AllocError> {
        if word == ">" {
            self.add_step(alloc, rest)?;
            return Ok(Some(()));
        }
        let Some(step) = self.steps.last_mut() else {
            return Ok(None);
        };
        match word {
            "|" => {
                step.rest.push_str(rest)?;
                step.rest.push('\n')?;
            }
            "<" => step.wanted = String::from_str(alloc, rest)?,
            _ => {
                for word in rest.split_whitespace() {
                    step.faults.push(decimal(word).unwrap_or(0))?;
                }
            }
        }
        Ok(Some(()))
    }

    fn add_step(&mut self, alloc: Global, line: &str) -> Result<(), AllocError> {
        let form = match self.steps.last() {
            Some(step) => step.form,
            None => Form { plexes: 0, logs: 0 },
        };
        self.steps.push(Step {
            line: String::from_str(alloc, line)?,
            rest: String::new(alloc),
            wanted: String::new(alloc),
            form,
            faults: Vec::new(alloc),
        })?;
        Ok(())
    }
}

/// The place of the device of a name.
fn device_of(word: &str) -> Option<u64> {
    let mut place = 0u64;
    for name in DEVICES {
        if word == name {
            return Some(place);
        }
        place = place.saturating_add(1);
    }
    None
}

/// The name, the map and the unit of a plex.
fn plex_of(rest: &str) -> Option<(&str, u64, u64)> {
    let (name, words) = cut(rest, ' ')?;
    let (map, unit) = cut(words, ' ')?;
    Some((name, decimal(map)?, decimal(unit)?))
}

/// `DEVICE FIRST COUNT`
fn extent_of(rest: &str) -> Option<Extent> {
    let (device, words) = cut(rest, ' ')?;
    let (first, count) = cut(words, ' ')?;
    Some(Extent {
        device: device_of(device)?,
        first: decimal(first)?,
        count: decimal(count)?,
    })
}

/// `DEVICE FIRST COUNT read|write SKIP TIMES`
fn bad_of(rest: &str) -> Option<BadOf> {
    let (device, words) = cut(rest, ' ')?;
    let (first, words) = cut(words, ' ')?;
    let (count, words) = cut(words, ' ')?;
    let (kind, words) = cut(words, ' ')?;
    let (skip, times) = cut(words, ' ')?;
    Some(BadOf {
        device: device_of(device)?,
        bad: Bad {
            start: decimal(first)?,
            count: decimal(count)?,
            on_read: kind == "read",
            on_write: kind == "write",
            skip: decimal(skip)?,
            times: decimal(times)?,
        },
    })
}
