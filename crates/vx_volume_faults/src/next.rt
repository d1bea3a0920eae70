//! The run behind another: its script, and what is wanted of its answers.
use crate::scenario::Scenario;
use std::alloc::{AllocError, Global};
use vx_volume_judge::{
    Finding, NewLogs, Volume, Want, logs_of, lone_start_of, making_of, mirror_of, start_of,
};

/// What starts the volume where it is recorded.
const START: &str = "vxvol start v";

/// A read that has a part in each region.
const READ: &str = "read v 126 132";

#[derive(Drop)]
pub struct Next {
    pub script: String,
    pub wanted: Vec<Want>,
}

impl Next {
    /// The group is imported, and the volume, which is on these images or not, is started or made, and read. A command that was to give it
    /// logs or a mirror, or to take its logs away, is given again where that is not done.
    pub fn of(
        alloc: Global,
        scenario: &Scenario,
        images: &[&[u8]],
        volume: &Option<Volume>,
    ) -> Result<Next, Finding> {
        let mut next = Next {
            script: String::new(alloc),
            wanted: Vec::new(alloc),
        };
        next.want(alloc, "vxdg import dg", "ok")?;
        match volume {
            Some(volume) => next.go_on(alloc, scenario, images, volume)?,
            None => {
                let making = scenario.making.as_str();
                let answer = making_of(alloc, images, making)?;
                let _ = next.begin(alloc, making, answer.as_str())?;
            }
        }
        Ok(next)
    }

    /// The lines of a volume that is recorded. Logs come or go before the start, if they did so in the scenario, else behind it.
    fn go_on(
        &mut self,
        alloc: Global,
        scenario: &Scenario,
        images: &[&[u8]],
        volume: &Volume,
    ) -> Result<(), Finding> {
        let logging = logging_of(alloc, scenario, images, volume)?;
        let done = logging.as_str() == "ok";
        if scenario.logs_first && !logging.is_empty() {
            self.want(alloc, scenario.logging.as_str(), logging.as_str())?;
        }
        let start = if scenario.logs_first && done {
            lone_start_of(alloc, volume)?
        } else {
            start_of(alloc, volume)?
        };
        let runs = self.begin(alloc, START, start.as_str())?;
        if !scenario.logs_first && !logging.is_empty() {
            self.want(alloc, scenario.logging.as_str(), logging.as_str())?;
            self.read(runs)?;
        }
        if !scenario.mirroring.is_empty() && !volume.form().mirrored {
            let mirror = mirror_of(alloc, images, volume)?;
            self.want_if(alloc, runs, scenario.mirroring.as_str(), mirror.as_str())?;
            self.read(runs)?;
        }
        Ok(())
    }

    /// The line that starts the volume or makes it, and two reads. It tells whether the volume runs.
    fn begin(&mut self, alloc: Global, line: &str, answer: &str) -> Result<bool, AllocError> {
        let runs = answer.starts_with("ok");
        self.want(alloc, line, answer)?;
        self.read(runs)?;
        Ok(runs)
    }

    /// A read of each of two plexes.
    fn read(&mut self, runs: bool) -> Result<(), AllocError> {
        self.add(READ, want_ok(runs))?;
        self.add(READ, want_ok(runs))
    }

    /// A line and its answer.
    fn want(&mut self, alloc: Global, line: &str, answer: &str) -> Result<(), AllocError> {
        self.add(line, Want::Exactly(String::from_str(alloc, answer)?))
    }

    /// A line and its answer where the volume runs.
    fn want_if(
        &mut self,
        alloc: Global,
        runs: bool,
        line: &str,
        answer: &str,
    ) -> Result<(), AllocError> {
        if runs {
            self.want(alloc, line, answer)
        } else {
            self.add(line, Want::Anything)
        }
    }

    fn add(&mut self, line: &str, want: Want) -> Result<(), AllocError> {
        self.script.push_str(line)?;
        self.script.push('\n')?;
        self.wanted.push(want)?;
        Ok(())
    }
}

/// What is wanted of a read.
fn want_ok(runs: bool) -> Want {
    if runs { Want::Ok } else { Want::Anything }
}

/// The answer of the command by which the volume gets logs or loses them, where that is not done. Else, or where there is none, it is empty.
fn logging_of(
    alloc: Global,
    scenario: &Scenario,
    images: &[&[u8]],
    volume: &Volume,
) -> Result<String, Finding> {
    let line = scenario.logging.as_str();
    let has_logs = volume.is_logged();
    match NewLogs::read(line) {
        Some(new) if !has_logs => logs_of(alloc, images, new),
        None if has_logs && !line.is_empty() => Ok(String::from_str(alloc, "ok")?),
        _ => Ok(String::new(alloc)),
    }
}
