//! The devices as the sweeps begin, and what is known of them.
use crate::counts::Left;
use crate::model::Model;
use crate::reply::{Reply, judge_status, replies_of};
use crate::scenario::{Scenario, Step};
use crate::seen::Seen;
use crate::sound::look;
use crate::trial::{copy_of, run_on, slices};
use std::alloc::{AllocError, Global};
use vx_volume_judge::{Finding, PRIVATE};

/// The sectors of a device that are full of one byte, one run behind the other.
const RUN: u64 = 32;

#[derive(Drop)]
pub struct Base {
    pub images: Vec<Vec<u8>>,
    pub model: Model,
}

impl Base {
    /// What the first steps of a scenario leave.
    pub fn make(alloc: Global, scenario: &Scenario) -> Result<Base, Finding> {
        let blank = blank(alloc, scenario)?;
        let images = slices(alloc, &blank)?;
        let mut model = Model::new(alloc, &scenario.shape, images.as_slice())?;
        let steps = scenario.steps.get(..scenario.base).unwrap_or(&[]);
        let script = script_of(alloc, steps)?;
        let ran = run_on(
            alloc,
            images.as_slice(),
            scenario.bads.as_slice(),
            script.as_str(),
        )?;
        let replies = replies_of(alloc, ran.answers())?;
        judge_status(replies.as_slice(), ran.status)?;
        judge_wanted(steps, replies.as_slice())?;
        take_all(&mut model, steps, replies.as_slice())?;
        let left = ran.images(alloc)?;
        let seen = Seen::on(alloc, &scenario.shape, left.as_slice())?;
        look(&seen, &model)?;
        if Left::of(&seen) != scenario.left {
            return Err(Finding::Counts);
        }
        model.find(seen.form());
        Ok(Base {
            images: copy_of(alloc, left.as_slice())?,
            model,
        })
    }
}

/// The script of steps.
pub fn script_of(alloc: Global, steps: &[Step]) -> Result<String, AllocError> {
    let mut script = String::new(alloc);
    for step in steps {
        push_step(&mut script, step)?;
    }
    Ok(script)
}

/// Adds a step to a script.
pub fn push_step(script: &mut String, step: &Step) -> Result<(), AllocError> {
    script.push_str(step.line.as_str())?;
    script.push('\n')?;
    script.push_str(step.rest.as_str())?;
    Ok(())
}

/// Each answer is the one that is wanted.
pub fn judge_wanted(steps: &[Step], replies: &[Reply<'_>]) -> Result<(), Finding> {
    let mut number = 0u64;
    for (step, reply) in steps.iter().zip(replies) {
        number = number.saturating_add(1);
        if step.wanted.as_str() != reply.line {
            return Err(Finding::Answer(number));
        }
    }
    if steps.len() == replies.len() {
        Ok(())
    } else {
        Err(Finding::Answer(number.saturating_add(1)))
    }
}

/// Takes the replies of steps.
pub fn take_all(model: &mut Model, steps: &[Step], replies: &[Reply<'_>]) -> Result<(), Finding> {
    let mut number = 0u64;
    for (step, reply) in steps.iter().zip(replies) {
        number = number.saturating_add(1);
        if !model.take(step.line.as_str(), step.form, *reply) {
            return Err(Finding::Answer(number));
        }
    }
    Ok(())
}

/// Devices without a header. Behind the private region each run of sectors is full of a byte of its own, and no two devices hold the same.
fn blank(alloc: Global, scenario: &Scenario) -> Result<Vec<Vec<u8>>, AllocError> {
    let mut images = Vec::new(alloc);
    let mut device = 0u64;
    for sectors in &scenario.devices {
        let mut image = Vec::new(alloc);
        push_sectors(&mut image, PRIVATE.min(*sectors), 0)?;
        for sector in PRIVATE..*sectors {
            push_sectors(&mut image, 1, fill(device, sector))?;
        }
        images.push(image)?;
        device = device.saturating_add(1);
    }
    Ok(images)
}

/// What a sector of a device is full of before anything was done: 8 to 47.
fn fill(device: u64, sector: u64) -> u8 {
    let run = (sector.saturating_sub(PRIVATE) / RUN) % 8;
    let byte = device
        .saturating_add(1)
        .saturating_mul(8)
        .saturating_add(run);
    u8::try_from(byte).unwrap_or(0)
}

fn push_sectors(image: &mut Vec<u8>, count: u64, byte: u8) -> Result<(), AllocError> {
    let bytes = count.saturating_mul(512) as usize;
    image.resize(image.len().saturating_add(bytes), byte)
}
