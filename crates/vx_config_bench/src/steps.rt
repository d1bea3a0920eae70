//! The steps from a text to a text.
use std::alloc::Global;
use vx_base::OutOfMemory;
use vx_objects::{Config, Edit, ObjectFault, PolicyName, VolState};
use vx_print::{PrintFault, print_m};
use vx_record::{RecordFault, read};

#[derive(Clone, Copy)]
pub enum Step {
    Read,
    Check,
    Edit,
    Print,
}

impl Step {
    /// The step of that name, or the last.
    pub fn named(word: &[u8]) -> Step {
        if is(word, b"read") {
            Step::Read
        } else if is(word, b"check") {
            Step::Check
        } else if is(word, b"edit") {
            Step::Edit
        } else {
            Step::Print
        }
    }
}

fn is(word: &[u8], name: &[u8]) -> bool {
    word == name
}

/// What the last step found: records, subdisks, or bytes; none where the text was refused.
pub fn far(alloc: Global, step: Step, text: &[u8]) -> Result<Option<usize>, OutOfMemory> {
    let records = match read(alloc, text) {
        Ok(records) => records,
        Err(RecordFault::BadRecord(_)) => return Ok(None),
        Err(RecordFault::OutOfMemory) => return Err(OutOfMemory),
    };
    if let Step::Read = step {
        return Ok(Some(records.as_slice().len()));
    }
    match Config::read(alloc, records.as_slice()) {
        Ok(mut config) => further(alloc, step, &mut config),
        Err(fault) => refused(&fault),
    }
}

fn refused(fault: &ObjectFault) -> Result<Option<usize>, OutOfMemory> {
    match fault {
        ObjectFault::OutOfMemory => Err(OutOfMemory),
        _ => Ok(None),
    }
}

fn further(alloc: Global, step: Step, config: &mut Config) -> Result<Option<usize>, OutOfMemory> {
    match step {
        Step::Read | Step::Check => Ok(Some(config.subdisks.as_slice().len())),
        Step::Edit => edited(alloc, config),
        Step::Print => match edited(alloc, config)? {
            Some(_) => printed(alloc, config),
            None => Ok(None),
        },
    }
}

/// Sets the first volume ACTIVE.
fn edited(alloc: Global, config: &mut Config) -> Result<Option<usize>, OutOfMemory> {
    let Some(first) = config.volumes.as_slice().first() else {
        return Ok(None);
    };
    let edit = Edit::SetVol {
        vol: first.name,
        state: VolState::Active,
        policy: PolicyName::Round,
    };
    match config.apply(alloc, &[edit]) {
        Ok(()) => Ok(Some(config.subdisks.as_slice().len())),
        Err(fault) => refused(&fault),
    }
}

fn printed(alloc: Global, config: &Config) -> Result<Option<usize>, OutOfMemory> {
    let mut out = Vec::new(alloc);
    match print_m(alloc, config, None, &mut out) {
        Ok(()) => Ok(Some(out.len())),
        Err(fault) => unprinted(&fault),
    }
}

fn unprinted(fault: &PrintFault) -> Result<Option<usize>, OutOfMemory> {
    match fault {
        PrintFault::NoObject(_) => Ok(None),
        PrintFault::OutOfMemory => Err(OutOfMemory),
    }
}
