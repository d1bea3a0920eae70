//! Whether what a run has left, and what it has answered, is as it has to be.
use crate::finding::Finding;
use crate::known::{Known, tells_recovery};
use crate::record::Records;
use crate::sound::look;
use crate::volume::{Volume, volume_on};
use std::alloc::Global;

/// The volume on these images, which is as it has to be by what is known. It is None where it is not recorded, and need not be. Its
/// records are some of these, but for the states.
pub fn judge(
    alloc: Global,
    images: &[&[u8]],
    records: Records<'_>,
    known: &Known,
) -> Result<Option<Volume>, Finding> {
    let Some(volume) = volume_on(alloc, images, records)? else {
        return unrecorded(known);
    };
    if !known.may_be_recorded() {
        return Err(Finding::Recorded);
    }
    if let Some(finding) = known.misfit(volume.form()) {
        return Err(finding);
    }
    if !known.may_be(volume.state) {
        return Err(Finding::VolumeState);
    }
    look(&volume, known)?;
    Ok(Some(volume))
}

/// No volume is recorded.
fn unrecorded(known: &Known) -> Result<Option<Volume>, Finding> {
    if known.may_be_unrecorded() {
        Ok(None)
    } else {
        Err(Finding::NotRecorded)
    }
}

/// The status is 0 where each answer is ok, else 5.
pub fn judge_status(answers: &str, status: u8) -> Result<(), Finding> {
    let mut wanted = 0u8;
    for line in answers.lines() {
        if !is_ok(line) {
            wanted = 5;
        }
    }
    if status == wanted {
        Ok(())
    } else {
        Err(Finding::Status)
    }
}

/// Whether the line is an answer that all was done, or tells of a volume that was recovered.
pub fn is_ok(line: &str) -> bool {
    line.starts_with("ok") || tells_recovery(line)
}

/// What is wanted of an answer: that it is this one, that it is ok, or nothing.
#[derive(Drop)]
pub enum Want {
    Exactly(String),
    Ok,
    Anything,
}

impl Want {
    fn is_met(&self, answer: &str) -> bool {
        match self {
            Want::Exactly(wanted) => wanted.as_str() == answer,
            Want::Ok => is_ok(answer),
            Want::Anything => true,
        }
    }
}

/// Each answer is as it is wanted.
pub fn judge_next(wanted: &[Want], answers: &str) -> Result<(), Finding> {
    let mut number = 0u64;
    for (line, want) in answers.lines().zip(wanted) {
        number = number.saturating_add(1);
        if !want.is_met(line) {
            return Err(Finding::Answer(number));
        }
    }
    Ok(())
}
