//! What is known of the volume by the answers that were given: what each block may hold, and how much of it is recorded.
use crate::reply::Reply;
use crate::seen::Form;
use crate::shape::Shape;
use std::alloc::{AllocError, Global};
use vx_volume_judge::{Answer, Candidates, Sort, cut, decimal, fill_of, hexadecimal};

/// A read or a write of blocks of the volume.
#[derive(Clone, Copy)]
struct Call {
    start: u64,
    count: u64,
    /// The byte that a write fills them with.
    byte: Option<u8>,
}

impl Call {
    /// The call of a line `read v START COUNT` or `write v START COUNT fill XX`, where it is one. A write may have the word `cut=N`.
    fn read(line: &str) -> Option<Call> {
        if let Some(range) = line.strip_prefix("read v ") {
            return Call::of(range, None);
        }
        let (range, byte) = line.strip_prefix("write v ")?.split_once(" fill ")?;
        let (byte, _cut) = cut(byte, ' ').unwrap_or((byte, ""));
        Call::of(range, Some(hexadecimal(byte)?))
    }

    fn of(range: &str, byte: Option<u8>) -> Option<Call> {
        let (start, count) = cut(range, ' ')?;
        Some(Call {
            start: decimal(start)?,
            count: decimal(count)?,
            byte,
        })
    }

    /// The block behind its last.
    fn end(self) -> u64 {
        self.start.saturating_add(self.count)
    }
}

#[derive(Drop)]
pub struct Model {
    pub candidates: Candidates,
    /// The blocks of a region.
    region: u64,
    /// What is recorded, and what may be recorded instead, where a command that changes it was lost.
    form: Form,
    other: Form,
}

impl Model {
    /// Of a volume that is not recorded yet: it will hold what its lowest plex holds on these devices.
    pub fn new(alloc: Global, shape: &Shape, images: &[&[u8]]) -> Result<Model, AllocError> {
        let mut bytes = Vec::new(alloc);
        for block in 0..shape.length {
            bytes.push(held_at(shape, images, block).unwrap_or(0))?;
        }
        let none = Form { plexes: 0, logs: 0 };
        Ok(Model {
            candidates: Candidates::new(alloc, bytes.as_slice())?,
            region: shape.region.max(1),
            form: none,
            other: none,
        })
    }

    /// The same again.
    pub fn copy(&self, alloc: Global) -> Result<Model, AllocError> {
        Ok(Model {
            candidates: self.candidates.copy(alloc)?,
            region: self.region,
            form: self.form,
            other: self.other,
        })
    }

    /// Whether so much may be recorded.
    pub fn may_have(&self, form: Form) -> bool {
        form == self.form || form == self.other
    }

    /// So much was found to be recorded.
    pub fn find(&mut self, form: Form) {
        self.form = form;
        self.other = form;
    }

    /// Takes the reply of a command, behind which so much is recorded where it is done. It tells whether the answer may be given.
    pub fn take(&mut self, line: &str, form: Form, reply: Reply<'_>) -> bool {
        let Some(answer) = Answer::read(reply.line) else {
            return false;
        };
        match answer.sort {
            Sort::Ok => self.find(form),
            Sort::Lost => self.other = form,
            Sort::Fault | Sort::Refused => {}
        }
        self.take_call(line, answer)
    }

    /// Takes the reply of a command that records nothing of the volume but states.
    pub fn take_plain(&mut self, line: &str, reply: Reply<'_>) -> bool {
        match Answer::read(reply.line) {
            Some(answer) => self.take_call(line, answer),
            None => false,
        }
    }

    fn take_call(&mut self, line: &str, answer: Answer<'_>) -> bool {
        match (Call::read(line), answer.sort) {
            (None, _) | (_, Sort::Refused) => true,
            (Some(call), sort) => match self.parts_told(call, answer.rest) {
                Some(told) => self.serve(call, sort, told, answer.rest),
                None => false,
            },
        }
    }

    fn serve(&mut self, call: Call, sort: Sort, told: u64, words: &str) -> bool {
        if sort == Sort::Ok && told != self.parts_of(call) {
            return false;
        }
        match call.byte {
            Some(byte) => {
                self.write(call, byte, sort, told);
                true
            }
            None => sort != Sort::Ok || self.read(call, words),
        }
    }

    /// A write that is done leaves its value alone. Of one that is not, it may be the last region that was begun which holds it or not;
    /// the regions before are done.
    fn write(&mut self, call: Call, byte: u8, sort: Sort, told: u64) {
        let done = if sort == Sort::Ok {
            told
        } else {
            told.saturating_sub(1)
        };
        for block in call.start..call.end() {
            let part = self.part_of(call, block);
            if part < done {
                self.candidates.set(block, byte);
            } else if part < told {
                self.candidates.add(block, byte);
            }
        }
    }

    /// Whether a read that is done tells all its blocks, each with a candidate, which it alone is then.
    fn read(&mut self, call: Call, words: &str) -> bool {
        let mut block = call.start;
        for word in words.split_whitespace() {
            if let Some(digits) = word.strip_prefix('=') {
                let byte = hexadecimal(digits);
                if !self.candidates.has(block, byte) {
                    return false;
                }
                self.candidates.set(block, byte.unwrap_or(0));
                block = block.saturating_add(1);
            }
        }
        block == call.end()
    }

    // ---- the regions of a call

    /// How many regions of a call lie before that of a block.
    fn part_of(&self, call: Call, block: u64) -> u64 {
        let region = self.region.max(1);
        (block / region).saturating_sub(call.start / region)
    }

    /// How many regions a call lies in.
    fn parts_of(&self, call: Call) -> u64 {
        self.part_of(call, call.end().saturating_sub(1))
            .saturating_add(1)
    }

    /// How many parts are told, where they are those of the first regions of the call.
    fn parts_told(&self, call: Call, words: &str) -> Option<u64> {
        let first = call.start / self.region.max(1);
        let mut told = 0u64;
        for word in words.split_whitespace() {
            if let Some((region, _number)) = cut(word, ':') {
                if decimal(region) != Some(first.saturating_add(told)) {
                    return None;
                }
                told = told.saturating_add(1);
            }
        }
        if told <= self.parts_of(call) {
            Some(told)
        } else {
            None
        }
    }
}

/// The byte of which a block of the lowest plex is full.
fn held_at(shape: &Shape, images: &[&[u8]], block: u64) -> Option<u8> {
    fill_of(shape.plexes.first()?.block(images, block)?)
}
