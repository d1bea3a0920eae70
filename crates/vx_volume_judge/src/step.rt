//! What a line of a script does, and what its answer says.
use crate::bytes::{cut, decimal, hexadecimal};
use crate::logs::NewLogs;
use crate::making::Making;

/// What is done to the volume `v` or the group `dg`.
#[derive(Clone, Copy, PartialEq, Eq)]
pub enum Command {
    Import,
    Deport,
    Make,
    Start,
    Recover,
    Mirror,
    Prepare,
    Unprepare,
    Stop,
    Read,
    Write,
}

/// A line of a script: of a read and a write with its blocks, of a write with its byte, of new logs with the region that is asked for.
#[derive(Clone, Copy)]
pub struct Step {
    pub command: Command,
    pub start: u64,
    pub count: u64,
    pub byte: u8,
    pub region: Option<u64>,
}

impl Step {
    /// The step of a line, where it is one of these.
    pub fn read(line: &str) -> Option<Step> {
        match line {
            "vxdg import dg" => Some(Step::plain(Command::Import)),
            "vxdg deport dg" => Some(Step::plain(Command::Deport)),
            "vxvol start v" => Some(Step::plain(Command::Start)),
            "vxrecover -s" => Some(Step::plain(Command::Recover)),
            "vxassist mirror v" => Some(Step::plain(Command::Mirror)),
            "vxsnap unprepare v" => Some(Step::plain(Command::Unprepare)),
            "vxvol stop v" => Some(Step::plain(Command::Stop)),
            _ if Making::read(line).is_some() => Some(Step::plain(Command::Make)),
            _ => match NewLogs::read(line) {
                Some(new) => Some(Step {
                    region: new.region,
                    ..Step::plain(Command::Prepare)
                }),
                None => Step::read_call(line),
            },
        }
    }

    /// A step without blocks.
    fn plain(command: Command) -> Step {
        Step {
            command,
            start: 0,
            count: 0,
            byte: 0,
            region: None,
        }
    }

    /// A read `read v START COUNT` or a write `write v START COUNT fill XX`.
    fn read_call(line: &str) -> Option<Step> {
        if let Some(range) = line.strip_prefix("read v ") {
            return Step::with_blocks(Command::Read, range, 0);
        }
        let (range, byte) = line.strip_prefix("write v ")?.split_once(" fill ")?;
        Step::with_blocks(Command::Write, range, hexadecimal(byte)?)
    }

    fn with_blocks(command: Command, range: &str, byte: u8) -> Option<Step> {
        let (start, count) = cut(range, ' ')?;
        Some(Step {
            command,
            start: decimal(start)?,
            count: decimal(count)?,
            byte,
            region: None,
        })
    }

    /// The block behind its last.
    pub fn end(self) -> u64 {
        self.start.saturating_add(self.count)
    }
}

/// How an answer begins.
#[derive(Clone, Copy, PartialEq, Eq)]
pub enum Sort {
    Ok,
    Fault,
    Refused,
    Lost,
}

/// An answer line: of a fault the name of what failed, and what stands behind.
#[derive(Clone, Copy)]
pub struct Answer<'a> {
    pub sort: Sort,
    pub name: &'a str,
    pub rest: &'a str,
}

impl<'a> Answer<'a> {
    pub fn read(line: &'a str) -> Option<Answer<'a>> {
        let (word, rest) = first_word(line);
        let sort = Sort::read(word)?;
        if sort == Sort::Fault {
            let (name, rest) = first_word(rest);
            return Some(Answer { sort, name, rest });
        }
        Some(Answer {
            sort,
            name: "",
            rest,
        })
    }
}

impl Sort {
    fn read(word: &str) -> Option<Sort> {
        match word {
            "ok" => Some(Sort::Ok),
            "fault" => Some(Sort::Fault),
            "refused" => Some(Sort::Refused),
            "lost" => Some(Sort::Lost),
            _ => None,
        }
    }
}

/// The text up to the first blank, and the text behind that.
fn first_word(text: &str) -> (&str, &str) {
    match cut(text, ' ') {
        Some(pair) => pair,
        None => (text, ""),
    }
}

/// The region of a part `REGION:EPOCH.NUMBER`.
pub fn region_of(word: &str) -> Option<u64> {
    let (region, _number) = cut(word, ':')?;
    decimal(region)
}

/// The byte of a block `=XX`.
pub fn byte_of(word: &str) -> Option<u8> {
    hexadecimal(word.strip_prefix('=')?)
}
