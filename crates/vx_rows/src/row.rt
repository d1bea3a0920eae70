//! A row, as its file says it.
use crate::line::{Line, read_line};
use std::alloc::{AllocError, Global};
use vx_names::Name;
use vx_piece::Bad;

/// Runs over the same devices, one after the other, and what is wanted of them.
#[derive(Drop)]
pub struct Row {
    pub title: String,
    pub images: Vec<Image>,
    /// At least one.
    pub runs: Vec<Run>,
    /// A fault that is moved along: the row is tried with it at call 0, 1, 2 and so on, until it no longer fires.
    pub moving: Option<Moving>,
    /// The images in the order in which the first run writes to them, one for each write.
    pub order: Vec<Name>,
    /// After how many of these writes all images fail for good: the row is tried with each number from the first to the
    /// last. What is left of the images is what a power cut there leaves.
    pub cuts: Option<(u64, u64)>,
    /// Whether the row is tried with each function that may select among plexes, and not only with the program's.
    pub either: bool,
}

/// The member that a function selects among the plexes that may serve a read.
#[derive(Clone, Copy)]
pub enum Member {
    Lowest,
    /// As `vxrun` has it.
    Highest,
}

/// Calls of one kind on an image that fail, so many times from some call on.
#[derive(Clone, Copy)]
pub struct Moving {
    pub image: Name,
    pub on_read: bool,
    pub times: u64,
}

/// A run of a script that is to be tried, and what is wanted of it.
#[derive(Drop)]
pub struct Run {
    /// Images that are not on the shelf of this run.
    pub without: Vec<Name>,
    /// Whether no sector is bad any more as the run begins.
    pub heals: bool,
    /// Bytes that are changed before the run.
    pub changes: Vec<Byte>,
    /// After how many bytes the source fails.
    pub fails_at: Option<u64>,
    /// How many bytes the sink takes.
    pub room: u64,
    /// The words of the command line, parted by one blank.
    pub words: String,
    pub script: Vec<u8>,
    pub answers: Vec<u8>,
    /// Answers that would do as well.
    pub others: Vec<Vec<u8>>,
    /// Whether any answers and any status will do.
    pub any: bool,
    pub contents: Vec<Content>,
    /// Bytes as they are at the end.
    pub bytes: Vec<Byte>,
    pub status: u8,
}

/// A device of zeros.
#[derive(Drop)]
pub struct Image {
    pub name: Name,
    pub sectors: u64,
    pub bads: Vec<Bad>,
}

/// A byte of an image, by its place from the image's start.
#[derive(Clone, Copy)]
pub struct Byte {
    pub image: Name,
    pub place: u64,
    pub byte: u8,
}

/// What all bytes of a sector are at the end.
#[derive(Drop)]
pub struct Content {
    pub image: Name,
    pub sector: u64,
    pub byte: u8,
}

/// Why a row file could not be read.
#[derive(Clone, Copy, Debug)]
pub enum RowFault {
    OutOfMemory,
    /// The line at this place, counted from 1, is no line of a row.
    Unknown(usize),
}

impl From<AllocError> for RowFault {
    fn from(_refused: AllocError) -> RowFault {
        RowFault::OutOfMemory
    }
}

/// The room of a sink that has no line of its own.
const ROOM: u64 = 65_536;

impl Run {
    /// A run without a script, of which nothing is wanted but status 0.
    fn new(alloc: Global) -> Result<Run, AllocError> {
        Ok(Run {
            without: Vec::new(alloc),
            heals: false,
            changes: Vec::new(alloc),
            fails_at: None,
            room: ROOM,
            words: String::from_str(alloc, "--images .")?,
            script: Vec::new(alloc),
            answers: Vec::new(alloc),
            others: Vec::new(alloc),
            any: false,
            contents: Vec::new(alloc),
            bytes: Vec::new(alloc),
            status: 0,
        })
    }

    /// Takes what a line says of the run. It tells whether the line is one of a run, and its names are names.
    fn take(&mut self, alloc: Global, line: Line<'_>) -> Result<bool, AllocError> {
        match line {
            Line::SourceFails(at) => self.fails_at = Some(at),
            Line::Room(room) => self.room = room,
            Line::Words(words) => self.words = String::from_str(alloc, words)?,
            Line::Script(text) => put_line(&mut self.script, text)?,
            Line::Subdisks { disk, first, last } => {
                put_subdisks(alloc, &mut self.script, disk, first, last)?;
            }
            Line::NoLastNewline => {
                let _ = self.script.pop();
            }
            Line::Answer(text) => put_line(self.answers_mut(), text)?,
            Line::Or => self.others.push(Vec::new(alloc))?,
            Line::Any => self.any = true,
            Line::Heal => self.heals = true,
            Line::Status(status) => self.status = status,
            Line::Writes { name, place, text } => return self.take_text(name, place, text),
            other => return self.take_named(other),
        }
        Ok(true)
    }

    /// The answers that lines are added to now.
    fn answers_mut(&mut self) -> &mut Vec<u8> {
        match self.others.last_mut() {
            None => &mut self.answers,
            Some(last) => last,
        }
    }

    /// Takes a line of text that is written into an image.
    fn take_text(&mut self, name: &str, place: u64, text: &str) -> Result<bool, AllocError> {
        let Ok(image) = Name::read(name.as_bytes()) else {
            return Ok(false);
        };
        let mut place = place;
        for byte in text.bytes() {
            self.changes.push(Byte { image, place, byte })?;
            place = place.saturating_add(1);
        }
        self.changes.push(Byte {
            image,
            place,
            byte: b'\n',
        })?;
        Ok(true)
    }

    /// Takes a line that names an image.
    fn take_named(&mut self, line: Line<'_>) -> Result<bool, AllocError> {
        let (word, place, byte) = match line {
            Line::Without(name) => (name, 0, 0),
            Line::Change { name, place, byte } => (name, place, byte),
            Line::Byte { name, place, byte } => (name, place, byte),
            Line::Holds { name, sector, byte } => (name, sector, byte),
            _ => return Ok(false),
        };
        let Ok(image) = Name::read(word.as_bytes()) else {
            return Ok(false);
        };
        match line {
            Line::Without(_) => self.without.push(image)?,
            Line::Change { .. } => self.changes.push(Byte { image, place, byte })?,
            Line::Byte { .. } => self.bytes.push(Byte { image, place, byte })?,
            _ => self.contents.push(Content {
                image,
                sector: place,
                byte,
            })?,
        }
        Ok(true)
    }
}

impl Row {
    /// A row of one run over no images.
    fn new(alloc: Global) -> Result<Row, AllocError> {
        let mut runs = Vec::new(alloc);
        runs.push(Run::new(alloc)?)?;
        Ok(Row {
            title: String::new(alloc),
            images: Vec::new(alloc),
            runs,
            moving: None,
            order: Vec::new(alloc),
            cuts: None,
            either: false,
        })
    }

    /// The row that the lines of a file say.
    pub fn read(alloc: Global, text: &str) -> Result<Row, RowFault> {
        let mut row = Row::new(alloc)?;
        let mut place = 0usize;
        for line in text.lines() {
            place = place.saturating_add(1);
            let Some(line) = read_line(line) else {
                return Err(RowFault::Unknown(place));
            };
            if !row.take(alloc, line)? {
                return Err(RowFault::Unknown(place));
            }
        }
        Ok(row)
    }

    /// Takes what a line says. It tells whether the line's names are names of images.
    fn take(&mut self, alloc: Global, line: Line<'_>) -> Result<bool, AllocError> {
        match line {
            Line::Empty => {}
            Line::Title(text) => self.title = String::from_str(alloc, text)?,
            Line::Image { name, sectors } => return self.add_image(alloc, name, sectors),
            Line::Bad { name, bad } => return self.add_bad(name, bad),
            Line::Moving {
                name,
                on_read,
                times,
            } => return Ok(self.move_fault(name, on_read, times)),
            Line::Order(names) => return self.set_order(names),
            Line::Cuts { first, last } => self.cuts = Some((first, last)),
            Line::Either => self.either = true,
            Line::Again => self.runs.push(Run::new(alloc)?)?,
            other => return self.take_in_run(alloc, other),
        }
        Ok(true)
    }

    /// Takes a line of the last run.
    fn take_in_run(&mut self, alloc: Global, line: Line<'_>) -> Result<bool, AllocError> {
        match self.runs.last_mut() {
            None => Ok(false),
            Some(run) => run.take(alloc, line),
        }
    }

    fn set_order(&mut self, names: &str) -> Result<bool, AllocError> {
        for word in names.split_whitespace() {
            let Ok(name) = Name::read(word.as_bytes()) else {
                return Ok(false);
            };
            self.order.push(name)?;
        }
        Ok(true)
    }

    fn move_fault(&mut self, name: &str, on_read: bool, times: u64) -> bool {
        let Ok(image) = Name::read(name.as_bytes()) else {
            return false;
        };
        self.moving = Some(Moving {
            image,
            on_read,
            times,
        });
        true
    }

    fn add_image(&mut self, alloc: Global, name: &str, sectors: u64) -> Result<bool, AllocError> {
        let Ok(name) = Name::read(name.as_bytes()) else {
            return Ok(false);
        };
        self.images.push(Image {
            name,
            sectors,
            bads: Vec::new(alloc),
        })?;
        Ok(true)
    }

    /// Adds to the image that was named before.
    fn add_bad(&mut self, name: &str, bad: Bad) -> Result<bool, AllocError> {
        for image in self.images.iter_mut() {
            if image.name.as_bytes() == name.as_bytes() {
                image.bads.push(bad)?;
                return Ok(true);
            }
        }
        Ok(false)
    }
}

/// Adds the records of free subdisks of these numbers, each of one sector at the even place of its number.
fn put_subdisks(
    alloc: Global,
    lines: &mut Vec<u8>,
    disk: &str,
    first: u64,
    last: u64,
) -> Result<(), AllocError> {
    for number in first..last.saturating_add(1) {
        let place = number.saturating_mul(2);
        put_line(lines, format!(in alloc; "sd f{number:05}")?.as_str())?;
        put_line(lines, format!(in alloc; "\tdisk={disk}")?.as_str())?;
        put_line(lines, format!(in alloc; "\toff={place}")?.as_str())?;
        put_line(lines, "\tlen=1\n\tplex=-\n\tcol=0\n\tat=0")?;
    }
    Ok(())
}

fn put_line(lines: &mut Vec<u8>, text: &str) -> Result<(), AllocError> {
    lines.extend_from_slice(text.as_bytes())?;
    lines.push(b'\n')?;
    Ok(())
}
