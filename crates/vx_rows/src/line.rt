//! The lines of a row file.
use vx_piece::Bad;

/// One line of a row file. Names of images are words that are not read yet.
#[derive(Clone, Copy)]
pub enum Line<'a> {
    /// Nothing, between other lines.
    Empty,
    /// `title TEXT`: what the row shows.
    Title(&'a str),
    /// `image NAME SECTORS`: a device of zeros.
    Image {
        name: &'a str,
        sectors: u64,
    },
    /// `bad NAME START COUNT read|write SKIP TIMES`: sectors of a device whose calls of this kind fail.
    Bad {
        name: &'a str,
        bad: Bad,
    },
    /// `moving NAME read|write TIMES`: calls of this kind on the image fail, so many times, from call 0, 1, 2, .. on.
    Moving {
        name: &'a str,
        on_read: bool,
        times: u64,
    },
    /// `order NAME ..`: the images in the order in which the first run writes to them.
    Order(&'a str),
    /// `cuts N M`: all images fail for good after N of these writes, after N + 1, and so on up to M.
    Cuts {
        first: u64,
        last: u64,
    },
    /// `either member`: the row is tried with a function that selects the lowest of the plexes that may serve a read too, and not only
    /// with one that selects the highest.
    Either,
    /// `heal`: no sector is bad any more as this run begins.
    Heal,
    /// `any`: any answers and any status of this run will do.
    Any,
    /// `or`: the answers behind it would do as well as those before.
    Or,
    /// `again`: a further run over the same devices. The lines behind it are of that run.
    Again,
    /// `without NAME`: the image is not on the shelf of this run.
    Without(&'a str),
    /// `change NAME BYTE XX`: a byte of an image, by its place from the image's start, is changed before this run.
    Change {
        name: &'a str,
        place: u64,
        byte: u8,
    },
    /// `writes NAME BYTE TEXT`: the text and a newline are written into an image, from this place on, before this run.
    Writes {
        name: &'a str,
        place: u64,
        text: &'a str,
    },
    /// `source fails at N`: the source fails once N bytes have passed.
    SourceFails(u64),
    /// `room N`: the sink takes N bytes.
    Room(u64),
    /// `words` and then the words of the command line, where they are not `--images .`.
    Words(&'a str),
    /// `> TEXT`: a line of the script.
    Script(&'a str),
    /// `subdisks DISK FIRST LAST`: the records of so many free subdisks, `f` and a number in five digits each, of one sector at the even
    /// place of that number, as lines of the script.
    Subdisks {
        disk: &'a str,
        first: u64,
        last: u64,
    },
    /// `no last newline`: the script's last line has none.
    NoLastNewline,
    /// `< TEXT`: a line of the answers.
    Answer(&'a str),
    /// `holds NAME SECTOR XX`: what all bytes of a sector are at the end.
    Holds {
        name: &'a str,
        sector: u64,
        byte: u8,
    },
    /// `byte NAME PLACE XX`: what a byte of an image is at the end, by its place from the image's start.
    Byte {
        name: &'a str,
        place: u64,
        byte: u8,
    },
    /// `status N`
    Status(u8),
}

/// The line that is written so.
pub fn read_line(text: &str) -> Option<Line<'_>> {
    if text.is_empty() {
        return Some(Line::Empty);
    }
    let (word, rest) = first_word(text);
    match word {
        ">" => Some(Line::Script(rest)),
        "<" => Some(Line::Answer(rest)),
        "title" => Some(Line::Title(rest)),
        "words" => Some(Line::Words(rest)),
        "image" => read_image(rest),
        "bad" => read_bad(rest),
        "holds" => read_holds(rest),
        "without" => Some(Line::Without(rest)),
        "change" => read_change(rest),
        "writes" => read_writes(rest),
        "byte" => read_end(rest),
        "moving" => read_moving(rest),
        "order" => Some(Line::Order(rest)),
        "cuts" => read_cuts(rest),
        "subdisks" => read_subdisks(rest),
        _ => read_figure(text),
    }
}

/// A line whose rest is a number, or is fixed.
fn read_figure(text: &str) -> Option<Line<'_>> {
    if text == "no last newline" {
        return Some(Line::NoLastNewline);
    }
    match text {
        "again" => return Some(Line::Again),
        "any" => return Some(Line::Any),
        "or" => return Some(Line::Or),
        "either member" => return Some(Line::Either),
        "heal" => return Some(Line::Heal),
        _ => {}
    }
    if let Some(number) = text.strip_prefix("source fails at ") {
        return Some(Line::SourceFails(number.parse().ok()?));
    }
    if let Some(number) = text.strip_prefix("room ") {
        return Some(Line::Room(number.parse().ok()?));
    }
    let number = text.strip_prefix("status ")?;
    Some(Line::Status(number.parse().ok()?))
}

/// The text up to the first blank, and the text behind that.
fn first_word(text: &str) -> (&str, &str) {
    text.split_once(' ').unwrap_or((text, ""))
}

fn read_image(text: &str) -> Option<Line<'_>> {
    let (name, sectors) = text.split_once(' ')?;
    let sectors = sectors.parse().ok()?;
    Some(Line::Image { name, sectors })
}

fn read_bad(text: &str) -> Option<Line<'_>> {
    let (name, rest) = text.split_once(' ')?;
    let (start, rest) = read_number(rest)?;
    let (count, rest) = read_number(rest)?;
    let (kind, rest) = rest.split_once(' ')?;
    let (skip, times) = read_number(rest)?;
    if kind != "read" && kind != "write" {
        return None;
    }
    let bad = Bad {
        start,
        count,
        on_read: kind == "read",
        on_write: kind == "write",
        skip,
        times: times.parse().ok()?,
    };
    Some(Line::Bad { name, bad })
}

fn read_holds(text: &str) -> Option<Line<'_>> {
    let (name, sector, byte) = read_byte(text)?;
    Some(Line::Holds { name, sector, byte })
}

fn read_change(text: &str) -> Option<Line<'_>> {
    let (name, place, byte) = read_byte(text)?;
    Some(Line::Change { name, place, byte })
}

fn read_writes(text: &str) -> Option<Line<'_>> {
    let (name, rest) = text.split_once(' ')?;
    let (place, text) = read_number(rest)?;
    Some(Line::Writes { name, place, text })
}

fn read_moving(text: &str) -> Option<Line<'_>> {
    let (name, rest) = text.split_once(' ')?;
    let (kind, times) = rest.split_once(' ')?;
    if kind != "read" && kind != "write" {
        return None;
    }
    Some(Line::Moving {
        name,
        on_read: kind == "read",
        times: times.parse().ok()?,
    })
}

fn read_cuts(text: &str) -> Option<Line<'_>> {
    let (first, last) = read_number(text)?;
    Some(Line::Cuts {
        first,
        last: last.parse().ok()?,
    })
}

fn read_subdisks(text: &str) -> Option<Line<'_>> {
    let (disk, rest) = text.split_once(' ')?;
    let (first, last) = read_number(rest)?;
    let last = last.parse().ok()?;
    Some(Line::Subdisks { disk, first, last })
}

fn read_end(text: &str) -> Option<Line<'_>> {
    let (name, place, byte) = read_byte(text)?;
    Some(Line::Byte { name, place, byte })
}

/// A name, a place and a byte.
fn read_byte(text: &str) -> Option<(&str, u64, u8)> {
    let (name, rest) = text.split_once(' ')?;
    let (place, byte) = read_number(rest)?;
    Some((name, place, u8::from_str_radix(byte, 16).ok()?))
}

/// The number up to the first blank, and the text behind that.
fn read_number(text: &str) -> Option<(u64, &str)> {
    let (number, rest) = text.split_once(' ')?;
    Some((number.parse().ok()?, rest))
}
