//! The records of a configuration's text: a line `KIND NAME` for each, and behind it its attributes, one a line behind a tab.
use vx_volume_judge::{cut, decimal};

/// The value of an attribute of the record of this kind and name.
pub fn value_of<'a>(text: &'a str, kind: &str, name: &str, attribute: &str) -> Option<&'a str> {
    let mut is_in = false;
    for line in text.lines() {
        match line.strip_prefix('\t') {
            None => is_in = cut(line, ' ') == Some((kind, name)),
            Some(rest) if is_in => match cut(rest, '=') {
                Some((word, value)) if word == attribute => return Some(value),
                _ => {}
            },
            Some(_) => {}
        }
    }
    None
}

/// The name of the disk of a slot.
pub fn disk_of(text: &str, slot: u64) -> Option<&str> {
    let mut name = None;
    for line in text.lines() {
        match line.strip_prefix('\t') {
            None => name = line.strip_prefix("dm "),
            Some(rest) => match rest.strip_prefix("slot=") {
                Some(word) if decimal(word) == Some(slot) => return name,
                _ => {}
            },
        }
    }
    None
}
