//! The records of a configuration's text.
use crate::bytes::{cut, decimal};
use crate::finding::Finding;
use std::alloc::Global;
use std::str;

/// An attribute of a record, with the record's kind and name.
#[derive(Clone, Copy)]
pub struct Attribute<'a> {
    pub kind: &'a str,
    pub name: &'a str,
    attribute: &'a str,
    value: &'a str,
}

impl<'a> Attribute<'a> {
    /// Whether it is this attribute of the record of this kind and name.
    fn is(&self, kind: &str, name: &str, attribute: &str) -> bool {
        self.kind == kind && self.name == name && self.attribute == attribute
    }

    /// Whether it is one of a volume, or of what belongs to a volume.
    pub fn is_volume(&self) -> bool {
        self.kind != "dg" && self.kind != "dm"
    }

    /// Whether no command changes it that a volume knows.
    fn is_lasting(&self) -> bool {
        self.is_volume() && self.attribute != "state"
    }

    /// Whether it says the same of the same record.
    fn is_same(&self, other: &Attribute<'_>) -> bool {
        self.is(other.kind, other.name, other.attribute) && self.value == other.value
    }

    /// Whether it says this of a record of this kind.
    pub fn says(&self, kind: &str, attribute: &str, value: &str) -> bool {
        self.kind == kind && self.attribute == attribute && self.value == value
    }
}

/// The attributes of a text: a line `KIND NAME` for each record, and behind it its attributes, one a line behind a tab.
pub fn read(alloc: Global, text: &[u8]) -> Result<Vec<Attribute<'_>>, Finding> {
    let Ok(text) = str::from_utf8(text) else {
        return Err(Finding::Configuration);
    };
    let mut attributes: Vec<Attribute<'_>> = Vec::new(alloc);
    let mut record = ("", "");
    for line in text.lines() {
        match line.strip_prefix('\t') {
            Some(rest) => {
                let (attribute, value) = cut(rest, '=').ok_or(Finding::Configuration)?;
                attributes.push(Attribute {
                    kind: record.0,
                    name: record.1,
                    attribute,
                    value,
                })?;
            }
            None => record = cut(line, ' ').ok_or(Finding::Configuration)?,
        }
    }
    Ok(attributes)
}

/// Whether the records of volumes are those of another text, but for the states.
fn are_alike(attributes: &[Attribute<'_>], others: &[Attribute<'_>]) -> bool {
    let mut rest = others.iter().filter(|other| other.is_lasting());
    for one in attributes {
        if one.is_lasting() {
            match rest.next() {
                Some(other) if one.is_same(other) => {}
                _ => return false,
            }
        }
    }
    rest.next().is_none()
}

/// The records that a volume may have, but for the states: those of one of these texts.
#[derive(Clone, Copy)]
pub struct Records<'r> {
    pub texts: &'r [String],
}

impl<'r> Records<'r> {
    /// Whether these records of a volume are those of one of the texts.
    pub fn have(self, alloc: Global, attributes: &[Attribute<'_>]) -> Result<bool, Finding> {
        for text in self.texts {
            if are_those(alloc, attributes, text.as_str())? {
                return Ok(true);
            }
        }
        Ok(false)
    }
}

/// Whether the records of volumes are those of a text, but for the states.
fn are_those(alloc: Global, attributes: &[Attribute<'_>], records: &str) -> Result<bool, Finding> {
    let wanted = read(alloc, records.as_bytes())?;
    Ok(are_alike(attributes, wanted.as_slice()))
}

/// The value of an attribute of a record.
pub fn value<'a>(
    attributes: &[Attribute<'a>],
    kind: &str,
    name: &str,
    attribute: &str,
) -> Result<&'a str, Finding> {
    for one in attributes {
        if one.is(kind, name, attribute) {
            return Ok(one.value);
        }
    }
    Err(Finding::Records)
}

/// The number that an attribute of a record is.
pub fn figure(
    attributes: &[Attribute<'_>],
    kind: &str,
    name: &str,
    attribute: &str,
) -> Result<u64, Finding> {
    decimal(value(attributes, kind, name, attribute)?).ok_or(Finding::Records)
}
