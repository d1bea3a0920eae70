//! What differs between a run and its row.
use std::fmt;

/// The first thing that differs.
#[derive(Debug, Drop)]
pub enum Difference {
    /// The images have one name twice, or one of them has no sector.
    Images,
    /// Memory was wanting; what was written is a front of what is wanted. No row wants it: it is told where an allocation
    /// is made to fail.
    NoMemory,
    /// A fault that moves fires at each call.
    Endless,
    /// The images are not written to in the order that the row says.
    Order,
    /// A line of the answers, counted from 1, as it was written and as it is wanted.
    Answer {
        line: usize,
        written: String,
        wanted: String,
    },
    /// What was written ends at another byte.
    Ending,
    Status {
        answered: u8,
        wanted: u8,
    },
    /// A sector does not hold the byte that is wanted, or its device was not given back.
    Content {
        image: String,
        sector: u64,
    },
    /// A byte is not the one that is wanted, or its device was not given back.
    Byte {
        image: String,
        place: u64,
    },
    /// An image ends otherwise where another function selects the plexes that serve reads.
    Selected {
        image: String,
    },
}

impl fmt::Display for Difference {
    fn fmt<W: fmt::Write>(&self, f: &mut fmt::Formatter<W>) -> fmt::Result {
        match self {
            Difference::Images => write!(f, "these images stand on no shelf"),
            Difference::Endless => write!(f, "the fault fires at each call"),
            Difference::Order => write!(f, "the writes are others, or in another order"),
            Difference::NoMemory => write!(f, "memory was wanting"),
            Difference::Answer {
                line,
                written,
                wanted,
            } => write!(f, "answer {line} is '{written}' and not '{wanted}'"),
            Difference::Ending => write!(f, "the answers end at another byte"),
            Difference::Status { answered, wanted } => {
                write!(f, "the status is {answered} and not {wanted}")
            }
            Difference::Content { image, sector } => {
                write!(f, "sector {sector} of {image} holds something else")
            }
            Difference::Byte { image, place } => { write!(f, "byte {place} of {image} is another") }
            Difference::Selected { image } => {
                write!(
                    f,
                    "{image} ends otherwise where the lowest plex is selected"
                )
            }
        }
    }
}
