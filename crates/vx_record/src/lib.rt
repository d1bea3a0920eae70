//! Record text: the lines of a configuration, read and printed one for one.
#![tactic(auto)]

mod column;
mod fault;
mod kind;
mod label;
mod line;
mod lists;
mod printing;
mod reading;
mod record;

pub use column::{Column, Form, columns, fits};
pub use fault::RecordFault;
pub use kind::Kind;
pub use label::Label;
pub use lists::{Attrs, Records};
pub use printing::print;
pub use reading::read;
pub use record::Record;
