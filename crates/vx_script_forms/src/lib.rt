//! The script language: commands, calls and blocks as plain values, and the one table of their words: what the values of
//! a line say as a form, and which values a form has.
#![tactic(auto)]

mod act;
mod block;
mod boxed;
mod call;
mod form;
mod head;
mod items;
mod kind;
mod say;
mod table;
mod unsay;
mod values;

pub use act::{Act, Admin};
pub use block::{Block, Line, Lines};
pub use boxed::{Boxed, maybe_boxed, name_in};
pub use call::Call;
pub use form::{Form, MakeAttrs, WordLayout, WordPolicy};
pub use head::{ACTS, CALLS, COMMANDS, Head, head_key, kinds_of};
pub use items::items_of;
pub use kind::Kind;
pub use say::form_of;
pub use unsay::{act_kind, act_values, call_kind, call_values, kind_of, values_of};
pub use values::group_of;
pub use vx_script_words::{Blocks, Bytes, DiskAt, Disks, Names};
