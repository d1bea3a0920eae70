//! The words of a script: what each has to be, what it says, and how the forms of lines are read and printed word by word.
#![tactic(auto)]

mod block;
mod blocks;
mod bytes;
mod class;
mod disks;
mod fault;
mod hex;
mod key;
mod line;
mod lists;
mod names;
mod number;
mod parts;
mod read;
mod value;
mod words;

pub use block::BlockOf;
pub use blocks::Blocks;
pub use bytes::Bytes;
pub use class::{Class, Item, Sort};
pub use disks::Disks;
pub use fault::LineFault;
pub use hex::{block_of, byte_of};
pub use key::{Key, key_text};
pub use line::row;
pub use names::Names;
pub use number::{length_of, number_within};
pub use parts::cut_of;
pub use value::{DiskAt, Value};
pub use words::{first_word, from_word, past, past_word, up_to};
