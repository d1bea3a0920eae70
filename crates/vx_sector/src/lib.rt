//! The fields of a sector of 512 bytes: bytes, zeros and big-endian numbers, written from the front on and read in place.
#![tactic(auto)]

mod reading;
mod writing;

pub use reading::{first_difference, is_zero, u32_at, u64_at};
pub use writing::{put, put_u32, put_u64, put_zeros};
