//! Answers of commands, and the lines that they are printed as.
#![tactic(auto)]

mod answer;
mod line;
mod lists;
mod refusal;
mod words;

pub use answer::{Answer, BlockLine, End, View};
pub use line::put_answer;
pub use lists::{BlockLines, Bytes, Parts, Views};
pub use refusal::Refusal;
