//! The script language: commands, calls and blocks as plain values, read from text with the place of the first fault.
#![tactic(auto)]

mod choice;
mod command;
mod fault;
mod lines;
mod reader;
mod script;
mod steps;

pub use command::{Command, Commands};
pub use fault::ScriptFault;
pub use script::{Script, read};
pub use vx_script_forms::{
    Act, Admin, Block, Blocks, Boxed, Bytes, Call, DiskAt, Disks, Form, Line, Lines, MakeAttrs,
    Names, WordLayout, WordPolicy,
};
