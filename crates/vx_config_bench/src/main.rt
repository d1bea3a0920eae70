//! Goes with the text of a configuration as far as the word says: `read` the records, `check` them, `edit` one volume, or
//! `print` all of it, each after the ones before, and prints how far it came. Its time and memory are to be measured.
#![tactic(auto)]

mod steps;

use std::alloc::AllocError;
use std::{env, io};
use steps::{Step, far};

fn main(rt: HostRuntime) -> io::Result<()> {
    let mut step = Step::Read;
    for word in env::args(&rt)?.skip(1) {
        step = Step::named(word.as_bytes());
    }
    let text = io::read_to_string(rt.alloc(), rt.reader())?;
    match far(rt.alloc(), step, text.as_bytes()) {
        Ok(Some(count)) => println!(rt; "{count}"),
        Ok(None) => println!(rt; "refused"),
        Err(_) => Err(AllocError.into()),
    }
}
