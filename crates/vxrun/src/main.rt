//! The program: a folder of device images as a shelf with a power switch, standard input as a script, standard output for its answers.
#![tactic(auto)]

use std::alloc::AllocError;
use std::process::ExitCode;
use std::{env, io};
use vx_files::FileShelf;
use vx_flow::{ReaderSource, WriterSink};
use vx_members::highest_member;
use vx_picker::Picker;
use vx_power::Powered;
use vx_run::{folder, run};

/// Runs the script of standard input, and ends with its status. Where memory is wanting before it begins that is 6.
fn main(rt: HostRuntime) -> ExitCode {
    ExitCode::from(served(&rt).unwrap_or(6))
}

fn served(rt: &HostRuntime) -> Result<u8, AllocError> {
    let words = words(rt)?;
    let texts: Vec<&str> = words.iter().map(|word| word.as_str()).collect(rt.alloc())?;
    let dir = match folder(rt.alloc(), texts.as_slice()) {
        Ok(dir) => dir.unwrap_or("."),
        Err(_) => return Err(AllocError),
    };
    let Ok(folder) = FileShelf::new(rt.clone()?, dir) else {
        return Err(AllocError);
    };
    let Ok(mut shelf) = Powered::untold(rt.alloc(), folder) else {
        return Err(AllocError);
    };
    let mut source = ReaderSource::new(rt.reader());
    let mut sink = WriterSink::new(io::writer(rt));
    let select = Picker::new(|mask, turn| highest_member(mask, turn));
    Ok(run(
        rt.alloc(),
        texts.as_slice(),
        &mut shelf,
        &mut source,
        &mut sink,
        &select,
    ))
}

/// The words behind the program's name. Where one is no text, which no form allows, there are none.
fn words(rt: &HostRuntime) -> Result<Vec<String>, AllocError> {
    match env::args(rt) {
        Ok(words) => words.skip(1).collect(rt.alloc()),
        Err(e) if e.kind() == io::ErrorKind::OutOfMemory => Err(AllocError),
        Err(_) => Ok(Vec::new(rt.alloc())),
    }
}
