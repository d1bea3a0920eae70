use std::alloc::Global;
use vx_base::OutOfMemory;
use vx_script::{Script, ScriptFault, read};
use vx_script_print::print;

/// What a text is: commands that are printed and read back, some that are not, or none with the place of the fault.
#[derive(Clone, Copy, PartialEq, Eq)]
enum Answer {
    Commands(usize),
    Changed,
    Place(u64, u64),
}

/// What all prefixes of a script are, those of neighbouring lengths that are the same in one line, and how many of them
/// were read and how many refused.
pub fn prefixes(alloc: Global, script: &[u8], out: &mut Vec<u8>) -> Result<(), OutOfMemory> {
    let mut from = 0;
    let mut last = Answer::Commands(0);
    let mut refused: usize = 0;
    for length in 0..=script.len() {
        let next = answer_of(alloc, &script[..length])?;
        if next != last {
            put_run(alloc, from, length, last, out)?;
            from = length;
            last = next;
        }
        if matches!(next, Answer::Place(_, _)) {
            refused = refused.saturating_add(1);
        }
    }
    let all = script.len().saturating_add(1);
    put_run(alloc, from, all, last, out)?;
    let read = all.saturating_sub(refused);
    let counts = format!(in alloc; "read {read} refused {refused}\n")?;
    out.extend_from_slice(counts.as_bytes())?;
    Ok(())
}

fn answer_of(alloc: Global, text: &[u8]) -> Result<Answer, OutOfMemory> {
    match read(alloc, text) {
        Ok(script) => read_again(alloc, &script),
        Err(ScriptFault::Script(line, column)) => Ok(Answer::Place(line, column)),
        Err(ScriptFault::OutOfMemory) => Err(OutOfMemory),
    }
}

/// Whether what is printed is read and printed as the same.
fn read_again(alloc: Global, script: &Script) -> Result<Answer, OutOfMemory> {
    let mut printed = Vec::new(alloc);
    print(alloc, script, &mut printed)?;
    let Ok(again) = read(alloc, printed.as_slice()) else {
        return Ok(Answer::Changed);
    };
    let mut reprinted = Vec::new(alloc);
    print(alloc, &again, &mut reprinted)?;
    let count = script.commands.as_slice().len();
    if again.commands.as_slice().len() != count || reprinted != printed {
        return Ok(Answer::Changed);
    }
    Ok(Answer::Commands(count))
}

fn put_run(
    alloc: Global,
    from: usize,
    end: usize,
    answer: Answer,
    out: &mut Vec<u8>,
) -> Result<(), OutOfMemory> {
    let to = end.saturating_sub(1);
    let text = match answer {
        Answer::Commands(count) => format!(in alloc; "{from} to {to} commands {count}\n")?,
        Answer::Changed => format!(in alloc; "{from} to {to} changed\n")?,
        Answer::Place(line, column) => format!(in alloc; "{from} to {to} place {line} {column}\n")?,
    };
    out.extend_from_slice(text.as_bytes())?;
    Ok(())
}
