ghost use Rattle.std.specs.Prelude.{◌≡◌, ◌+◌, ◌^◌, ◌<◌, MatchResult, IfErr, Ok, IsTrue};
ghost use Rattle.vx_script.specs.Fault.{IsFault};
ghost use Rattle.vx_script.specs.Kept.{is_kept};
ghost use Rattle.vx_script.specs.Script.{script_of, Faults, finished};

use crate::lines::split_line;
use crate::reader::{Open, Reader};
use crate::steps::step;
use crate::{Commands, ScriptFault};
use std::alloc::Global;
use vx_script_words::LineFault;

/// The commands of a script, in the order of their lines. Names, numbers and blocks are in the ranges of the language.
#[derive(Drop)]
pub struct Script {
    pub commands: Commands,
    ghost kept: { IsTrue (is_kept commands) },
}

/// The script that a text spells. A fault names the first line that does not fit, and in it the first word that no
/// line with the same earlier words has, or the byte behind the line where it ends too early.
#[tactic(auto, unfolding(crate::specs::Script::script_of))]
pub fn read(alloc: Global, text: &[u8]) -> Result<Script, ScriptFault>
    ensures value { MatchResult result (λ script. script_of text.now ≡ Ok script.commands) (λ fault. Faults fault (script_of text.now)) }
    ensures place { IfErr result (IsFault text.now) }
{
    let mut reader = Reader {
        done: Commands::from_vec(Vec::new(alloc)),
        begun: Open::Closed,
    };
    let mut values = Vec::new(alloc);
    let mut rest = text;
    let mut number: u64 = 1;
    while rest.len() > 0 {
        let (line, next) = split_line(rest);
        match step(alloc, &mut values, reader, line) {
            Ok(more) => reader = more,
            Err(LineFault::OutOfMemory) => return Err(ScriptFault::OutOfMemory),
            Err(LineFault::Left(left)) => {
                let column = line.len().saturating_sub(left) as u64 + 1;
                return Err(ScriptFault::Script(number, column));
            }
        }
        rest = next;
        number += 1;
    }
    let commands = finished(reader, number)?;
    Ok(Script { commands })
}

fn finished(reader: Reader, number: u64) -> Result<Commands, ScriptFault>
    ensures { MatchResult result (λ commands. finished reader.begun reader.done number ≡ Ok commands) (λ fault. Faults fault (finished reader.begun reader.done number)) }
{
    let Reader { done, begun } = reader;
    match begun {
        Open::Closed => Ok(done),
        _ => Err(ScriptFault::Script(number, 1)),
    }
}
