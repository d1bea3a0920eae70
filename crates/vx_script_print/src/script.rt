ghost use Rattle.std.specs.Prelude.{◌≡◌, ◌++◌, ◌∷◌, [], drop, OnOk, Ok, codes};
ghost use Rattle.std.specs.List.{flat_map};
ghost use Rattle.std.specs.Fmt.{decimal};
ghost use Rattle.vx_script.specs.Script.{script_of};
ghost use Rattle.vx_script_print.specs.Text.{script_text, command_text, body_text, line_text, form_words, cut_words};
ghost use Rattle.vx_script_words.specs.Spelling.{spelled, begun};

use crate::words::{put_decimal, put_one, put_row, put_text};
use std::alloc::Global;
use vx_base::OutOfMemory;
use vx_names::Name;
use vx_script::{Act, Call, Command, Script};
use vx_script_forms::{
    Form, Line, act_kind, act_values, call_kind, call_values, items_of, kind_of, name_in, values_of,
};

/// Appends the script in the one spelling, which is read back as the script.
#[tactic(auto, using(crate::proofs::Whole::script_read))]
pub fn print(alloc: Global, script: &Script, out: &mut Vec<u8>) -> Result<(), OutOfMemory>
    ensures printed { OnOk result (out.new.items ≡ out.old.items ++ script_text script.now.commands) }
    ensures read_back { script_of (script_text script.now.commands) ≡ Ok script.now.commands }
{
    put_commands(alloc, script.commands.as_slice(), out)
}

fn put_commands(alloc: Global, commands: &[Command], out: &mut Vec<u8>) -> Result<(), OutOfMemory>
    ensures { OnOk result (out.new.items ≡ out.old.items ++ script_text commands.now) }
{
    for command in commands {
        put_command(alloc, command, out)?;
    }
    Ok(())
}

#[tactic(auto, using(crate::proofs::Spelling::line_steps))]
fn put_command(alloc: Global, command: &Command, out: &mut Vec<u8>) -> Result<(), OutOfMemory>
    ensures { OnOk result (out.new.items ≡ out.old.items ++ command_text command.now) }
{
    let mut line = Vec::new(alloc);
    put_form(alloc, name_in(&command.group), &command.form, &mut line)?;
    put_cut(alloc, command.cut, &mut line)?;
    put_line(line.as_slice(), out)?;
    put_body(alloc, &command.form, out)
}

/// A line of words, without the blank before the first.
fn put_line(words: &[u8], out: &mut Vec<u8>) -> Result<(), OutOfMemory>
    ensures { OnOk result (out.new.items ≡ out.old.items ++ (drop 1 words.now ++ 10 ∷ [])) }
{
    match words {
        [] => {}
        [_, rest @ ..] => put_text(rest, out)?,
    }
    put_text(b"\n", out)
}

fn put_form(
    alloc: Global,
    group: Option<Name>,
    form: &Form,
    out: &mut Vec<u8>,
) -> Result<(), OutOfMemory>
    ensures { OnOk result (out.new.items ≡ out.old.items ++ spelled (form_words group form.now)) }
{
    let values = values_of(alloc, group, form)?;
    put_row(alloc, items_of(kind_of(form)), values.as_slice(), out)
}

fn put_cut(alloc: Global, cut: Option<u64>, out: &mut Vec<u8>) -> Result<(), OutOfMemory>
    ensures { OnOk result (out.new.items ≡ out.old.items ++ spelled (cut_words cut)) }
{
    match cut {
        None => Ok(()),
        Some(n) => {
            put_one(b"cut=", out)?;
            put_decimal(alloc, n, out)
        }
    }
}

fn put_body(alloc: Global, form: &Form, out: &mut Vec<u8>) -> Result<(), OutOfMemory>
    ensures { OnOk result (out.new.items ≡ out.old.items ++ body_text form.now) }
{
    match form {
        Form::VxMake { text } => {
            put_text(text.as_slice(), out)?;
            put_text(b"end\n", out)
        }
        Form::Sessions(block) => {
            put_lines(alloc, block.lines.as_slice(), out)?;
            put_text(b"end\n", out)
        }
        _ => Ok(()),
    }
}

fn put_lines(alloc: Global, lines: &[Line], out: &mut Vec<u8>) -> Result<(), OutOfMemory>
    ensures { OnOk result (out.new.items ≡ out.old.items ++ flat_map line_text lines.now) }
{
    for line in lines {
        put_block_line(alloc, line, out)?;
    }
    Ok(())
}

fn put_block_line(alloc: Global, line: &Line, out: &mut Vec<u8>) -> Result<(), OutOfMemory>
    ensures { OnOk result (out.new.items ≡ out.old.items ++ line_text line.now) }
{
    let mut words = Vec::new(alloc);
    match line {
        Line::Session { session, call } => {
            words.push(b' ')?;
            put_decimal(alloc, *session as u64, &mut words)?;
            put_call(alloc, call, &mut words)?;
        }
        Line::Administer(admin) => {
            put_one(b"0", &mut words)?;
            put_act(alloc, name_in(&admin.group), &admin.act, &mut words)?;
        }
    }
    put_line(words.as_slice(), out)
}

fn put_call(alloc: Global, call: &Call, out: &mut Vec<u8>) -> Result<(), OutOfMemory>
    ensures { OnOk result (out.new.items ≡ out.old.items ++ spelled (form_words None (Form.Calling call.now))) }
{
    let values = call_values(alloc, None, call)?;
    put_row(alloc, items_of(call_kind(call)), values.as_slice(), out)
}

fn put_act(
    alloc: Global,
    group: Option<Name>,
    act: &Act,
    out: &mut Vec<u8>,
) -> Result<(), OutOfMemory>
    ensures { OnOk result (out.new.items ≡ out.old.items ++ spelled (form_words group (Form.Acting act.now))) }
{
    let values = act_values(alloc, group, act)?;
    put_row(alloc, items_of(act_kind(act)), values.as_slice(), out)
}
