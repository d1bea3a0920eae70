//! The printed text of scripts, in the one spelling: each line's words by the same table that reads them. What is printed is
//! read back.
#![tactic(auto)]

ghost use Rattle.vx_script_print.specs.ReadBack.{ReadBack, ReadAgain};

mod script;
mod words;

pub use script::print;

/// Reading what was printed of commands gives the commands, where they keep the ranges of the language, as those that
/// were read do.
#[tactic(auto, using(crate::proofs::Whole::script_read))]
pub fn read_back()
    ensures { ReadBack }
{}

/// Reading what was printed of a script that was read gives the same script, whatever the spelling of its text.
#[tactic(auto, using(crate::proofs::Whole::script_read, vx_script::proofs::Continuations::read_kept))]
pub fn read_again()
    ensures { ReadAgain }
{}
