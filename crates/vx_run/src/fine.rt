//! Answers that tell of no refusal, fault or loss.
ghost use Rattle.std.specs.Prelude.{◌≡◌};
ghost use Rattle.std.specs.List.{list_all};
ghost use Rattle.vx_run.specs.Fine.{is_done, is_fine, is_line_fine};

use vx_answers::{Answer, BlockLine, End};

/// All was done.
fn is_done(end: &End) -> bool
    ensures { result ≡ is_done end.now }
{
    matches!(end, End::Done { .. })
}

fn are_done(lines: &[BlockLine]) -> bool
    ensures { result ≡ list_all is_line_fine lines.now }
{
    lines.iter().all(|line| is_done(&line.end))
}

/// Whether all was done that the command says, or each line of the block.
pub fn is_fine(answer: &Answer) -> bool
    ensures { result ≡ is_fine answer.now }
{
    match answer {
        Answer::One { end, .. } => is_done(end),
        Answer::Block { lines, lost } => !*lost && are_done(lines.as_slice()),
    }
}
