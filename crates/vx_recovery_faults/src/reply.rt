//! The answers of a run, command by command.
use std::alloc::{AllocError, Global};
use vx_volume_judge::{Answer, Finding};

/// What a command has answered: the last line that it showed before its answer, where there is one, and its answer line.
#[derive(Clone, Copy)]
pub struct Reply<'a> {
    pub view: &'a str,
    pub line: &'a str,
}

impl<'a> Reply<'a> {
    pub fn is_ok(&self) -> bool {
        self.line == "ok" || self.line.starts_with("ok ")
    }

    pub fn is_lost(&self) -> bool {
        self.line == "lost" || self.line.starts_with("lost ")
    }
}

/// The replies that these lines are.
pub fn replies_of(alloc: Global, text: &str) -> Result<Vec<Reply<'_>>, AllocError> {
    let mut replies = Vec::new(alloc);
    let mut view = None;
    for line in text.lines() {
        if Answer::read(line).is_some() {
            let view = view.take().unwrap_or("");
            replies.push(Reply { view, line })?;
        } else {
            view = Some(line);
        }
    }
    Ok(replies)
}

/// The status is 0 where each answer is ok, else 5.
pub fn judge_status(replies: &[Reply<'_>], status: u8) -> Result<(), Finding> {
    let wanted = if replies.iter().all(|reply| reply.is_ok()) {
        0
    } else {
        5
    };
    if status == wanted {
        Ok(())
    } else {
        Err(Finding::Status)
    }
}
