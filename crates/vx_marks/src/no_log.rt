use crate::{MarkFault, Marker};

/// The marker of a volume without a log. It has no marks, and says nothing of what becomes of them.
#[derive(Drop)]
pub struct NoLog;

impl Marker for NoLog {
    ghost use Rattle.vx_marks.specs.NoLog.{no_log};

    ghost log = { no_log };

    ghost follows = { λ x y. Unit {0} };

    fn marked(&self, _region: u64) -> u64 {
        0
    }

    fn mark(&mut self, _region: u64, _bits: u64) -> Result<(), MarkFault> {
        Ok(())
    }

    fn unmark(&mut self, _region: u64, _bits: u64) -> Result<(), MarkFault> {
        Ok(())
    }

    ghost follows_same = { λ x. tt };

    ghost follows_on = { λ x y z first then. tt };
}
