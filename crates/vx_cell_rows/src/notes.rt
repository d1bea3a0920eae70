ghost use Rattle.std.specs.Prelude.{◌≡◌};

use vx_marks::{MarkFault, Marker};

/// What becomes of a call on a log.
#[derive(Clone, Copy, Debug, PartialEq, Eq)]
pub enum Fate {
    Good,
    Fails,
    Cuts,
}

/// The device of the log.
pub const DEVICE: u32 = 9;

/// The marks of region 0 on one copy. A mark that failed is not there, and neither is one that was to be taken away.
#[derive(Drop)]
pub struct Notes {
    pub bits: u64,
    /// What becomes of the calls that are left, the next one first.
    pub fates: [Fate; 2],
    pub marks: u64,
    pub unmarks: u64,
    pub faults: u64,
    pub cut: bool,
}

impl Notes {
    /// What becomes of the next call.
    fn next_fate(&mut self) -> Fate
        ensures bits { self.new.bits ≡ self.old.bits }
        ensures faults { self.new.faults ≡ self.old.faults }
        ensures cut { self.new.cut ≡ self.old.cut }
    {
        let fate = self.fates[0];
        self.fates = [self.fates[1], Fate::Good];
        fate
    }
}

impl Marker for Notes {
    ghost use Rattle.vx_cell_rows.specs.Notes.{notes_log};

    ghost log = { notes_log };

    ghost follows = { λ x y. Unit {0} };

    fn marked(&self, _region: u64) -> u64 {
        self.bits
    }

    fn mark(&mut self, _region: u64, bits: u64) -> Result<(), MarkFault> {
        self.marks = self.marks.saturating_add(1);
        match self.next_fate() {
            Fate::Good => {
                self.bits = vx_mask::with(self.bits, bits);
                Ok(())
            }
            Fate::Fails => {
                self.faults = self.faults.saturating_add(1);
                Err(MarkFault::Failed {
                    copy: 0,
                    device: DEVICE,
                })
            }
            Fate::Cuts => {
                self.cut = true;
                Err(MarkFault::PowerLost)
            }
        }
    }

    fn unmark(&mut self, _region: u64, bits: u64) -> Result<(), MarkFault> {
        self.unmarks = self.unmarks.saturating_add(1);
        self.bits = vx_mask::less(self.bits, bits);
        match self.next_fate() {
            Fate::Good => Ok(()),
            Fate::Fails => {
                self.faults = self.faults.saturating_add(1);
                Err(MarkFault::Failed {
                    copy: 0,
                    device: DEVICE,
                })
            }
            Fate::Cuts => {
                self.cut = true;
                Err(MarkFault::PowerLost)
            }
        }
    }

    ghost follows_same = { λ x. tt };

    ghost follows_on = { λ x y z first then. tt };
}
