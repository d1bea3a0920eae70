ghost use Rattle.std.specs.Prelude.{◌≡◌, true};
ghost use Rattle.vx_marks.specs.Log.{AreClaimed, ChangesAt, ClaimsAt, IsAskable, IsClaimedAs, IsMarkedAs, IsUnclaimedAs, IsUnmarkedAs, KeepsLog, MarkHasCause, OnMarks};

/// Why a mark is not on every copy, or may still be on one.
#[derive(Clone, Copy, Debug, PartialEq, Eq)]
pub enum MarkFault {
    /// A call on a piece of this copy, on this device, failed.
    Failed { copy: u8, device: u32 },
    /// The power is gone.
    PowerLost,
    /// The page of the region is out, which only a log that is lent answers. Nothing was done, and the call may be made again.
    Busy,
}

/// A log of marks of the regions of one volume. Bit k of a region's mask is map k.
///
/// After a mark that failed, the bits that it was to add are loose: each copy may show them or not. A log may then also
/// leave off claiming such bits as it claimed before. After an unmark that failed, the bits that it was to take away are
/// loose, and the log no longer claims them. Loose marks go with the next call on their page that writes.
pub trait Marker {
    /// What contracts see of it.
    ghost log: { Self → LogSeen };

    /// Whatever the log stands on is as the calls of this trait may leave it.
    ghost follows: { Self → Self → Type 0 };

    ghost use Rattle.vx_marks.specs.Log.{LogSeen};

    /// The marks of a region that every copy shows.
    fn marked(&self, region: u64) -> u64
        requires { (log self.now).has_region region ≡ true }
        ensures { AreClaimed ((log self.now).claims region) result };

    /// Marks a region on every copy.
    fn mark(&mut self, region: u64, bits: u64) -> Result<(), MarkFault>
        requires { IsAskable (log self.old) region bits }
        ensures kept { KeepsLog (log self.old) (log self.new) }
        ensures told { (log self.old).there ≡ true → OnMarks (ChangesAt region (IsMarkedAs bits result)) (log self.old).told (log self.new).told }
        ensures claims { (log self.old).there ≡ true → ClaimsAt region (IsClaimedAs bits result) (log self.old).claims (log self.new).claims }
        ensures cause { MarkHasCause (log self.old) (log self.new) result }
        ensures follows { follows self.old self.new };

    /// Takes marks of a region away from every copy.
    fn unmark(&mut self, region: u64, bits: u64) -> Result<(), MarkFault>
        requires { IsAskable (log self.old) region bits }
        ensures kept { KeepsLog (log self.old) (log self.new) }
        ensures told { (log self.old).there ≡ true → OnMarks (ChangesAt region (IsUnmarkedAs bits result)) (log self.old).told (log self.new).told }
        ensures claims { (log self.old).there ≡ true → ClaimsAt region (IsUnclaimedAs bits result) (log self.old).claims (log self.new).claims }
        ensures cause { MarkHasCause (log self.old) (log self.new) result }
        ensures follows { follows self.old self.new };

    ghost follows_same: { (x : Self) → follows x x };

    ghost follows_on: { (x y z : Self) → follows x y → follows y z → follows x z };
}
