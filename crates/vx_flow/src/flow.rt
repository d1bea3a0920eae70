ghost use Rattle.std.specs.Prelude.{◌≡◌, ◌≤◌, List, ℕ, Option, IfOk, length};
ghost use Rattle.vx_base.specs.Counts.{later_count};
ghost use Rattle.vx_flow.specs.Flow.{Takes, Gives, HasCause, count_of};

#[derive(Clone, Copy, Debug, PartialEq, Eq)]
pub struct ReadFailed;

#[derive(Clone, Copy, Debug, PartialEq, Eq)]
pub struct WriteFailed;

/// Bytes that are read one after the other.
pub trait Source {
    /// The bytes that are left, where the source tells them.
    ghost left: { Self → Option (List ℕ) };

    /// How many bytes were read so far.
    ghost passed: { Self → ℕ };

    /// How often a read has failed.
    ghost faults: { Self → ℕ };

    /// Reads some bytes to the front of `into`. At 0 bytes the source is at its end, where `into` has room.
    fn read(&mut self, into: &mut [u8]) -> Result<usize, ReadFailed>
        ensures within { IfOk result (λ n. n ≤ length into.new) }
        ensures taken { Takes (left self.old) (left self.new) result into.new }
        ensures counted { passed self.new ≡ later_count (passed self.old) (count_of result) }
        ensures cause { HasCause (faults self.old) (faults self.new) result };
}

/// Takes bytes one after the other.
pub trait Sink {
    /// The bytes that were taken so far, where the sink tells them.
    ghost taken: { Self → Option (List ℕ) };

    /// How often a write has failed.
    ghost faults: { Self → ℕ };

    /// Takes all the bytes, or the first ones where it fails.
    fn write(&mut self, from: &[u8]) -> Result<(), WriteFailed>
        ensures given { Gives (taken self.old) (taken self.new) result from.now }
        ensures cause { HasCause (faults self.old) (faults self.new) result };
}
