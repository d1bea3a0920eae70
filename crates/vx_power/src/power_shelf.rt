ghost use Rattle.std.specs.Prelude.{◌≡◌, Bool, false};
ghost use Rattle.vx_base.specs.Named.{Word};
ghost use Rattle.vx_power.specs.Returned.{AreReturned};

use vx_shelf::Shelf;

/// A shelf whose devices lose their power once so many writes were drawn from them.
pub trait PowerShelf: Shelf {
    /// The devices that came back after the switch had taken their power, and have not got it back yet.
    ghost gone: { Self → Word → Bool };

    /// How many writes were drawn so far, modulo 2^64.
    fn drawn(&mut self) -> u64
        ensures free { Self.free self.new ≡ Self.free self.old }
        ensures held { Self.held self.new ≡ Self.held self.old }
        ensures faults { Self.faults self.new ≡ Self.faults self.old }
        ensures counted { Self.counted self.new ≡ Self.counted self.old }
        ensures gone { gone self.new ≡ gone self.old };

    /// Sets the switch: once `limit` writes were drawn in all, every call of a device is answered that its power is gone.
    /// None sets it off, and so does 2^64 - 1.
    fn set(&mut self, limit: Option<u64>)
        ensures free { Self.free self.new ≡ Self.free self.old }
        ensures held { Self.held self.new ≡ Self.held self.old }
        ensures faults { Self.faults self.new ≡ Self.faults self.old }
        ensures counted { Self.counted self.new ≡ Self.counted self.old }
        ensures gone { gone self.new ≡ gone self.old };

    /// Whether a device is gone.
    fn has_gone(&self) -> bool
        ensures { result ≡ false → (name : Word) → gone self.now name ≡ false };

    /// Gives all devices their power back.
    fn restore(&mut self)
        ensures back { AreReturned (gone self.old) (Self.free self.old) (Self.free self.new) }
        ensures none { (name : Word) → gone self.new name ≡ false }
        ensures held { Self.held self.new ≡ Self.held self.old }
        ensures faults { Self.faults self.new ≡ Self.faults self.old }
        ensures counted { Self.counted self.new ≡ Self.counted self.old };
}
