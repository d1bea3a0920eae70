ghost use Rattle.std.specs.Prelude.{◌≡◌, ◌≢◌, true};
ghost use Rattle.vx_mask.specs.Mask.{has};
ghost use Rattle.vx_picker.specs.Picks.{IsInTurn, IsPickedBy, IsPreferred, PicksMember};

use crate::members::{count, member_at};

/// How a read chooses among the plexes that may serve it: one after the other by the number of the call, a plex where it
/// may serve and else the lowest, or as the stored function says.
#[derive(Clone, Copy, Debug, PartialEq, Eq)]
pub enum Policy {
    Round,
    Prefer(u32),
    Select,
}

/// A function that chooses a member of a mask. It gets the mask and the number of the call.
#[derive(Drop)]
pub struct Picker<F> {
    select: F,
}

impl<F: Fn(u64, u64) -> u32> Picker<F> {
    pub fn new(select: F) -> Picker<F>
        ensures { result.select ≡ select }
    {
        Picker { select }
    }

    /// Chooses a member of the mask. `turn` is the number of the call.
    pub fn pick(&self, policy: Policy, mask: u64, turn: u64) -> u32
        requires some { mask ≢ 0 }
        requires picks { PicksMember (F.pre self.now.select) (F.post self.now.select) }
        ensures member { has mask result ≡ true }
        ensures rule { IsPickedBy (F.post self.now.select) policy mask turn result }
    {
        match policy {
            Policy::Select => (self.select)(mask, turn),
            Policy::Prefer(map) => preferred(mask, map),
            Policy::Round => in_turn(mask, turn),
        }
    }
}

fn preferred(mask: u64, map: u32) -> u32
    requires { mask ≢ 0 }
    ensures member { has mask result ≡ true }
    ensures rule { IsPreferred mask map result }
{
    if vx_mask::contains(mask, map) {
        map
    } else {
        vx_mask::first(mask)
    }
}

fn in_turn(mask: u64, turn: u64) -> u32
    requires { mask ≢ 0 }
    ensures { IsInTurn mask turn result }
{
    let members = count(mask);
    member_at(mask, turn % members)
}
