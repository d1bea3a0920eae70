//! What becomes of a running volume of which a plex goes on or off: laws, as functions that do nothing and promise them.

ghost use Rattle.vx_stage_mirrors.specs.SwitchMoments.{EachSwitchGoes, EachSwitchIsSound, EachSwitchIsWithin};

use vx_change_laws::each_switch_runs_on;
use vx_house::{House, Imported};
use vx_lending::Running;
use vx_piece::Piece;
use vx_volume_laws::lives::each_left_volume_stands;

/// A running volume of which a plex goes on or off, once that is recorded, runs on so, as all others do.
pub fn each_switch_goes<P: Piece + Drop>(house: &House<P>, old: &Imported<P>, new: &Imported<P>)
    ensures { EachSwitchGoes P.seen house.now old.now new.now }
{
    each_switch_runs_on();
    let _ = house;
    let _ = old;
    let _ = new;
}

/// As that is recorded the volume is sound by its bytes.
pub fn each_switch_is_sound<P: Piece + Drop>(running: &Running<P>)
    ensures { EachSwitchIsSound P.seen running.now }
{
    each_left_volume_stands();
    let _ = running;
}

/// What is read of the volume then lies within its candidates, where the plex goes on.
pub fn each_switch_is_within<P: Piece + Drop>(running: &Running<P>)
    ensures { EachSwitchIsWithin P.seen running.now }
{
    each_left_volume_stands();
    let _ = running;
}
