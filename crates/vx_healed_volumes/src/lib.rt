//! What healing an open volume makes of it and of its bytes: laws, as functions that do nothing and promise them.
#![tactic(auto)]

ghost use Rattle.vx_healed_volumes.specs.Laws.{EachHealedVolumeIsWhole, EachHealedVolumeReadsOneList, EachHealedVolumeStands, EachHealingGoesOn, EachHealingHasReason, EachHealingRunsOn};

use vx_group_recover::laws::each_healing_heals;
use vx_lending::{Public, Running};
use vx_piece::Piece;
use vx_volume::Volume;
use vx_volume_laws::lives::{
    each_left_volume_stands, each_opening_runs, each_pass_runs_on, each_running_forgets,
};

/// A volume that is healed runs on as the volume of the world whose devices have failed too.
pub fn each_healing_runs_on()
    ensures { EachHealingRunsOn }
{
    each_pass_runs_on();
}

/// It keeps where it lies and its pieces, and where it is not done there is a reason.
pub fn each_healing_goes_on<P: Piece + Drop>(old: &Volume<P>, new: &Volume<P>)
    ensures places { EachHealingGoesOn P.seen old.now new.now }
    ensures reason { EachHealingHasReason P.seen old.now new.now }
{
    let _ = old;
    let _ = new;
}

/// What it leaves stands for the bytes that it was opened over. Once it is done one list is read from them, and no
/// copy of its log marks anything that was healed.
pub fn each_healed_volume_stands<P: Piece + Drop>(
    old: &Public<P>,
    new: &Public<P>,
    running: &Running<P>,
    after: &Running<P>,
)
    ensures stands { EachHealedVolumeStands P.seen old.now new.now running.now after.now }
    ensures list { EachHealedVolumeReadsOneList P.seen old.now new.now running.now after.now }
    ensures whole { EachHealedVolumeIsWhole P.seen old.now new.now running.now after.now }
{
    each_opening_runs();
    each_running_forgets();
    each_left_volume_stands();
    each_healing_heals();
    each_healing_runs_on();
    let _ = old;
    let _ = new;
    let _ = running;
    let _ = after;
}
