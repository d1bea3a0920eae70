//! What a volume needs.
ghost use Rattle.std.specs.Prelude.{◌≡◌};
ghost use Rattle.vx_house.specs.Plain.{plain};
ghost use Rattle.vx_recovery.specs.Going.{need_by, need_of};
ghost use Rattle.vx_stage_recovery.specs.Needs.{need_is};

use vx_config_parts::VolState;
use vx_house::House;
use vx_names::Name;
use vx_piece::Piece;
use vx_stage_changes::volume_in;
use vx_stage_gates::is_started;

/// What a volume that does not run needs, by its state.
#[derive(Clone, Copy, Debug, PartialEq, Eq)]
pub(crate) enum Need {
    /// It is passed over.
    Pass,
    /// It was stopped, and is started.
    Begin,
    /// It ran as the power went, or its recovery was begun.
    Heal,
}

/// What the volume of the name needs; one that runs is passed over, and so is a name that no volume has.
pub(crate) fn need_of<P: Piece>(house: &House<P>, name: &Name) -> Need
    ensures { need_is result ≡ need_of name.now (plain P.seen house.now) }
{
    if is_started(house, name) {
        return Need::Pass;
    }
    match &house.group {
        None => Need::Pass,
        Some(group) => match volume_in(group.config.volumes.as_slice(), name) {
            None => Need::Pass,
            Some(vol) => need_by(vol.state),
        },
    }
}

/// What a volume in this state needs that does not run.
pub(crate) fn need_by(state: VolState) -> Need
    ensures { need_is result ≡ need_by state }
{
    match state {
        VolState::Empty | VolState::Active => Need::Pass,
        VolState::Clean => Need::Begin,
        VolState::NeedSync | VolState::Sync => Need::Heal,
    }
}
