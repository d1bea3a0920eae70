ghost use Rattle.std.specs.Prelude.{◌≡◌};
ghost use Rattle.vx_states.specs.Table.{is_active, is_complete, is_copied, may_attach, next_state, only, plex_after, plex_recovered, plex_started, plex_stopped, vol_after};

use crate::action::{Action, WrongState};
use vx_config_parts::{PlexState, VolState};

/// The states of a volume, and of a plex if one is named, after an action. A plex state that an action says nothing of
/// stays.
pub fn next_state(
    action: Action,
    vol: VolState,
    plex: Option<PlexState>,
) -> Result<(VolState, Option<PlexState>), WrongState>
    ensures { result ≡ next_state action vol plex }
{
    let Some(vol_after) = vol_after(action, vol) else {
        return Err(WrongState::Vol(vol));
    };
    match plex {
        None => Ok((vol_after, None)),
        Some(plex) => match plex_after(action, plex) {
            None => Err(WrongState::Plex(plex)),
            Some(plex_after) => Ok((vol_after, Some(plex_after))),
        },
    }
}

/// The state of a volume after an action, where the action exists for it.
fn vol_after(action: Action, vol: VolState) -> Option<VolState>
    ensures { result ≡ vol_after action vol }
{
    match (action, vol) {
        (Action::Start, VolState::Empty | VolState::Clean) => Some(VolState::Active),
        (Action::Stop { .. }, VolState::Active) => Some(VolState::Clean),
        (Action::Import, VolState::Active | VolState::Sync) => Some(VolState::NeedSync),
        (Action::RecoverBegin, VolState::NeedSync | VolState::Sync) => Some(VolState::Sync),
        (Action::RecoverEnd { .. }, VolState::Sync) => Some(VolState::Active),
        (
            Action::Detach
            | Action::Attach
            | Action::Add
            | Action::Added
            | Action::Mirror
            | Action::Restore
            | Action::BreakOff,
            VolState::Active,
        ) => Some(VolState::Active),
        (Action::Import | Action::Dissociate, vol) => Some(vol),
        _ => None,
    }
}

/// The state of a plex after an action, where the action exists for it.
fn plex_after(action: Action, plex: PlexState) -> Option<PlexState>
    ensures { result ≡ plex_after action plex }
{
    match action {
        Action::Start => Some(plex_started(plex)),
        Action::Stop { marked } => Some(plex_stopped(marked, plex)),
        Action::RecoverEnd { marked } => Some(plex_recovered(marked, plex)),
        Action::Import | Action::RecoverBegin => Some(plex),
        Action::Detach => only(is_active(plex), PlexState::Stale),
        Action::Attach => only(may_attach(plex), PlexState::Active),
        Action::Added => only(is_copied(plex), PlexState::SnapDone),
        Action::BreakOff => only(is_complete(plex), PlexState::Active),
        Action::Dissociate => Some(PlexState::Empty),
        Action::Add => Some(PlexState::SnapAtt),
        Action::Mirror => Some(PlexState::Active),
        Action::Restore => Some(PlexState::SnapDone),
    }
}

fn only(exists: bool, after: PlexState) -> Option<PlexState>
    ensures { result ≡ only exists after }
{
    if exists { Some(after) } else { None }
}

fn plex_started(plex: PlexState) -> PlexState
    ensures { result ≡ plex_started plex }
{
    match plex {
        PlexState::Empty | PlexState::Clean | PlexState::IoFail => PlexState::Active,
        other => other,
    }
}

fn plex_stopped(marked: bool, plex: PlexState) -> PlexState
    ensures { result ≡ plex_stopped marked plex }
{
    match plex {
        PlexState::Active if marked => PlexState::IoFail,
        PlexState::Active => PlexState::Clean,
        other => other,
    }
}

fn plex_recovered(marked: bool, plex: PlexState) -> PlexState
    ensures { result ≡ plex_recovered marked plex }
{
    match plex {
        PlexState::SnapAtt if !marked => PlexState::SnapDone,
        PlexState::IoFail => PlexState::Active,
        other => other,
    }
}

fn may_attach(plex: PlexState) -> bool
    ensures { result ≡ may_attach plex }
{
    matches!(
        plex,
        PlexState::Stale | PlexState::IoFail | PlexState::Active
    )
}

fn is_active(plex: PlexState) -> bool
    ensures { result ≡ is_active plex }
{
    matches!(plex, PlexState::Active)
}

fn is_copied(plex: PlexState) -> bool
    ensures { result ≡ is_copied plex }
{
    matches!(plex, PlexState::SnapAtt)
}

fn is_complete(plex: PlexState) -> bool
    ensures { result ≡ is_complete plex }
{
    matches!(plex, PlexState::SnapDone)
}
