//! Which volumes are started.
ghost use Rattle.std.specs.Prelude.{◌≡◌, Some, is_some};
ghost use Rattle.vx_stages.specs.Tests.{earlier, first_started, started_of};
ghost use Rattle.vx_house.specs.Plain.{plain};
ghost use Rattle.vx_house.specs.Runs.{run_in};

use vx_config_parts::comes_before;
use vx_house::{House, Imported};
use vx_names::Name;
use vx_objects::Vol;
use vx_piece::Piece;

/// A volume of the name is started.
pub fn is_started<P: Piece>(house: &House<P>, vol: &Name) -> bool
    ensures { result ≡ is_some ((plain P.seen house.now).volumes vol.now) }
{
    house.volumes.contains_key(vol) || runs(&house.group, vol)
}

/// A volume of the name runs on plexes of the group.
fn runs<P: Piece>(group: &Option<Imported<P>>, vol: &Name) -> bool
    ensures { result ≡ is_some (run_in group.now vol.now) }
{
    match group {
        None => false,
        Some(group) => group.public.running.contains_key(vol),
    }
}

/// The group's first volume by name that is started.
pub(crate) fn first_started<P: Piece>(house: &House<P>) -> Option<Name>
    ensures { result ≡ started_of (plain P.seen house.now).volumes (plain P.seen house.now).group }
{
    match &house.group {
        None => None,
        Some(group) => first_of(house, group.config.volumes.as_slice()),
    }
}

fn first_of<P: Piece>(house: &House<P>, volumes: &[Vol]) -> Option<Name>
    ensures { result ≡ first_started (plain P.seen house.now).volumes volumes.now }
{
    match volumes {
        [] => None,
        [first, rest @ ..] => {
            if is_started(house, &first.name) {
                Some(earlier(first.name, first_of(house, rest)))
            } else {
                first_of(house, rest)
            }
        }
    }
}

/// The first by name of two.
fn earlier(name: Name, other: Option<Name>) -> Name
    ensures { Some result ≡ earlier name other }
{
    match other {
        None => name,
        Some(other) => {
            if comes_before(&other, &name) {
                other
            } else {
                name
            }
        }
    }
}
