//! How reads of a volume choose among its plexes, as its record says.

ghost use Rattle.std.specs.Prelude.{◌≡◌};
ghost use Rattle.std.specs.List.{find};
ghost use Rattle.std.specs.Option.{option_map};
ghost use Rattle.vx_lending.specs.Policy.{is_named, policy_of, preferred, preferring};

use crate::plexes::map_or_zero;
use vx_config_parts::same;
use vx_names::Name;
use vx_objects::{Config, Plex, PolicyKind, Vol};
use vx_picker::Policy;

/// The policy of a volume of the configuration. A plex that is preferred is the one of the name; where there is none reads go in turn.
pub fn policy_of(config: &Config, vol: &Vol) -> Policy
    ensures { result ≡ policy_of config.now vol.now }
{
    match vol.rdpol {
        PolicyKind::Round => Policy::Round,
        PolicyKind::Prefer => preferring(config, &vol.prefer),
        PolicyKind::Select => Policy::Select,
    }
}

fn preferring(config: &Config, name: &Option<Name>) -> Policy
    ensures { result ≡ preferring config.now name.now }
{
    match name {
        None => Policy::Round,
        Some(name) => preferred(plex_named(config.plexes.as_slice(), name)),
    }
}

fn preferred(plex: Option<&Plex>) -> Policy
    ensures { result ≡ preferred (option_map (λ p. p.now) plex.entry) }
{
    match plex {
        None => Policy::Round,
        Some(plex) => Policy::Prefer(u32::from(map_or_zero(plex.map))),
    }
}

fn plex_named<'a>(plexes: &'a [Plex], name: &Name) -> Option<&'a Plex>
    ensures { option_map (λ p. p.now) result ≡ find (is_named name.now) plexes.now }
{
    plexes.iter().find(|plex| same(&plex.name, name))
}
