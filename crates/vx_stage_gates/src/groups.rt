//! What the imported group records.
ghost use Rattle.std.specs.Prelude.{◌≡◌, ◌||◌, ◌&&◌};
ghost use Rattle.std.specs.List.{list_any};
ghost use Rattle.std.specs.Str.{bytes_eq};
ghost use Rattle.vx_config_parts.specs.Objects.{refers};
ghost use Rattle.vx_stages.specs.Tests.{is_here, is_meant, recorded, volume_in, is_related, is_data, is_data_plex};
ghost use Rattle.vx_house.specs.View.{group_of};

use vx_config_parts::{PlexKind, refers, same};
use vx_house::Imported;
use vx_names::Name;
use vx_objects::{Plex, Snap, Vol};
use vx_piece::Piece;

/// The imported group is the one that is named, if one is.
pub(crate) fn is_here<P: Piece>(dg: &Option<Name>, group: &Option<Imported<P>>) -> bool
    ensures { result ≡ is_here dg.now (group_of P.seen group.now) }
{
    match group {
        None => false,
        Some(group) => match dg {
            None => true,
            Some(name) => same(&group.config.group, name),
        },
    }
}

/// The imported group's volume of the name.
pub(crate) fn recorded<P: Piece>(name: &Name, group: &Option<Imported<P>>) -> Option<Vol>
    ensures { result ≡ recorded name.now (group_of P.seen group.now) }
{
    match group {
        None => None,
        Some(group) => volume_in(name, group.config.volumes.as_slice()),
    }
}

/// The volume of the name.
fn volume_in(name: &Name, volumes: &[Vol]) -> Option<Vol>
    ensures { result ≡ volume_in name.now volumes.now }
{
    match volumes {
        [] => None,
        [first, rest @ ..] => {
            if same(&first.name, name) {
                Some(*first)
            } else {
                volume_in(name, rest)
            }
        }
    }
}

/// The group has a relation of the volume, as the snapshot or as the original.
pub(crate) fn is_related<P: Piece>(vol: &Name, group: &Option<Imported<P>>) -> bool
    ensures { result ≡ is_related vol.now (group_of P.seen group.now) }
{
    match group {
        None => false,
        Some(group) => relates(vol, group.config.snaps.as_slice()),
    }
}

fn relates(vol: &Name, snaps: &[Snap]) -> bool
    ensures { result ≡ list_any (λ s. bytes_eq s.vol vol.now || bytes_eq s.of vol.now) snaps.now }
{
    match snaps {
        [] => false,
        [first, rest @ ..] => same(&first.vol, vol) || same(&first.of, vol) || relates(vol, rest),
    }
}

/// The plex is a data plex of the volume.
pub(crate) fn has_plex<P: Piece>(vol: &Name, plex: &Name, group: &Option<Imported<P>>) -> bool
    ensures { result ≡ is_data_plex vol.now plex.now (group_of P.seen group.now) }
{
    match group {
        None => false,
        Some(group) => plex_among(vol, plex, group.config.plexes.as_slice()),
    }
}

fn plex_among(vol: &Name, plex: &Name, plexes: &[Plex]) -> bool
    ensures { result ≡ list_any (λ p. bytes_eq p.name plex.now && refers p.vol vol.now && is_data p.kind) plexes.now }
{
    match plexes {
        [] => false,
        [first, rest @ ..] => is_plex(vol, plex, first) || plex_among(vol, plex, rest),
    }
}

fn is_plex(vol: &Name, plex: &Name, one: &Plex) -> bool
    ensures { result ≡ (bytes_eq one.now.name plex.now && refers one.now.vol vol.now && is_data one.now.kind) }
{
    same(&one.name, plex) && refers(&one.vol, vol) && is_data(one.kind)
}

fn is_data(kind: PlexKind) -> bool
    ensures { result ≡ is_data kind }
{
    match kind {
        PlexKind::Data => true,
        PlexKind::Log => false,
    }
}
