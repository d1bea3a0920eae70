ghost use Rattle.std.specs.Prelude.{◌≡◌, ◌==◌, ◌&&◌, ℕ, true};
ghost use Rattle.vx_config_parts.specs.Objects.{is_group, is_disk, is_plex, is_vol, refers, is_data_plex_of};
ghost use Rattle.std.specs.List.{count_by, list_any};
ghost use Rattle.vx_rules.specs.Limits.{has_one_group, is_short, fits_word, map_fits, numbers_fit, slot_is_own, volumes_are_few, is_short_name, name_is_short, region_is_good, regions_are_good, plexes_are_good};

use vx_block::Geometry;
use vx_config_parts::{Object, Plex, PlexKind, Subdisk, refers};
use vx_names::Name;

/// There is one group record, of version 1.
pub(crate) fn has_one_group(all: &[Object]) -> bool
    ensures { result ≡ has_one_group all.now }
{
    group_count(all) == 1 && has_version_1(all)
}

fn group_count(all: &[Object]) -> usize
    ensures { result ≡ count_by (λ o. is_group (λ g. true) o) all.now }
{
    all.iter().filter(|object| is_group(object)).count()
}

fn has_version_1(all: &[Object]) -> bool
    ensures { result ≡ list_any (λ o. is_group (λ g. g.version == 1) o) all.now }
{
    all.iter().any(|object| is_group_of_version_1(object))
}

fn is_group(object: &Object) -> bool
    ensures { result ≡ is_group (λ g. true) object.now }
{
    matches!(object, Object::GroupRecord(_))
}

fn is_group_of_version_1(object: &Object) -> bool
    ensures { result ≡ is_group (λ g. g.version == 1) object.now }
{
    match object {
        Object::GroupRecord(group) => group.version == 1,
        _ => false,
    }
}

/// Numbers are those of the text form, and their fields hold them; a DCO has 32 maps.
pub(crate) fn numbers_fit(object: &Object) -> bool
    ensures { result ≡ numbers_fit object.now }
{
    match object {
        Object::GroupRecord(_) => true,
        Object::DiskRecord(disk) => is_short(disk.publen) && disk.slot < 255,
        Object::SubdiskRecord(subdisk) => subdisk_fits(subdisk),
        Object::PlexRecord(plex) => is_short(plex.unit)
            && fits_word(plex.ncol)
            && map_fits(plex.map),
        Object::VolRecord(vol) => is_short(vol.len) && is_short(vol.region),
        Object::DcoRecord(dco) => dco.maps == 32,
        Object::SnapRecord(snap) => snap.map < 255 && snap.ofmap < 255,
    }
}

fn subdisk_fits(subdisk: &Subdisk) -> bool
    ensures { result ≡ (is_short subdisk.now.off && is_short subdisk.now.len && is_short subdisk.now.at && fits_word subdisk.now.col) }
{
    is_short(subdisk.off) && is_short(subdisk.len) && is_short(subdisk.at) && fits_word(subdisk.col)
}

fn map_fits(map: Option<u8>) -> bool
    ensures { result ≡ map_fits map }
{
    match map {
        None => true,
        Some(map) => map < 255,
    }
}

fn fits_word(number: u32) -> bool
    ensures { result ≡ fits_word number }
{
    number < 4_294_967_295
}

fn is_short(number: u64) -> bool
    ensures { result ≡ is_short number }
{
    number < 1_099_511_627_776
}

/// The slot is below 32, and no other disk has it. So at most 33 disks are looked at until one breaks the rule.
pub(crate) fn slot_is_own(all: &[Object], object: &Object) -> bool
    ensures { result ≡ slot_is_own all.now object.now }
{
    match object {
        Object::DiskRecord(disk) => disk.slot < 32 && slot_count(all, disk.slot) <= 1,
        _ => true,
    }
}

fn slot_count(all: &[Object], slot: u8) -> usize
    ensures { result ≡ count_by (λ o. is_disk (λ d. d.slot == slot) o) all.now }
{
    all.iter().filter(|object| is_disk_at(object, slot)).count()
}

fn is_disk_at(object: &Object, slot: u8) -> bool
    ensures { result ≡ is_disk (λ d. d.slot == slot) object.now }
{
    match object {
        Object::DiskRecord(disk) => disk.slot == slot,
        _ => false,
    }
}

/// There are at most 64 volumes.
pub(crate) fn volumes_are_few(all: &[Object]) -> bool
    ensures { result ≡ volumes_are_few all.now }
{
    all.iter().filter(|object| is_vol(object)).count() <= 64
}

fn is_vol(object: &Object) -> bool
    ensures { result ≡ is_vol (λ v. true) object.now }
{
    matches!(object, Object::VolRecord(_))
}

/// Names of the group, of disks and of volumes have at most 24 characters.
pub(crate) fn name_is_short(object: &Object) -> bool
    ensures { result ≡ name_is_short object.now }
{
    match object {
        Object::GroupRecord(group) => is_short_name(&group.name),
        Object::DiskRecord(disk) => is_short_name(&disk.name),
        Object::VolRecord(vol) => is_short_name(&vol.name),
        _ => true,
    }
}

fn is_short_name(name: &Name) -> bool
    ensures { result ≡ is_short_name name.now }
{
    name.as_bytes().len() <= 24
}

/// The volume's region has a size that is allowed.
pub(crate) fn region_is_good(object: &Object) -> bool
    ensures { result ≡ region_is_good object.now }
{
    match object {
        Object::VolRecord(vol) => matches!(vol.region, 32 | 64 | 128 | 256 | 512 | 1024 | 2048),
        _ => true,
    }
}

/// The volume has a valid geometry.
pub(crate) fn regions_are_good(object: &Object) -> bool
    ensures { result ≡ regions_are_good object.now }
{
    match object {
        Object::VolRecord(vol) => Geometry::new(vol.len, vol.region).is_some(),
        _ => true,
    }
}

/// The volume has a data plex, and at most 32 plexes.
pub(crate) fn plexes_are_good(all: &[Object], object: &Object) -> bool
    ensures { result ≡ plexes_are_good all.now object.now }
{
    match object {
        Object::VolRecord(vol) => has_data_plex(all, &vol.name) && plex_count(all, &vol.name) <= 32,
        _ => true,
    }
}

fn has_data_plex(all: &[Object], vol: &Name) -> bool
    ensures { result ≡ list_any (λ o. is_plex (λ p. is_data_plex_of vol.now p) o) all.now }
{
    all.iter().any(|object| is_data_plex_of(object, vol))
}

pub(crate) fn is_data_plex_of(object: &Object, vol: &Name) -> bool
    ensures { result ≡ is_plex (λ p. is_data_plex_of vol.now p) object.now }
{
    match object {
        Object::PlexRecord(plex) => is_data_of(plex, vol),
        _ => false,
    }
}

pub(crate) fn is_data_of(plex: &Plex, vol: &Name) -> bool
    ensures { result ≡ is_data_plex_of vol.now plex.now }
{
    refers(&plex.vol, vol) && plex.kind == PlexKind::Data
}

fn plex_count(all: &[Object], vol: &Name) -> usize
    ensures { result ≡ count_by (λ o. is_plex (λ p. refers p.vol vol.now) o) all.now }
{
    all.iter().filter(|object| is_plex_of(object, vol)).count()
}

fn is_plex_of(object: &Object, vol: &Name) -> bool
    ensures { result ≡ is_plex (λ p. refers p.vol vol.now) object.now }
{
    match object {
        Object::PlexRecord(plex) => refers(&plex.vol, vol),
        _ => false,
    }
}
