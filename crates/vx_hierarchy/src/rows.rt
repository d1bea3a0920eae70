//! The rows of a configuration.
ghost use Rattle.std.specs.Prelude.{◌≡◌, ◌∷◌, [], not, map, IfOk, OnOk};
ghost use Rattle.std.specs.BTreeMap.{get};
ghost use Rattle.std.specs.BTreeSet.{contains, IsFromIterResult};
ghost use Rattle.std.specs.Cmp.Lexicographic.{slice_cmp};
ghost use Rattle.std.specs.List.{filter_map};
ghost use Rattle.std.specs.Option.{option_or};
ghost use Rattle.std.specs.Ordering.{nat_cmp};
ghost use Rattle.vx_base.specs.Named.{Word};
ghost use Rattle.vx_objects.specs.Config.{objects_of};
ghost use Rattle.vx_hierarchy.specs.Rows.{is_lent, is_started, lost_plex, plex_named, plex_row, rows, stays_held, subdisk_row, unless_lent, volume_of, volume_row};

use crate::kernel::Kernel;
use crate::row::Row;
use std::alloc::{AllocError, Global};
use std::collections::{BTreeMap, BTreeSet};
use vx_base::OutOfMemory;
use vx_config_parts::same;
use vx_image::slot_of;
use vx_mask::contains;
use vx_names::Name;
use vx_objects::{Config, Disk, Plex, Subdisk, Vol};
use vx_rules::Pieces;

/// The rows of all volumes, of their plexes, and of the subdisks of these.
pub(crate) fn rows<T>(
    alloc: Global,
    config: &Config,
    good: u64,
    lent: &[Name],
    started: &BTreeMap<Name, T>,
) -> Result<Vec<Row>, OutOfMemory>
    ensures { IfOk result (λ v. v.items ≡ rows config.now (stays_held config.now good lent.now) (is_started started.now)) }
{
    let mut all = volume_rows(alloc, config.volumes.as_slice(), started)?;
    let plexes = plex_rows(alloc, config, good, lent, started)?;
    all.extend_from_slice(&plexes)?;
    let subdisks = subdisk_rows(alloc, config)?;
    all.extend_from_slice(&subdisks)?;
    Ok(all)
}

fn volume_rows<T>(
    alloc: Global,
    volumes: &[Vol],
    started: &BTreeMap<Name, T>,
) -> Result<Vec<Row>, AllocError>
    ensures { IfOk result (λ v. v.items ≡ map (volume_row (is_started started.now)) volumes.now) }
{
    volumes
        .iter()
        .map(|vol| volume_row(vol, started))
        .collect(alloc)
}

fn volume_row<T>(vol: &Vol, started: &BTreeMap<Name, T>) -> Row
    ensures { result ≡ volume_row (is_started started.now) vol.now }
{
    Row::VolumeRow(*vol, Kernel::of_volume(is_started(started, &vol.name)))
}

fn is_started<T>(started: &BTreeMap<Name, T>, vol: &Name) -> bool
    ensures { result ≡ is_started started.now vol.now }
{
    started.contains_key(vol)
}

fn plex_rows<T>(
    alloc: Global,
    config: &Config,
    good: u64,
    lent: &[Name],
    started: &BTreeMap<Name, T>,
) -> Result<Vec<Row>, OutOfMemory>
    ensures { IfOk result (λ v. v.items ≡ filter_map (plex_row (objects_of config.now) (stays_held config.now good lent.now) (is_started started.now)) config.now.plexes) }
{
    let lost = lost_plexes(alloc, config, good, lent)?;
    let all = config.objects(alloc)?;
    let pieces = Pieces::of(alloc, &all)?;
    let found = rows_of_plexes(alloc, config.plexes.as_slice(), &lost, &pieces, started)?;
    Ok(found)
}

fn rows_of_plexes<T>(
    alloc: Global,
    plexes: &[Plex],
    lost: &BTreeSet<Name>,
    pieces: &Pieces,
    started: &BTreeMap<Name, T>,
) -> Result<Vec<Row>, AllocError>
    ensures { IfOk result (λ v. v.items ≡ filter_map (plex_row pieces.now (λ p. not (contains (slice_cmp nat_cmp) lost.now p.name)) (is_started started.now)) plexes.now) }
{
    plexes
        .iter()
        .filter_map(|plex| plex_row(plex, lost, pieces, started))
        .collect(alloc)
}

fn plex_row<T>(
    plex: &Plex,
    lost: &BTreeSet<Name>,
    pieces: &Pieces,
    started: &BTreeMap<Name, T>,
) -> Option<Row>
    ensures { result ≡ plex_row pieces.now (λ p. not (contains (slice_cmp nat_cmp) lost.now p.name)) (is_started started.now) plex.now }
{
    match &plex.vol {
        None => None,
        Some(vol) => {
            let held = !lost.contains(&plex.name);
            let kernel = Kernel::of_plex(is_started(started, vol), held, plex.state);
            Some(Row::PlexRow(*plex, *vol, kernel, pieces.plex_length(plex)))
        }
    }
}

/// The names of the plexes of which a disk is not good and whose pieces are not lent.
fn lost_plexes(
    alloc: Global,
    config: &Config,
    good: u64,
    lent: &[Name],
) -> Result<BTreeSet<Name>, AllocError>
    ensures { IfOk result (λ s. IsFromIterResult (slice_cmp nat_cmp) (filter_map (lost_plex config.now.disks good lent.now) config.now.subdisks) s) }
{
    let disks = config.disks.as_slice();
    config
        .subdisks
        .as_slice()
        .iter()
        .filter_map(|subdisk| lost_plex(disks, good, lent, subdisk))
        .collect(alloc)
}

/// The plex of the subdisk, where the subdisk's disk is not good and the plex's pieces are not lent.
fn lost_plex(disks: &[Disk], good: u64, lent: &[Name], subdisk: &Subdisk) -> Option<Name>
    ensures { result ≡ lost_plex disks.now good lent.now subdisk.now }
{
    if contains(good, slot_of(disks, &subdisk.disk) as u32) {
        None
    } else {
        unless_lent(lent, &subdisk.plex)
    }
}

fn unless_lent(lent: &[Name], plex: &Option<Name>) -> Option<Name>
    ensures { result ≡ unless_lent lent.now plex.now }
{
    match plex {
        Some(name) if !is_lent(lent, name) => Some(*name),
        _ => None,
    }
}

fn is_lent(lent: &[Name], plex: &Name) -> bool
    ensures { result ≡ is_lent lent.now plex.now }
{
    lent.iter().any(|name| same(name, plex))
}

fn subdisk_rows(alloc: Global, config: &Config) -> Result<Vec<Row>, OutOfMemory>
    ensures { IfOk result (λ v. v.items ≡ filter_map (subdisk_row (plex_named config.now.plexes)) config.now.subdisks) }
{
    let named = plexes_by_name(alloc, config.plexes.as_slice())?;
    let found = rows_of_subdisks(alloc, config.subdisks.as_slice(), &named)?;
    Ok(found)
}

fn rows_of_subdisks(
    alloc: Global,
    subdisks: &[Subdisk],
    named: &BTreeMap<Name, Plex>,
) -> Result<Vec<Row>, AllocError>
    ensures { IfOk result (λ v. v.items ≡ filter_map (subdisk_row (get (slice_cmp nat_cmp) named.now)) subdisks.now) }
{
    subdisks
        .iter()
        .filter_map(|subdisk| subdisk_row(subdisk, named))
        .collect(alloc)
}

fn subdisk_row(subdisk: &Subdisk, named: &BTreeMap<Name, Plex>) -> Option<Row>
    ensures { result ≡ subdisk_row (get (slice_cmp nat_cmp) named.now) subdisk.now }
{
    match &subdisk.plex {
        None => None,
        Some(plex) => match volume_of(named, plex) {
            None => None,
            Some(vol) => Some(Row::SubdiskRow(*subdisk, *plex, vol)),
        },
    }
}

/// The volume of the plex, if both are there.
fn volume_of(named: &BTreeMap<Name, Plex>, plex: &Name) -> Option<Name>
    ensures { result ≡ volume_of (get (slice_cmp nat_cmp) named.now plex.now) }
{
    match named.get(plex) {
        None => None,
        Some(found) => found.vol,
    }
}

fn plexes_by_name(alloc: Global, plexes: &[Plex]) -> Result<BTreeMap<Name, Plex>, OutOfMemory>
    ensures { IfOk result (λ named. (name : Word) → get (slice_cmp nat_cmp) named name ≡ plex_named plexes.now name) }
{
    let mut named = BTreeMap::new(alloc);
    for plex in plexes {
        put_plex(&mut named, plex)?;
    }
    Ok(named)
}

/// Puts the plex beside those that are there, if none has its name.
fn put_plex(named: &mut BTreeMap<Name, Plex>, plex: &Plex) -> Result<(), OutOfMemory>
    ensures { OnOk result ((name : Word) → get (slice_cmp nat_cmp) named.new name ≡ option_or (get (slice_cmp nat_cmp) named.old name) (plex_named (plex.now ∷ []) name)) }
{
    if !named.contains_key(&plex.name) {
        named.insert(plex.name, *plex)?;
    }
    Ok(())
}
