//! The view of volumes with their plexes and subdisks.
ghost use Rattle.std.specs.Prelude.{◌≡◌, ◌⊎◌, if◌then◌else◌, IfErr, IfOk, IfSome, MatchOption, OnOk, Err, None, Some};
ghost use Rattle.std.specs.List.{filter, list_any};
ghost use Rattle.std.specs.Option.{option_copied};
ghost use Rattle.std.specs.Str.{bytes_eq};
ghost use Rattle.vx_print.specs.Shown.{missing};
ghost use Rattle.vx_hierarchy.specs.Hierarchy.{IsHierarchy};
ghost use Rattle.vx_hierarchy.specs.Rows.{is_asked, is_started, stays_held};

use crate::lines::put_rows;
use crate::row::Row;
use crate::rows::rows;
use std::alloc::{AllocError, Global};
use std::collections::BTreeMap;
use vx_base::OutOfMemory;
use vx_config_parts::same;
use vx_names::Name;
use vx_objects::{Config, Vol};
use vx_print::PrintFault;

/// Appends a line for each volume, or for the one that is asked for, behind it one for each of its plexes, and behind that
/// one for each of the plex's subdisks. The good disks are a mask of slots, and a volume is started where the map has its
/// name. `lent` names the plexes that started volumes have the pieces of: they stay accessible where a disk of theirs is good
/// no longer. Where no volume has the name that is asked for, nothing is appended; where memory is wanting, a part of the
/// text may be.
pub fn print_ht<T>(
    alloc: Global,
    config: &Config,
    good: u64,
    lent: &[Name],
    started: &BTreeMap<Name, T>,
    only: Option<&Name>,
    out: &mut Vec<u8>,
) -> Result<(), PrintFault>
    ensures ok { OnOk result (IsHierarchy config.now (stays_held config.now good lent.now) (is_started started.now) (option_copied only.entry) out.old.items out.new.items) }
    ensures no_object { IfSome (missing (option_copied only.entry) config.now) (λ vol. result ≡ Err (PrintFault.NoObject vol)) }
    ensures untouched { IfSome (missing (option_copied only.entry) config.now) (λ vol. out.new ≡ out.old) }
    ensures only { IfErr result (λ fault. (fault ≡ PrintFault.OutOfMemory) ⊎ MatchOption (missing (option_copied only.entry) config.now) ⊥ (λ vol. fault ≡ PrintFault.NoObject vol)) }
{
    if let Some(vol) = missing(only, config) {
        return Err(PrintFault::NoObject(vol));
    }
    match put_shown(alloc, config, good, lent, started, only, out) {
        Ok(()) => Ok(()),
        Err(_) => Err(PrintFault::OutOfMemory),
    }
}

/// The volume that is asked for, where none has the name.
fn missing(only: Option<&Name>, config: &Config) -> Option<Name>
    ensures { result ≡ missing (option_copied only.entry) config.now }
{
    match only {
        None => None,
        Some(vol) => if_missing(vol, config.volumes.as_slice()),
    }
}

fn if_missing(name: &Name, volumes: &[Vol]) -> Option<Name>
    ensures { result ≡ (if list_any (λ v. bytes_eq v.name name.now) volumes.now then None else Some name.now) }
{
    if has_vol(name, volumes) {
        None
    } else {
        Some(*name)
    }
}

fn has_vol(name: &Name, volumes: &[Vol]) -> bool
    ensures { result ≡ list_any (λ v. bytes_eq v.name name.now) volumes.now }
{
    volumes.iter().any(|vol| same(&vol.name, name))
}

fn put_shown<T>(
    alloc: Global,
    config: &Config,
    good: u64,
    lent: &[Name],
    started: &BTreeMap<Name, T>,
    only: Option<&Name>,
    out: &mut Vec<u8>,
) -> Result<(), OutOfMemory>
    ensures { OnOk result (IsHierarchy config.now (stays_held config.now good lent.now) (is_started started.now) (option_copied only.entry) out.old.items out.new.items) }
{
    let all = rows(alloc, config, good, lent, started)?;
    let mut shown = asked(alloc, only, &all)?;
    shown.sort_by_key(|row| (row.volume(), row.plex(), row.piece()))?;
    put_rows(&shown, out)
}

/// The rows of the volume that is asked for, if one is.
fn asked(alloc: Global, only: Option<&Name>, all: &[Row]) -> Result<Vec<Row>, AllocError>
    ensures { IfOk result (λ v. v.items ≡ filter (is_asked (option_copied only.entry)) all.now) }
{
    all.iter()
        .filter(|row| row.is_asked(only))
        .copied()
        .collect(alloc)
}
