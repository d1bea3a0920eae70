//! The view that `vxmake -d` reads back: records as text.
ghost use Rattle.std.specs.Prelude.{◌≡◌, ◌⊎◌, if◌then◌else◌, IfErr, IfSome, IsTrue, MatchOption, OnOk, Err, None, Some};
ghost use Rattle.std.specs.List.{list_any};
ghost use Rattle.std.specs.Option.{option_copied};
ghost use Rattle.std.specs.Str.{bytes_eq};
ghost use Rattle.vx_objects.specs.Config.{objects_of};
ghost use Rattle.vx_objects.specs.Laws.{place_of};
ghost use Rattle.vx_print.specs.Shown.{IsPrinted, missing};

use crate::fault::PrintFault;
use crate::shown::shown;
use std::alloc::Global;
use vx_base::OutOfMemory;
use vx_config_parts::same;
use vx_names::Name;
use vx_objects::{Config, Vol, records_of};
use vx_record::{Kind, print};

/// Appends all records, or, with a volume, the subdisk, plex, volume and DCO records of it: kind by kind, and within a
/// kind by name. Where no volume has the name, nothing is appended; where memory is wanting, a part of the text may be.
pub fn print_m(
    alloc: Global,
    config: &Config,
    only: Option<&Name>,
    out: &mut Vec<u8>,
) -> Result<(), PrintFault>
    ensures ok { OnOk result (IsPrinted (option_copied only.entry) (objects_of config.now) out.old.items out.new.items) }
    ensures no_object { IfSome (missing (option_copied only.entry) config.now) (λ vol. result ≡ Err (PrintFault.NoObject vol)) }
    ensures untouched { IfSome (missing (option_copied only.entry) config.now) (λ vol. out.new ≡ out.old) }
    ensures only { IfErr result (λ fault. (fault ≡ PrintFault.OutOfMemory) ⊎ MatchOption (missing (option_copied only.entry) config.now) ⊥ (λ vol. fault ≡ PrintFault.NoObject vol)) }
{
    if let Some(vol) = missing(only, config) {
        return Err(PrintFault::NoObject(vol));
    }
    match put_shown(alloc, config, only, out) {
        Ok(()) => Ok(()),
        Err(_) => Err(PrintFault::OutOfMemory),
    }
}

/// The volume that is asked for, where none has the name.
fn missing(only: Option<&Name>, config: &Config) -> Option<Name>
    ensures { result ≡ missing (option_copied only.entry) config.now }
{
    match only {
        None => None,
        Some(vol) => if_missing(vol, config.volumes.as_slice()),
    }
}

fn if_missing(name: &Name, volumes: &[Vol]) -> Option<Name>
    ensures { result ≡ (if list_any (λ v. bytes_eq v.name name.now) volumes.now then None else Some name.now) }
{
    if has_vol(name, volumes) {
        None
    } else {
        Some(*name)
    }
}

fn has_vol(name: &Name, volumes: &[Vol]) -> bool
    ensures { result ≡ list_any (λ v. bytes_eq v.name name.now) volumes.now }
{
    volumes.iter().any(|vol| same(&vol.name, name))
}

fn put_shown(
    alloc: Global,
    config: &Config,
    only: Option<&Name>,
    out: &mut Vec<u8>,
) -> Result<(), OutOfMemory>
    ensures { OnOk result (IsPrinted (option_copied only.entry) (objects_of config.now) out.old.items out.new.items) }
{
    let objects = shown(alloc, config, only)?;
    let mut records = records_of(alloc, &objects)?.into_vec();
    records.sort_by_key(|shown| (place(shown.kind), shown.name))?;
    print(&records, out)
}

/// The place of the kind in print.
fn place(kind: Kind) -> u8
    ensures { result ≡ place_of kind }
{
    kind as u8
}
