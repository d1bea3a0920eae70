//! The volumes that the command goes over.
ghost use Rattle.std.specs.Prelude.{◌≡◌, IfOk, map};
ghost use Rattle.vx_house.specs.Plain.{plain};
ghost use Rattle.vx_recovery.specs.Going.{at_rest};
ghost use Rattle.vx_stage_recovery.specs.Names.{AreNames};

use std::alloc::Global;
use vx_base::OutOfMemory;
use vx_house::House;
use vx_names::Name;
use vx_objects::Config;
use vx_piece::Piece;
use vx_stage_gates::is_started;

/// The names of the volumes, in order: the one that is given, or all.
pub(crate) fn names_of(
    alloc: Global,
    config: &Config,
    vol: Option<Name>,
) -> Result<Vec<Name>, OutOfMemory>
    ensures { IfOk result (λ names. AreNames vol config.now names.items) }
{
    match vol {
        Some(name) => Ok(Vec::from_slice(alloc, &[name])?),
        None => all_names(alloc, config),
    }
}

/// The names of all volumes, in order.
fn all_names(alloc: Global, config: &Config) -> Result<Vec<Name>, OutOfMemory>
    ensures { IfOk result (λ names. AreNames None config.now names.items) }
{
    let mut names = Vec::new(alloc);
    for vol in config.volumes.as_slice() {
        names.push(vol.name)?;
    }
    names.sort_unstable();
    Ok(names)
}

/// Those that do not run.
pub(crate) fn at_rest<P: Piece>(
    alloc: Global,
    house: &House<P>,
    names: &[Name],
) -> Result<Vec<Name>, OutOfMemory>
    ensures { IfOk result (λ rest. rest.items ≡ at_rest (plain P.seen house.now) names.now) }
{
    let mut rest = Vec::new(alloc);
    for name in names {
        if !is_started(house, name) {
            rest.push(*name)?;
        }
    }
    Ok(rest)
}
