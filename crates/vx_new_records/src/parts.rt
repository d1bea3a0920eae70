ghost use Rattle.std.specs.Prelude.{◌≡◌, ◌++◌, map, IfOk, OnOk};
ghost use Rattle.vx_config_parts.specs.declared.object.Object.TheVariants.{PlexRecord};
ghost use Rattle.vx_new_volumes.specs.Records.{has_logs, vol_of, dco_of, layout_of, data_plex, data_plexes, log_plex};
ghost use Rattle.vx_new_volumes.specs.Logs.{log_in};

use std::alloc::{AllocError, Global};
use vx_base::OutOfMemory;
use vx_config_parts::{
    Dco, Object, Plex, PlexKind, PlexLayout, PlexState, PolicyKind, Vol, VolState,
};
use vx_names::Name;
use vx_new_volumes::NewVolume;

/// Appends the records.
pub(crate) fn join(records: &[Object], out: &mut Vec<Object>) -> Result<(), AllocError>
    ensures { OnOk result (out.new.items ≡ out.old.items ++ records.now) }
{
    out.extend_from_slice(records)
}

/// The volume is to have logs, and a DCO with them.
pub(crate) fn has_logs(new: &NewVolume) -> bool
    ensures { result ≡ has_logs new.now }
{
    new.request.logs > 0
}

/// The volume, as it was never started.
pub(crate) fn vol_of(new: &NewVolume, dco: Name) -> Vol
    ensures { result ≡ vol_of new.now dco }
{
    Vol {
        name: new.vol,
        len: new.request.length,
        region: new.request.region,
        rdpol: PolicyKind::Round,
        prefer: None,
        state: VolState::Empty,
        dco: if has_logs(new) { Some(dco) } else { None },
    }
}

/// The DCO, where there are logs.
pub(crate) fn dco_of(alloc: Global, new: &NewVolume, dco: Name) -> Result<Vec<Object>, OutOfMemory>
    ensures { IfOk result (λ records. records.items ≡ dco_of new.now dco) }
{
    let mut records = Vec::new(alloc);
    if has_logs(new) {
        let dco = Dco {
            name: dco,
            vol: new.vol,
            maps: 32,
        };
        join(&[Object::DcoRecord(dco)], &mut records)?;
    }
    Ok(records)
}

fn layout_of(ncol: u32) -> PlexLayout
    ensures { result ≡ layout_of ncol }
{
    if ncol == 1 {
        PlexLayout::Concat
    } else {
        PlexLayout::Stripe
    }
}

/// A data plex, with a map where there are logs.
fn data_plex(new: &NewVolume, map: u8, name: Name) -> Object
    ensures { result ≡ PlexRecord (data_plex new.now map name) }
{
    Object::PlexRecord(Plex {
        name,
        vol: Some(new.vol),
        kind: PlexKind::Data,
        layout: layout_of(new.request.ncol),
        ncol: new.request.ncol,
        unit: new.request.unit,
        state: PlexState::Empty,
        map: if has_logs(new) { Some(map) } else { None },
    })
}

/// Data plexes of these names, with rising maps.
pub(crate) fn data_plexes(
    alloc: Global,
    new: &NewVolume,
    names: &[Name],
) -> Result<Vec<Object>, OutOfMemory>
    ensures { IfOk result (λ records. records.items ≡ data_plexes new.now 0 names.now) }
{
    let mut records = Vec::new(alloc);
    let mut map: u8 = 0;
    for name in names {
        join(&[data_plex(new, map, *name)], &mut records)?;
        map = map.saturating_add(1);
    }
    Ok(records)
}

/// Logs of these names.
pub(crate) fn log_plexes(
    alloc: Global,
    new: &NewVolume,
    names: &[Name],
) -> Result<Vec<Object>, OutOfMemory>
    ensures { IfOk result (λ records. records.items ≡ map (log_plex new.now) names.now) }
{
    logs_in(alloc, new.vol, PlexState::Empty, names)
}

/// Logs of these names in a volume, all in this state.
pub(crate) fn logs_in(
    alloc: Global,
    vol: Name,
    state: PlexState,
    names: &[Name],
) -> Result<Vec<Object>, OutOfMemory>
    ensures { IfOk result (λ records. records.items ≡ map (log_in vol state) names.now) }
{
    let mut records = Vec::new(alloc);
    for name in names {
        join(&[log_in(vol, state, *name)], &mut records)?;
    }
    Ok(records)
}

fn log_in(vol: Name, state: PlexState, name: Name) -> Object
    ensures { result ≡ log_in vol state name }
{
    Object::PlexRecord(Plex {
        name,
        vol: Some(vol),
        kind: PlexKind::Log,
        layout: PlexLayout::Concat,
        ncol: 1,
        unit: 128,
        state,
        map: None,
    })
}
