//! What a command shows once all its stages are done.
ghost use Rattle.std.specs.Prelude.{IfOk, OnErr};
ghost use Rattle.vx_confdb.specs.Groups.{IsGroup};
ghost use Rattle.vx_run.specs.Shows.{CanShow, ShowsIn, ShowsOf, ShowsText, ShowsVolumes};

use crate::lent::lent_plexes;
use std::alloc::Global;
use vx_answers::{Bytes, View, Views};
use vx_base::OutOfMemory;
use vx_hierarchy::print_ht;
use vx_house::{House, Imported};
use vx_names::Name;
use vx_objects::Config;
use vx_piece::Piece;
use vx_plans::Finish;
use vx_print::print_m;

/// What is shown at the end of a plan.
pub(crate) fn show<P: Piece>(
    alloc: Global,
    house: &House<P>,
    finish: Finish,
) -> Result<Views, OutOfMemory>
    requires { CanShow P.seen finish house.now }
    ensures shows { IfOk result (ShowsIn P.seen finish house.now) }
    ensures wants { OnErr result (ShowsText finish) }
{
    let mut views = Vec::new(alloc);
    if let Some(group) = &house.group {
        match finish {
            Finish::Nothing => {}
            Finish::Records(vol) => {
                views.push(View::Text(records(alloc, &group.config, &vol)?))?;
            }
            Finish::Hierarchy(vol) => views.push(View::Text(volumes(alloc, group, &vol)?))?,
        }
    }
    Ok(Views::from_vec(views))
}

/// The records of a configuration, or of one of its volumes.
fn records(alloc: Global, config: &Config, vol: &Option<Name>) -> Result<Bytes, OutOfMemory>
    ensures { IfOk result (ShowsOf vol.now config.now) }
{
    let mut text = Vec::new(alloc);
    match print_m(alloc, config, vol.as_ref(), &mut text) {
        Ok(()) => Ok(Bytes::from_vec(text)),
        Err(_) => Err(OutOfMemory),
    }
}

/// The volumes of a group with their plexes, subdisks and kernel states, or one of them.
fn volumes<P: Piece>(
    alloc: Global,
    group: &Imported<P>,
    vol: &Option<Name>,
) -> Result<Bytes, OutOfMemory>
    requires { IsGroup P.seen group.now.base }
    ensures { IfOk result (ShowsVolumes P.seen vol.now group.now) }
{
    let lent = lent_plexes(alloc, &group.config, &group.public)?;
    let good = u64::from(group.base.good());
    let started = &group.public.running;
    let mut text = Vec::new(alloc);
    match print_ht(
        alloc,
        &group.config,
        good,
        &lent,
        started,
        vol.as_ref(),
        &mut text,
    ) {
        Ok(()) => Ok(Bytes::from_vec(text)),
        Err(_) => Err(OutOfMemory),
    }
}
