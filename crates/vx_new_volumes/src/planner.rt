ghost use Rattle.std.specs.Prelude.{◌≡◌, ◌⊎◌, true, ℕ, List, [], Ok, Err, IfOk, IfErr};
ghost use Rattle.vx_new_volumes.specs.Disks.{names_of};
ghost use Rattle.vx_new_volumes.specs.Steps.{repeated};
ghost use Rattle.vx_new_volumes.specs.Rule.{is_request, mirror, then_logs, plan_over, rule};
ghost use Rattle.vx_new_volumes.specs.Planned.{IsPlanned};

use crate::disks::{candidates, names_of, without};
use crate::fault::PlanFault;
use crate::gather::spread;
use crate::length::{column_length, log_length};
use crate::parts::Plan;
use crate::place::places;
use crate::request::Request;
use std::alloc::Global;
use vx_names::Name;
use vx_objects::{Config, Listed};
use vx_space::{Extent, Free, good_disks};

/// Where the plexes and logs of a request go, on the disks of the configuration whose slots are in the mask.
pub fn plan(alloc: Global, config: &Config, good: u32, request: &Request) -> Result<Plan, PlanFault>
    requires { is_request request.now ≡ true }
    ensures found { IfOk result (λ plan. IsPlanned config.now good request.now (Ok plan)) }
    ensures refused { IfErr result (λ fault. (fault ≡ PlanFault.OutOfMemory) ⊎ IsPlanned config.now good request.now (Err fault)) }
{
    let Ok(disks) = good_disks(alloc, config, good) else {
        return Err(PlanFault::OutOfMemory);
    };
    let Ok(names) = names_of(alloc, &disks) else {
        return Err(PlanFault::OutOfMemory);
    };
    let Ok(free) = Free::of(alloc, config, good) else {
        return Err(PlanFault::OutOfMemory);
    };
    by_rule(alloc, request, &names, free)
}

/// The rule's answer over good disks by name and the free extents.
fn by_rule(alloc: Global, request: &Request, good: &[Name], free: Free) -> Result<Plan, PlanFault>
    requires { is_request request.now ≡ true }
    ensures found { IfOk result (λ plan. rule request.now good.now free ≡ Ok plan) }
    ensures refused { IfErr result (λ fault. (fault ≡ PlanFault.OutOfMemory) ⊎ (rule request.now good.now free ≡ Err fault)) }
{
    let Ok(disks) = candidates(alloc, request.disks.as_slice(), good) else {
        return Err(PlanFault::OutOfMemory);
    };
    let Ok(unused) = without(alloc, request.avoid.as_slice(), &disks) else {
        return Err(PlanFault::OutOfMemory);
    };
    plan_over(alloc, request, disks, unused, free)
}

/// The plan over these candidates, of which plexes are to be on the second ones alone.
fn plan_over(
    alloc: Global,
    request: &Request,
    disks: Vec<Name>,
    mut unused: Vec<Name>,
    mut free: Free,
) -> Result<Plan, PlanFault>
    requires { is_request request.now ≡ true }
    ensures found { IfOk result (λ plan. plan_over request.now disks.items unused.items free ≡ Ok plan) }
    ensures refused { IfErr result (λ fault. (fault ≡ PlanFault.OutOfMemory) ⊎ (plan_over request.now disks.items unused.items free ≡ Err fault)) }
{
    let needed = request.mirrors * request.ncol;
    if unused.len() < needed as usize {
        return Err(PlanFault::TooFewDisks(needed));
    }
    let plexes = mirrors(alloc, request, &mut unused, &mut free)?;
    then_logs(alloc, request, disks, free, plexes)
}

/// All mirrors.
fn mirrors(
    alloc: Global,
    request: &Request,
    disks: &mut Vec<Name>,
    free: &mut Free,
) -> Result<Listed<Listed<Listed<Extent>>>, PlanFault>
    requires { is_request request.now ≡ true }
    ensures found { IfOk result (λ parts. repeated (mirror request.now) request.now.mirrors [] disks.old.items free.old ≡ Ok (record { part = parts; disks = disks.new.items; free = free.new })) }
    ensures refused { IfErr result (λ fault. (fault ≡ PlanFault.OutOfMemory) ⊎ (repeated (mirror request.now) request.now.mirrors [] disks.old.items free.old ≡ Err fault)) }
{
    let mut done = Vec::new(alloc);
    for _ in 0..request.mirrors {
        let part = mirror(alloc, request, disks, free)?;
        let Ok(()) = done.push(part) else {
            return Err(PlanFault::OutOfMemory);
        };
    }
    Ok(Listed::from_vec(done))
}

/// A mirror of one column takes from the disks in turn, a striped one each column from one disk.
fn mirror(
    alloc: Global,
    request: &Request,
    disks: &mut Vec<Name>,
    free: &mut Free,
) -> Result<Listed<Listed<Extent>>, PlanFault>
    requires { is_request request.now ≡ true }
    ensures found { IfOk result (λ part. mirror request.now disks.old.items free.old ≡ Ok (record { part = part; disks = disks.new.items; free = free.new })) }
    ensures refused { IfErr result (λ fault. (fault ≡ PlanFault.OutOfMemory) ⊎ (mirror request.now disks.old.items free.old ≡ Err fault)) }
{
    if request.ncol != 1 {
        let need = column_length(request);
        return places(alloc, need, request.ncol, disks, free);
    }
    let column = spread(alloc, request.length, disks, free)?;
    let mut columns = Vec::new(alloc);
    let Ok(()) = columns.push(column) else {
        return Err(PlanFault::OutOfMemory);
    };
    Ok(Listed::from_vec(columns))
}

/// Behind the mirrors, each log takes from a candidate that holds no other log of the request.
fn then_logs(
    alloc: Global,
    request: &Request,
    mut disks: Vec<Name>,
    mut free: Free,
    plexes: Listed<Listed<Listed<Extent>>>,
) -> Result<Plan, PlanFault>
    requires { is_request request.now ≡ true }
    ensures found { IfOk result (λ plan. (unused : List (List ℕ)) → then_logs request.now disks.items (record { part = plexes; disks = unused; free = free }) ≡ Ok plan) }
    ensures refused { IfErr result (λ fault. (fault ≡ PlanFault.OutOfMemory) ⊎ ((unused : List (List ℕ)) → then_logs request.now disks.items (record { part = plexes; disks = unused; free = free }) ≡ Err fault)) }
{
    let need = log_length(request);
    let logs = places(alloc, need, request.logs, &mut disks, &mut free)?;
    Ok(Plan { plexes, logs })
}
