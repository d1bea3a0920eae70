//! A test of a command.
ghost use Rattle.std.specs.Prelude.{◌≡◌, if◌then◌else◌, is_some, None, IfOk};
ghost use Rattle.vx_stages.specs.Tests.{fails, unless, in_use, in_use_by, recorded, state_of};
ghost use Rattle.vx_stages.specs.declared.stage.Stage.TheVariants as stages;
ghost use Rattle.vx_house.specs.Goes.{IsReady};
ghost use Rattle.vx_house.specs.Plain.{plain};
ghost use Rattle.vx_house.specs.View.{group_of};

use crate::devices::{group_limits, has_group_records, is_volume_sized, join_limits};
use crate::groups::{has_plex, is_here, is_related, recorded};
use crate::volumes::{first_started, is_started};
use std::alloc::Global;
use vx_answers::Refusal;
use vx_base::OutOfMemory;
use vx_config_parts::Limit;
use vx_house::{House, Imported};
use vx_names::Name;
use vx_objects::Vol;
use vx_piece::Piece;
use vx_script_words::DiskAt;
use vx_stages::Test;

/// With which refusal the test fails, if it does.
#[tactic(auto, unfolding(vx_stages::specs::Tests::fails))]
pub fn failing<P: Piece>(
    alloc: Global,
    house: &House<P>,
    test: Test,
    disks: &[DiskAt],
) -> Result<Option<Refusal>, OutOfMemory>
    requires ready { IsReady P.seen (stages.Gate test) disks.now house.now }
    ensures { IfOk result (λ refusal. refusal ≡ fails test disks.now (plain P.seen house.now)) }
{
    match test {
        Test::Sized(device) => Ok(unless(
            is_volume_sized(house, &device),
            Refusal::Limit(Limit::Regions),
        )),
        Test::NoGroup => Ok(in_use(&house.group)),
        Test::GroupIs(dg) => Ok(unless(is_here(&dg, &house.group), Refusal::NoGroup(dg))),
        Test::GroupLimits(dg) => Ok(group_limits(house, &dg, disks)),
        Test::JoinLimits => Ok(join_limits(house, disks)),
        Test::GroupRecords(dg) => has_group_records(alloc, house, &dg, disks),
        Test::HasVolume(vol) => Ok(unless(
            recorded(&vol, &house.group).is_some(),
            Refusal::NoObject(vol),
        )),
        Test::NoneStarted => Ok(in_use_by(first_started(house))),
        Test::Stopped(vol) => Ok(stopped(house, &vol)),
        Test::Unrelated(vol) => Ok(unless(!is_related(&vol, &house.group), Refusal::InUse(vol))),
        Test::HasPlex { vol, plex } => Ok(unless(
            has_plex(&vol, &plex, &house.group),
            Refusal::NoObject(plex),
        )),
    }
}

/// Refused so, unless the condition holds.
fn unless(holds: bool, refusal: Refusal) -> Option<Refusal>
    ensures { result ≡ unless holds refusal }
{
    if holds { None } else { Some(refusal) }
}

/// The imported group is in use.
fn in_use<P: Piece>(group: &Option<Imported<P>>) -> Option<Refusal>
    ensures { result ≡ in_use (group_of P.seen group.now) }
{
    match group {
        None => None,
        Some(group) => Some(Refusal::InUse(group.config.group)),
    }
}

fn in_use_by(name: Option<Name>) -> Option<Refusal>
    ensures { result ≡ in_use_by name }
{
    match name {
        None => None,
        Some(name) => Some(Refusal::InUse(name)),
    }
}

/// The volume is not started, or its state does not fit.
fn stopped<P: Piece>(house: &House<P>, vol: &Name) -> Option<Refusal>
    ensures { result ≡ (if is_some ((plain P.seen house.now).volumes vol.now) then state_of (recorded vol.now (group_of P.seen house.now.group)) else None) }
{
    if is_started(house, vol) {
        state_of(recorded(vol, &house.group))
    } else {
        None
    }
}

fn state_of(vol: Option<Vol>) -> Option<Refusal>
    ensures { result ≡ state_of vol }
{
    match vol {
        None => None,
        Some(vol) => Some(Refusal::VolState(vol.state)),
    }
}
