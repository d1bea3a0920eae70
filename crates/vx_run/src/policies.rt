//! A change of the configuration after which running volumes read by the policies that are recorded.
ghost use Rattle.std.specs.Prelude.{◌≡◌, List};
ghost use Rattle.std.specs.BTreeMap.{get};
ghost use Rattle.std.specs.Cmp.Lexicographic.{slice_cmp};
ghost use Rattle.std.specs.Ordering.{nat_cmp};
ghost use Rattle.vx_house.specs.Goes.{IsReady, StageGoes};
ghost use Rattle.vx_house.specs.Holders.{holders, AreHeld};
ghost use Rattle.vx_house.specs.Scene.{Shelved};
ghost use Rattle.vx_house.specs.View.{KeepsHouse, at};
ghost use Rattle.vx_lending.specs.Public.{running_at};
ghost use Rattle.vx_run.specs.Policies.{MayReadBy, ReadsAmong, ReadsBy};
ghost use Rattle.vx_script_words.specs.declared.value.DiskAt.{DiskAt};
ghost use Rattle.vx_stages.specs.declared.stage.Stage.TheVariants as stages;

use std::alloc::Global;
use std::collections::BTreeMap;
use vx_house::{House, Imported, Stop};
use vx_lending::{Running, policy_of};
use vx_names::Name;
use vx_picker::Policy;
use vx_piece::Piece;
use vx_stage_changes::{change, volume_in};
use vx_stages::Change;

/// Changes the configuration of the imported group, and commits it. Where the policy of a running volume has changed, its reads go by the
/// new one from then on.
pub(crate) fn change_and_follow<P: Piece + Drop>(
    alloc: Global,
    house: &mut House<P>,
    edit: &Change,
) -> Result<(), Stop>
    requires keeps { KeepsHouse P.seen house.old }
    ensures goes { (disks : List DiskAt) (shelf : Shelved) → IsReady P.seen (stages.Change edit.now) disks house.old → AreHeld shelf.held (holders P.seen house.old) → StageGoes P.seen (stages.Change edit.now) disks result (at shelf house.old) (at shelf house.new) }
{
    match change(alloc, house, *edit) {
        Ok(()) => {
            follow(house, edit);
            Ok(())
        }
        Err(stop) => Err(stop),
    }
}

/// Makes the volume of a change of policy read by what is recorded of it, if it runs.
fn follow<P: Piece + Drop>(house: &mut House<P>, edit: &Change)
    ensures { ReadsBy P.seen house.old house.new }
{
    if let Change::Policy { vol, .. } = edit {
        if let Some(group) = &mut house.group {
            follow_in(group, vol);
        }
    }
}

fn follow_in<P: Piece + Drop>(group: &mut Imported<P>, vol: &Name)
    ensures { MayReadBy P.seen vol.now group.old group.new }
{
    if let Some(recorded) = volume_in(group.config.volumes.as_slice(), vol) {
        let policy = policy_of(&group.config, &recorded);
        read_by(&mut group.public.running, vol, policy);
    }
}

/// Makes the running volume of the name read by a policy, if there is one.
fn read_by<P: Piece + Drop>(running: &mut BTreeMap<Name, Running<P>>, vol: &Name, policy: Policy)
    ensures { ReadsAmong P.seen vol.now running.old running.new }
{
    if let Some(one) = running.get_mut(vol) {
        one.volume.set_policy(policy);
    }
}
