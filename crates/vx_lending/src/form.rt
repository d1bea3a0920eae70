ghost use Rattle.std.specs.Prelude.{◌≡◌, IfOk};
ghost use Rattle.std.specs.List.{All};
ghost use Rattle.vx_image.specs.Lies.{IsPlexOf};
ghost use Rattle.vx_lending.specs.Form.{AreLayouts, IsFormOf};
ghost use Rattle.vx_lending.specs.Policy.{policy_of};
ghost use Rattle.vx_image.specs.UsedPlexes.{IsVolOf};

use crate::masks::shape_of;
use crate::plexes::{held_plexes, maps_of, used_logs};
use crate::policy::policy_of;
use std::alloc::Global;
use vx_base::OutOfMemory;
use vx_image::layout_of;
use vx_layout::Layout;
use vx_objects::{Config, Plex, Vol};
use vx_picker::Policy;
use vx_volume::VolumeShape;

/// How a volume of a configuration is started: its regions and masks, and where the plexes and logs lie of which all disks
/// are good.
#[derive(Drop)]
pub struct VolumeForm {
    /// The blocks of the volume and of a region; the maps of the plexes that are read and written (all disks good, and in a
    /// state that is available); those of the other data plexes; those of its relations in its own log.
    pub shape: VolumeShape,
    /// The map of each data plex whose disks are all good, in the order of the configuration's records; 0 where it has none.
    pub maps: Vec<u8>,
    /// How each of these plexes lies on the disks of the group, by their slots.
    pub layouts: Vec<Layout>,
    /// How each log plex lies that is used and whose disks are all good, in the order of the configuration's records.
    pub logs: Vec<Layout>,
    /// How reads choose among the plexes that may serve them, as the volume is opened.
    pub policy: Policy,
}

/// The form of a volume, by the slots whose disks are good. A start from EMPTY is `fresh`: it uses log plexes in state EMPTY
/// or ACTIVE, any other those that are ACTIVE. A volume without a DCO has no log.
pub fn form_of(
    alloc: Global,
    config: &Config,
    good: u32,
    vol: &Vol,
    fresh: bool,
) -> Result<VolumeForm, OutOfMemory>
    requires { IsVolOf config.now vol.now }
    ensures form { IfOk result (λ form. IsFormOf config.now good vol.now fresh form) }
    ensures policy { IfOk result (λ form. form.policy ≡ policy_of config.now vol.now) }
{
    let shape = shape_of(alloc, config, good, vol)?;
    let held = held_plexes(alloc, config, good, &vol.name)?;
    let used = used_logs(alloc, config, good, vol, fresh)?;
    let maps = maps_of(alloc, &held)?;
    let layouts = layouts_of(alloc, config, &held)?;
    let logs = layouts_of(alloc, config, &used)?;
    Ok(VolumeForm {
        shape,
        maps,
        layouts,
        logs,
        policy: policy_of(config, vol),
    })
}

/// How these plexes of the configuration lie, in their order.
fn layouts_of(alloc: Global, config: &Config, plexes: &[Plex]) -> Result<Vec<Layout>, OutOfMemory>
    requires { All (λ p. IsPlexOf config.now p) plexes.now }
    ensures { IfOk result (λ layouts. AreLayouts config.now plexes.now layouts.items) }
{
    let mut layouts = Vec::new(alloc);
    for plex in plexes {
        let layout = layout_of(alloc, config, plex)?;
        layouts.push(layout)?;
    }
    Ok(layouts)
}
