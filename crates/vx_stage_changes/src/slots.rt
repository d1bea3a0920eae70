//! The slot of a disk that is to join.
ghost use Rattle.std.specs.Prelude.{◌≡◌, ◌==◌};
ghost use Rattle.vx_stage_changes.specs.Joining.{has_slot, SlotIs};

use vx_objects::Config;

/// The slots of a group.
const SLOTS: u8 = 32;

/// The lowest slot that no disk of the configuration has.
pub(crate) fn free_slot(config: &Config) -> Option<u8>
    ensures { SlotIs result config.now }
{
    let mut slot = 0;
    'slots: while slot < SLOTS {
        if !has_slot(slot, config) {
            return Some(slot);
        }
        slot += 1;
    }
    None
}

fn has_slot(slot: u8, config: &Config) -> bool
    ensures { result ≡ has_slot slot config.now }
{
    config.disks.as_slice().iter().any(|disk| disk.slot == slot)
}
