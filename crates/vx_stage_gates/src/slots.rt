//! The slot of a disk that is to join.
ghost use Rattle.std.specs.Prelude.{◌≡◌, ◌==◌};
ghost use Rattle.std.specs.List.{list_any};
ghost use Rattle.vx_stages.specs.Records.{next_slot};

use vx_objects::Config;

/// The slots of a group.
const SLOTS: u8 = 32;

/// The lowest slot that no disk of the configuration has; where all are taken, the first that no disk can have.
pub fn next_slot(config: &Config) -> u8
    ensures { result ≡ next_slot config.now }
{
    let mut slot = 0;
    'slots: while slot < SLOTS {
        if !has_slot(slot, config) {
            return slot;
        }
        slot += 1;
    }
    SLOTS
}

fn has_slot(slot: u8, config: &Config) -> bool
    ensures { result ≡ list_any (λ d. d.slot == slot) config.now.disks }
{
    config.disks.as_slice().iter().any(|disk| disk.slot == slot)
}
