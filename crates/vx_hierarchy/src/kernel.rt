ghost use Rattle.std.specs.Prelude.{◌≡◌, codes};
ghost use Rattle.vx_hierarchy.specs.Kernel.{kernel_in, kernel_word, plex_kernel, volume_kernel};

use vx_config_parts::PlexState;

/// What may be done now with a volume or a plex.
#[derive(Clone, Copy, Debug, PartialEq, Eq)]
pub(crate) enum Kernel {
    /// It is read and written.
    Enabled,
    /// It is there, and neither read nor written.
    Detached,
    /// It is not accessible.
    Disabled,
}

impl Kernel {
    /// The state of a volume.
    pub(crate) fn of_volume(started: bool) -> Kernel
        ensures { result ≡ volume_kernel started }
    {
        if started {
            Kernel::Enabled
        } else {
            Kernel::Disabled
        }
    }

    /// The state of a plex in that kept state, whose volume may be started, and whose disks may be good.
    pub(crate) fn of_plex(started: bool, held: bool, state: PlexState) -> Kernel
        ensures { result ≡ plex_kernel started held state }
    {
        if started && held {
            Kernel::in_state(state)
        } else {
            Kernel::Disabled
        }
    }

    fn in_state(state: PlexState) -> Kernel
        ensures { result ≡ kernel_in state }
    {
        match state {
            PlexState::Stale => Kernel::Detached,
            _ => Kernel::Enabled,
        }
    }

    /// The word of a line.
    pub(crate) fn word(self) -> &'static [u8]
        ensures { result.now ≡ kernel_word self }
    {
        match self {
            Kernel::Enabled => b"ENABLED",
            Kernel::Detached => b"DETACHED",
            Kernel::Disabled => b"DISABLED",
        }
    }
}
