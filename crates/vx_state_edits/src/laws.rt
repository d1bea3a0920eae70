//! No rule refuses what a start, a stop and a recovery record, and nothing but states changes by it: laws, each a function with an
//! empty body whose contract states it.

ghost use Rattle.vx_state_edits.specs.Laws.{EachRecoveredIsFine, EachRecoveredRestates, EachRecoveryIsFine, EachRecoveryRestates, EachStartIsFine, EachStartRestates, EachStopIsFine, EachStopRestates, EachRestatedVolumeIsRecorded};

/// No rule refuses what a start, a stop or a recovery of a recorded volume records, whatever its state.
pub fn each_change_is_fine()
    ensures start { EachStartIsFine }
    ensures stop { EachStopIsFine }
    ensures recovery { EachRecoveryIsFine }
    ensures recovered { EachRecoveredIsFine }
{}

/// Afterwards the configuration is the same but for the states of the volume and of its plexes.
pub fn each_change_restates()
    ensures start { EachStartRestates }
    ensures stop { EachStopRestates }
    ensures recovery { EachRecoveryRestates }
    ensures ended { EachRecoveredRestates }
    ensures recorded { EachRestatedVolumeIsRecorded }
{}
