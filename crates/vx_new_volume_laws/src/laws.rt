//! Laws of new volumes, each a function with an empty body whose contract states it.

ghost use Rattle.vx_new_volume_laws.specs.Laws.{EachNewVolumeHasNewNames, EachNewVolumeIsLetThrough, EachReadVolumeIsAsked, EachStartIsLongerByItsGrowth};

use vx_state_edits::laws::each_change_restates;

/// Where a new volume passes its tests and its plan makes these records, each of them has a name that no other record has, of the
/// group or of theirs.
pub fn each_new_volume_has_new_names()
    ensures { EachNewVolumeHasNewNames }
{}

/// Where it does, and it was asked for as the grammar has it, the tests of added records let it through: what its records refer to
/// is there, limits are kept, names are new, and they have space, logs and maps.
pub fn each_new_volume_is_let_through()
    ensures { EachNewVolumeIsLetThrough }
{}

/// Each `vxassist make` that is read from a script asks for a plex or more, and for a unit other than 128 with several columns alone.
pub fn each_read_volume_is_asked()
    ensures { EachReadVolumeIsAsked }
{}

/// The first start of a new volume makes the text of its group longer by a byte for each of its plexes and one for the volume: that
/// is what the test of the text's length leaves free for it.
pub fn each_start_is_longer_by_its_growth()
    ensures { EachStartIsLongerByItsGrowth }
{
    each_change_restates();
}
