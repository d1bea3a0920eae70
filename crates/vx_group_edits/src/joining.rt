//! Plexes that are added to a volume of a group: what the volume has then, beside what it had. Laws, as functions that do nothing
//! and promise them.

ghost use Rattle.vx_group_edits.specs.JoinedLaws.{EachImageIsJoined, EachMarkedPlexStaysSound, EachNewPlexLiesApart, EachPlexJoins};

use vx_image::plex_laws::plexes_lie_apart;

/// Plexes that are added with their subdisks join the volume.
pub fn each_plex_joins()
    ensures { EachPlexJoins }
{}

/// The image of the volume has theirs behind those that it had.
pub fn each_image_is_joined()
    ensures { EachImageIsJoined }
{}

/// A new plex has no sector of one that was there.
pub fn each_new_plex_lies_apart()
    ensures { EachNewPlexLiesApart }
{
    plexes_lie_apart();
}

/// A plex that every copy of the log marks everywhere leaves the image as sound as it was.
pub fn each_marked_plex_stays_sound()
    ensures { EachMarkedPlexStaysSound }
{}
