//! What the bytes of a started volume are good for when the power goes or it is stopped, how it is opened over them, and what
//! a recovery makes of them: laws, as functions that do nothing and promise them.
#![tactic(auto)]

ghost use Rattle.vx_volume_laws.specs.Copies.{EachCopyIsTracked, EachWholeCopyIsTracked};
ghost use Rattle.vx_volume_laws.specs.Example.{AClearRelationNeedsAgreement, HalfWrittenOpens};
ghost use Rattle.vx_volume_laws.specs.Logs.{EachLogIsLeftExact};
ghost use Rattle.vx_volume_laws.specs.Loss.{EachLossStands, EachPairStands, EachStopStands};
ghost use Rattle.vx_volume_laws.specs.Opening.{EachOpeningIsFresh};
ghost use Rattle.vx_volume_laws.specs.Recovery.{EachLossIsRecovered, EachRecoveryAgrees};
ghost use Rattle.vx_volume_laws.specs.Start.{EachEmptyBegins, EachSettledVolumeBegins};
ghost use Rattle.vx_volume_laws.specs.Tracks.{EachCallIsTracked};
ghost use Rattle.vx_volume_laws.specs.Volumes.{EachVolumeIsLeft};

pub mod left;
pub mod lives;
pub mod opened;

/// After a loss and a recovery the available plexes hold one list, with every acknowledged write.
pub fn each_loss_is_recovered()
    ensures { EachLossIsRecovered }
{}

/// Whenever the power goes, the bytes that a started volume leaves are sound and stand for its life.
pub fn each_loss_stands()
    ensures { EachLossStands }
{}

/// The bytes that two started volumes in a relation leave hold one list wherever neither was changed since their break-off.
pub fn each_pair_stands()
    ensures { EachPairStands }
{}

/// The bytes of a volume that is stopped are sound, and one list is read from them.
pub fn each_stop_stands()
    ensures { EachStopStands }
{}

/// A volume that is opened over sound bytes begins a life.
pub fn each_opening_is_fresh()
    ensures { EachOpeningIsFresh }
{}

/// A recovery that has ended leaves the available plexes with one list of blocks.
pub fn each_recovery_agrees()
    ensures { EachRecoveryAgrees }
{}

/// Where no call on the log of a volume failed, each copy that is left shows exactly the bits of its regions.
pub fn each_log_is_left_exact()
    ensures { EachLogIsLeftExact }
{}

/// A start of an empty volume leaves sound bytes, which stand for what its lowest plex holds.
pub fn each_empty_begins()
    ensures { EachEmptyBegins }
{}

/// Where all regions of a volume are settled a new life may begin over one list.
pub fn each_settled_volume_begins()
    ensures { EachSettledVolumeBegins }
{}

/// At whatever moment a started volume of the world is left, its bytes stand for it.
pub fn each_volume_is_left()
    ensures { EachVolumeIsLeft }
{}

/// What is known of what plexes lack, and the dirty regions, go on with each call by its entries and failures.
pub fn each_call_is_tracked()
    ensures { EachCallIsTracked }
{}

/// A plex that was copied surely lacks nothing; it lacks nothing where all was copied and no call on the log failed.
pub fn each_copy_is_tracked()
    ensures stopped { EachCopyIsTracked }
    ensures done { EachWholeCopyIsTracked }
{}

/// A volume that was cut while it was written is sound, and can be opened.
pub fn some_volume_opens()
    ensures { HalfWrittenOpens }
{}

/// A relation that is clear needs plexes that agree, also where the region is dirty.
pub fn a_clear_relation_needs_agreement()
    ensures { AClearRelationNeedsAgreement }
{}
