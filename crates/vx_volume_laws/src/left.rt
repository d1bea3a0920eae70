//! A started volume that is left is the image that its bytes are: laws, as functions that do nothing and promise them.
ghost use Rattle.std.specs.Prelude.{ℕ, ◌<◌, List, Option};
ghost use Rattle.vx_block.specs.Regions.{region_count};
ghost use Rattle.vx_block.specs.declared.geometry.Geometry.{Geometry};
ghost use Rattle.vx_piece.specs.Seen.{Seen};
ghost use Rattle.vx_maps.specs.Creating.{AllTell};
ghost use Rattle.vx_maps.specs.Going.{CopiesGo};
ghost use Rattle.vx_maps.specs.Stores.{store_seen};
ghost use Rattle.vx_maps.specs.Wholes.{store_copies};
ghost use Rattle.vx_cell.specs.Plexes.{PlexSeen};
ghost use Rattle.vx_volume.specs.Arming.{VolumeArmed};
ghost use Rattle.vx_volume.specs.Log.{LogGoes, log_seen};
ghost use Rattle.vx_volume.specs.Volume.{log_of, volume_seen};
ghost use Rattle.vx_lending.specs.declared.form.VolumeForm.{VolumeForm};
ghost use Rattle.vx_lending.specs.Logs.{IsFreshLog, IsFreshStore, IsLoadedLog, log_copies};
ghost use Rattle.vx_volume_laws.specs.Calls.{EachClearingKeeps, EachCopyKeeps, EachKeepingKeeps, EachKeptVolumeLies, EachOpenedVolumeLies, EachReadKeeps, EachSettlingKeeps, EachWriteKeeps, IsOpenedOn, KeepsPlaces};
ghost use Rattle.vx_volume_laws.specs.Forms.{EachFormIsKept};
ghost use Rattle.vx_volume_laws.specs.Keeping.{EachKeepingGoesOn, EachKeptVolumeIsNamed, EachRestatedVolumeIsKept, EachVolumeKeepsItself};
ghost use Rattle.vx_volume_laws.specs.Left.{EachVolumeLeavesItsImage};
ghost use Rattle.vx_volume_laws.specs.Lying.{IsLogFor, IsLogOver, LiesIn};
ghost use Rattle.vx_volume_laws.specs.Over.{EachOpenedVolumeIsOver};
ghost use Rattle.vx_volume_laws.specs.Places.{EachCutLies, EachKeptRunLies, EachSameRunLies, IsSamePlace};
ghost use Rattle.vx_volume_laws.specs.Recorded.{EachPlainStartIsRecorded, EachStartIsRecorded, IsNewLog};

use vx_maps::MapStore;
use vx_pages::LocalPiece;
use vx_volume::{Volume, VolumeLog};

/// Pieces lie where their blocks do, however they are cut and called.
pub fn each_run_lies_where_it_did()
    ensures cut { EachCutLies }
    ensures same { EachSameRunLies }
    ensures kept { EachKeptRunLies }
{}

/// A volume lies where its form says as it is opened, and goes on lying there while its places are kept.
pub fn each_volume_lies_where_its_form_says()
    ensures opened { EachOpenedVolumeLies }
    ensures kept { EachKeptVolumeLies }
{}

/// Each call and each pass keeps the places of a volume.
pub fn each_call_keeps_places()
    ensures read { EachReadKeeps }
    ensures written { EachWriteKeeps }
    ensures settled { EachSettlingKeeps }
    ensures cleared { EachClearingKeeps }
    ensures copied { EachCopyKeeps }
    ensures again { EachKeepingKeeps }
{}

/// The log of a volume shows what its copies hold.
pub fn each_log_shows_its_copies<P: LocalPiece>(log: &VolumeLog<P>)
    ensures { (geometry : Geometry) → IsLogFor geometry log.now → 0 < region_count geometry.length geometry.region → IsLogOver (log_seen P.seen log.now) (region_count geometry.length geometry.region) (log_copies P.seen log.now) }
{
    let _ = log;
}

/// A log that was loaded or made new is one for the volume.
pub fn each_lent_log_is_for_its_volume<P: LocalPiece>(log: &VolumeLog<P>)
    ensures loaded { (geometry : Geometry) (old : List (List Seen)) → IsLoadedLog P.seen geometry old log.now → IsLogFor geometry log.now }
    ensures fresh { (geometry : Geometry) (mask : ℕ) (old : List (List Seen)) → IsFreshLog P.seen geometry mask old log.now → IsLogFor geometry log.now }
{
    let _ = log;
}

/// As the pieces of a log go on, those of its copies have the sectors that they had, and it is a log for the same volume.
pub fn each_log_goes_on<P: LocalPiece>(old: &VolumeLog<P>, new: &VolumeLog<P>)
    ensures copies { LogGoes P.seen old.now new.now → CopiesGo IsSamePlace (log_copies P.seen old.now) (log_copies P.seen new.now) }
    ensures shape { LogGoes P.seen old.now new.now → (geometry : Geometry) → IsLogFor geometry old.now → IsLogFor geometry new.now }
{
    let _ = old;
    let _ = new;
}

/// A power switch that is set on the pieces of a volume keeps its places, and those of its log.
pub fn each_arming_keeps_places<P: LocalPiece>(old: &Volume<P>, new: &Volume<P>)
    ensures places { (stop : Option ℕ) → VolumeArmed P.seen stop old.now new.now → KeepsPlaces (volume_seen P.seen old.now) (volume_seen P.seen new.now) }
    ensures copies { (stop : Option ℕ) → VolumeArmed P.seen stop old.now new.now → CopiesGo IsSamePlace (log_copies P.seen (log_of old.now)) (log_copies P.seen (log_of new.now)) }
    ensures shape { (stop : Option ℕ) → VolumeArmed P.seen stop old.now new.now → (geometry : Geometry) → IsLogFor geometry (log_of old.now) → IsLogFor geometry (log_of new.now) }
{
    let _ = old;
    let _ = new;
}

/// A volume that is opened by the marks of a copy of its image is opened over that image.
pub fn each_opened_volume_is_over_its_image()
    ensures { EachOpenedVolumeIsOver }
{}

/// A volume of the code that was opened with its form lies where that says.
pub fn each_opened_volume_lies<P: LocalPiece>(volume: &Volume<P>)
    ensures { (numbers : List ℕ) (form : VolumeForm) (regions : List (List PlexSeen)) (taken : List (List Seen)) → IsOpenedOn P.seen numbers form regions taken volume.now → LiesIn P.seen numbers form volume.now }
{
    let _ = volume;
}

/// It goes on lying there through each call, and where a power switch is set on its pieces.
pub fn each_volume_goes_on_lying<P: LocalPiece>(old: &Volume<P>, new: &Volume<P>)
    ensures called { (numbers : List ℕ) (form : VolumeForm) → LiesIn P.seen numbers form old.now → KeepsPlaces (volume_seen P.seen old.now) (volume_seen P.seen new.now) → LogGoes P.seen (log_of old.now) (log_of new.now) → LiesIn P.seen numbers form new.now }
    ensures armed { (numbers : List ℕ) (form : VolumeForm) (stop : Option ℕ) → LiesIn P.seen numbers form old.now → VolumeArmed P.seen stop old.now new.now → LiesIn P.seen numbers form new.now }
{
    let _ = old;
    let _ = new;
}

/// A configuration keeps its volumes, whatever kept them before; and their plexes keep their names.
pub fn each_volume_is_kept()
    ensures own { EachVolumeKeepsItself }
    ensures again { EachKeepingGoesOn }
    ensures named { EachKeptVolumeIsNamed }
{}

/// A configuration of which only states have changed, and of which disks have failed, keeps a volume.
pub fn each_restated_volume_is_kept()
    ensures { EachRestatedVolumeIsKept }
{}

/// The form of a volume of which only states have changed, and none that a start has to do with, is its form again.
pub fn each_form_is_kept()
    ensures { EachFormIsKept }
{}

/// A volume that lies where its form says leaves its image.
pub fn each_volume_leaves_its_image()
    ensures { EachVolumeLeavesItsImage }
{}

/// A store that was made new over copies that tell what they hold is a new log.
pub fn each_new_store_is_a_new_log<P: LocalPiece>(store: &MapStore<P>)
    ensures { (geometry : Geometry) (mask : ℕ) (old : List (List Seen)) → AllTell old → IsFreshStore P.seen geometry mask old store.now → IsNewLog geometry mask (store_seen P.seen store.now) (store_copies P.seen store.now) }
{
    let _ = store;
}

/// A volume that was EMPTY is recorded as started: with a new log, or without a DCO.
pub fn each_start_is_recorded()
    ensures logged { EachStartIsRecorded }
    ensures plain { EachPlainStartIsRecorded }
{}
