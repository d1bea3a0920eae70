//! A volume of the configuration is opened over pieces of the pool.

ghost use Rattle.std.specs.Prelude.{◌≡◌, ◌≢◌, ℕ, ◌<◌, ◌≤◌, ◌++◌, nat_lt, is_some, true, false, map, length, vec_len, vec_capacity, List, IfOk, IfErr, IfSome, IfNone, IsErrOf, OnErr};
ghost use Rattle.vx_carve.specs.Carved.{HaveNumbers};
ghost use Rattle.vx_carve.specs.Together.{AreOnce, SameSectors};
ghost use Rattle.vx_cell.specs.Plexes.{PlexSeen};
ghost use Rattle.vx_marks.specs.Log.{LogSeen};
ghost use Rattle.vx_maps.specs.Spares.{copies_seen};
ghost use Rattle.vx_piece.specs.Seen.{Seen};
ghost use Rattle.vx_volume.specs.Log.{log_seen};
ghost use Rattle.vx_volume.specs.Opening.{AreOpenable, count_of, regions_seen};
ghost use Rattle.vx_lending.specs.Form.{IsFormOf};
ghost use Rattle.vx_lending.specs.FormLaws.{AreFree, AreNumbered, CanBeTaken, HasLogs, HasOn, IsLogFor, all_layouts};
ghost use Rattle.vx_image.specs.UsedPlexes.{IsVolOf};
ghost use Rattle.vx_lending.specs.declared.form.VolumeForm.{VolumeForm};
ghost use Rattle.vx_lending.specs.RegionPieces.{all_pieces};
ghost use Rattle.vx_lending.specs.RegionsTaken.{AreTakenRegions};
ghost use Rattle.vx_lending.specs.Going.{GoTogether};
ghost use Rattle.vx_lending.specs.Left.{held_pieces};
ghost use Rattle.vx_lending.specs.Logs.{log_pieces};
ghost use Rattle.vx_lending.specs.Pieces.{volume_pieces};
ghost use Rattle.vx_lending.specs.Taken.{AreLogCopies, HaveBlocks, log_sectors, slot_of};
ghost use Rattle.vx_lending.specs.Public.{still_pieces};
ghost use Rattle.vx_group_start.specs.Fresh.{is_fresh, is_lowest_on};
ghost use Rattle.vx_group_start.specs.Refused.{IsNotStarted, IsRefused};
ghost use Rattle.vx_group_start.specs.Started.{IsStarted};
ghost use Rattle.vx_group_start.specs.Steps.{IsEarly, IsRefusedOver, IsUnopened, RunsOver, StartsOver, open_fault};
ghost use Rattle.vx_group_start.specs.Together.{ComeBack, ComeBackFrom, GoByLog, GoNearer};

use crate::fault::StartFault;
use crate::logs::{is_fresh, is_lowest_on, start_log};
use crate::remains::{log_left, put_back};
use std::alloc::Global;
use vx_cell::Plex;
use vx_lending::{LogLeft, Public, Running, VolumeForm, VolumePieces, form_of, take_pieces};
use vx_objects::{Config, Vol};
use vx_piece::Piece;
use vx_volume::{OpenFault, OpenRefused, Volume, VolumeLog};

/// Takes the pieces of a volume of the configuration out of the pool, makes its log (of a volume that is EMPTY nothing is
/// marked but the map of each data plex save the lowest one, whether its disks are good or not) or loads it, and opens it. `good` are the slots whose
/// disks are good, and `numbers` has the number of the device of each slot. It does not run yet: the caller puts it among the
/// running volumes. After a refusal all pieces lie still: in the pool, or where it has no room for them among those that are
/// left.
pub fn open_volume<P: Piece + Drop>(
    alloc: Global,
    config: &Config,
    good: u32,
    vol: &Vol,
    numbers: &[u32],
    public: &mut Public<P>,
) -> Result<Running<P>, StartFault>
    requires of { IsVolOf config.now vol.now }
    requires apart { HaveNumbers numbers.now }
    requires numbered { AreNumbered numbers.now good config.now.disks }
    requires once { AreOnce (map P.seen public.old.pool.items.items) }
    requires free { (form : VolumeForm) → IsFormOf config.now good vol.now (is_fresh vol.now.state) form → AreFree numbers.now (map P.seen public.old.pool.items.items) (all_layouts form) }
    ensures form { IfOk result (λ running. IsFormOf config.now good vol.now (is_fresh vol.now.state) running.form) }
    ensures started { IfOk result (λ running. IsStarted P.seen vol.now numbers.now public.old public.new running) }
    ensures left { IfOk result (λ running. public.new.left.items ≡ public.old.left.items) }
    ensures refused { IfErr result (λ fault. IsRefused P.seen config.now good vol.now numbers.now public.old public.new fault) }
    ensures goes { IfOk result (λ running. GoByLog numbers.now running.form (is_fresh vol.now.state) (still_pieces P.seen public.old) (held_pieces P.seen running.volume ++ still_pieces P.seen public.new)) }
    ensures back { OnErr result (GoTogether (still_pieces P.seen public.old) (still_pieces P.seen public.new)) }
    ensures comes_back { OnErr result (ComeBack config.now good vol.now numbers.now (still_pieces P.seen public.old) (still_pieces P.seen public.new)) }
    ensures running { public.new.running ≡ public.old.running }
    ensures stuck { public.new.stuck ≡ public.old.stuck }
    // Of a volume that was never started it is known before any piece is touched that no plex is current.
    ensures untouched { is_fresh vol.now.state ≡ true → (r : ℕ) → IsErrOf result (StartFault.NoCurrent r) → still_pieces P.seen public.new ≡ still_pieces P.seen public.old }
{
    if public.left.reserve(1).is_err() {
        return Err(StartFault::OutOfMemory);
    }
    match form_of(alloc, config, good, vol, is_fresh(vol.state)) {
        Ok(form) => match early_fault(vol, &form) {
            Some(fault) => Err(fault),
            None => open_form(alloc, vol, numbers, public, form),
        },
        Err(_) => Err(StartFault::OutOfMemory),
    }
}

/// Why a volume cannot be opened whatever its pieces hold: it has a DCO and no log on good disks, or none and no plex that is
/// on, or it was never started, so that its lowest data plex alone is current, and that is not on.
fn early_fault(vol: &Vol, form: &VolumeForm) -> Option<StartFault>
    ensures some { IfSome result (λ fault. IsEarly vol.now form.now fault) }
    ensures logs { IfNone result (is_some vol.now.dco ≡ true → 0 < length form.now.logs.items) }
    ensures on { IfNone result (is_some vol.now.dco ≡ false → form.now.shape.on ≢ 0) }
    ensures lowest { IfNone result (is_fresh vol.now.state ≡ true → is_lowest_on form.now.shape ≡ true) }
{
    if vol.dco.is_some() && form.logs.is_empty() {
        return Some(StartFault::NoLog);
    }
    if vol.dco.is_none() && form.shape.on == 0 {
        return Some(StartFault::NoCurrent(0));
    }
    if is_fresh(vol.state) && !is_lowest_on(form) {
        return Some(StartFault::NoCurrent(0));
    }
    None
}

/// Opens a volume of this form over pieces that it takes out of the pool.
fn open_form<P: Piece + Drop>(
    alloc: Global,
    vol: &Vol,
    numbers: &[u32],
    public: &mut Public<P>,
    form: VolumeForm,
) -> Result<Running<P>, StartFault>
    requires room { vec_len public.old.left < vec_capacity public.old.left }
    requires apart { HaveNumbers numbers.now }
    requires once { AreOnce (map P.seen public.old.pool.items.items) }
    requires taking { CanBeTaken numbers.now (map P.seen public.old.pool.items.items) form }
    requires few { length form.logs.items ≤ 2 }
    requires roomy { HaveBlocks (log_sectors form.shape.geometry) form.logs.items }
    requires length { form.shape.geometry.length ≡ vol.now.len }
    requires region { form.shape.geometry.region ≡ vol.now.region }
    requires logged { is_some vol.now.dco ≡ nat_lt 0 (length form.logs.items) }
    requires openable { (log : LogSeen) (regions : List (List PlexSeen)) → IsLogFor vol.now log → length regions ≡ count_of form.shape →
        AreTakenRegions numbers.now form.maps.items form.layouts.items form.shape.geometry.length form.shape.geometry.region regions → AreOpenable form.shape log regions }
    ensures form { IfOk result (λ running. running.form ≡ form) }
    ensures started { IfOk result (λ running. IsStarted P.seen vol.now numbers.now public.old public.new running) }
    ensures left { IfOk result (λ running. public.new.left.items ≡ public.old.left.items) }
    ensures goes { IfOk result (λ running. GoByLog numbers.now running.form (is_fresh vol.now.state) (still_pieces P.seen public.old) (held_pieces P.seen running.volume ++ still_pieces P.seen public.new)) }
    ensures refused { IfErr result (λ fault. IsNotStarted P.seen vol.now numbers.now form public.old public.new fault) }
    ensures back { OnErr result (GoTogether (still_pieces P.seen public.old) (still_pieces P.seen public.new)) }
    ensures comes_back { OnErr result (ComeBackFrom numbers.now form (is_fresh vol.now.state) (still_pieces P.seen public.old) (still_pieces P.seen public.new)) }
    ensures running { public.new.running ≡ public.old.running }
    ensures stuck { public.new.stuck ≡ public.old.stuck }
{
    match take_pieces(alloc, &mut public.pool, numbers, &form) {
        Ok(pieces) => open_taken(alloc, vol, public, form, pieces),
        Err((pieces, _)) => {
            let VolumePieces { regions, copies } = pieces;
            put_back(alloc, public, regions, LogLeft::Copies(copies));
            Err(StartFault::OutOfMemory)
        }
    }
}

/// Opens a volume over pieces that were taken.
fn open_taken<P: Piece + Drop>(
    alloc: Global,
    vol: &Vol,
    public: &mut Public<P>,
    form: VolumeForm,
    pieces: VolumePieces<P>,
) -> Result<Running<P>, StartFault>
    requires room { vec_len public.old.left < vec_capacity public.old.left }
    requires copies { AreLogCopies (slot_of form.shape.geometry) (copies_seen P.seen pieces.copies.items) }
    requires length { form.shape.geometry.length ≡ vol.now.len }
    requires region { form.shape.geometry.region ≡ vol.now.region }
    requires logged { is_some vol.now.dco ≡ nat_lt 0 (length (copies_seen P.seen pieces.copies.items)) }
    requires openable { (log : LogSeen) → IsLogFor vol.now log → AreOpenable form.shape log (regions_seen P.seen pieces.regions.items) }
    ensures starts { IfOk result (λ running. StartsOver P.seen vol.now form (regions_seen P.seen pieces.regions.items) (copies_seen P.seen pieces.copies.items) running) }
    ensures same { IfOk result (λ running. public.new ≡ public.old) }
    ensures refused { IfErr result (λ fault. IsRefusedOver P.seen vol.now form (copies_seen P.seen pieces.copies.items) (volume_pieces P.seen pieces) public.old public.new fault) }
    ensures back { OnErr result (GoTogether (volume_pieces P.seen pieces ++ still_pieces P.seen public.old) (still_pieces P.seen public.new)) }
    ensures comes_back { OnErr result (GoNearer (is_fresh vol.now.state) form.shape.geometry (copies_seen P.seen pieces.copies.items) (volume_pieces P.seen pieces ++ still_pieces P.seen public.old) (still_pieces P.seen public.new)) }
    ensures running { public.new.running ≡ public.old.running }
    ensures stuck { public.new.stuck ≡ public.old.stuck }
{
    let VolumePieces { regions, copies } = pieces;
    match start_log(alloc, &form, is_fresh(vol.state), copies) {
        Ok(log) => open_over(alloc, public, form, regions, log),
        Err(refused) => {
            put_back(alloc, public, regions, refused.left);
            Err(refused.fault)
        }
    }
}

/// Opens a volume over regions and a log.
fn open_over<P: Piece + Drop>(
    alloc: Global,
    public: &mut Public<P>,
    form: VolumeForm,
    regions: Vec<Vec<Plex<P>>>,
    log: VolumeLog<P>,
) -> Result<Running<P>, StartFault>
    requires room { vec_len public.old.left < vec_capacity public.old.left }
    requires openable { AreOpenable form.shape (log_seen P.seen log) (regions_seen P.seen regions.items) }
    ensures runs { IfOk result (λ running. RunsOver P.seen form (regions_seen P.seen regions.items) log running) }
    ensures same { IfOk result (λ running. public.new ≡ public.old) }
    ensures refused { IfErr result (λ fault. IsUnopened form.shape (log_seen P.seen log) fault) }
    ensures back { OnErr result (SameSectors ((all_pieces (regions_seen P.seen regions.items) ++ log_pieces P.seen log) ++ still_pieces P.seen public.old) (still_pieces P.seen public.new)) }
    ensures running { public.new.running ≡ public.old.running }
    ensures stuck { public.new.stuck ≡ public.old.stuck }
{
    match Volume::open(alloc, form.shape, form.policy, regions, log) {
        Ok(volume) => Ok(Running { form, volume }),
        Err(
            OpenRefused {
                fault,
                regions,
                log,
            },
        ) => {
            let left = log_left(alloc, log);
            put_back(alloc, public, regions, left);
            Err(open_fault(fault))
        }
    }
}

fn open_fault(fault: OpenFault) -> StartFault
    ensures { result ≡ open_fault fault }
{
    match fault {
        OpenFault::NoCurrent(region) => StartFault::NoCurrent(region),
        OpenFault::OutOfMemory => StartFault::OutOfMemory,
    }
}
