//! The log of a volume that is started.

ghost use Rattle.std.specs.Prelude.{◌≡◌, true, false, IfOk, IfErr};
ghost use Rattle.vx_pages.specs.Sector.{KeepsPiece};
ghost use Rattle.vx_maps.specs.Going.{CutCopiesGo};
ghost use Rattle.vx_maps.specs.Spares.{copies_seen};
ghost use Rattle.vx_lending.specs.Going.{GoTogether};
ghost use Rattle.vx_lending.specs.Left.{left_copies};
ghost use Rattle.vx_lending.specs.Logs.{IsFreshLog, IsLoadedLog, log_copies, log_header, log_pieces};
ghost use Rattle.vx_lending.specs.Pieces.{copy_pieces};
ghost use Rattle.vx_lending.specs.Taken.{AreLogCopies, slot_of};
ghost use Rattle.vx_group_start.specs.Fresh.{all_maps, is_fresh, is_lowest_on, maps_to_copy};
ghost use Rattle.vx_group_start.specs.Logs.{IsLogOf};
ghost use Rattle.vx_group_start.specs.Together.{ComeNearer};
ghost use Rattle.vx_group_start.specs.Steps.{IsNoLog, left_fault, start_fault};

use crate::fault::StartFault;
use std::alloc::Global;
use vx_config_parts::VolState;
use vx_lending::{LogLeft, VolumeForm, fresh_log, load_log};
use vx_maps::StoreFault;
use vx_pages::LocalPiece;
use vx_piece::Piece;
use vx_volume::VolumeLog;

/// Why there is no log, and what is left of its copies.
#[derive(Drop)]
pub struct LogRefused<P: LocalPiece> {
    pub fault: StartFault,
    pub left: LogLeft<P>,
}

/// Whether a volume in this state was never started.
pub fn is_fresh(state: VolState) -> bool
    ensures { result ≡ is_fresh state }
{
    match state {
        VolState::Empty => true,
        VolState::Clean | VolState::Active | VolState::NeedSync | VolState::Sync => false,
    }
}

/// The maps that a new log marks: those of all data plexes save the lowest, whether they are on or not. Of a volume with one
/// plex there are none.
pub fn mask_to_copy(form: &VolumeForm) -> u64
    ensures { result ≡ maps_to_copy form.now.shape }
{
    vx_mask::rest(all_maps(form))
}

/// Whether the lowest data plex is on.
pub(crate) fn is_lowest_on(form: &VolumeForm) -> bool
    ensures { result ≡ is_lowest_on form.now.shape }
{
    vx_mask::contains(form.shape.on, vx_mask::first(all_maps(form)))
}

/// The maps of all data plexes.
fn all_maps(form: &VolumeForm) -> u64
    ensures { result ≡ all_maps form.now.shape }
{
    vx_mask::with(form.shape.on, form.shape.off)
}

/// The log of a volume that is started: a new one where it was never started, else that of its copies. After a refusal the
/// copies come back, perhaps of more pieces.
pub fn start_log<P: Piece + Drop>(
    alloc: Global,
    form: &VolumeForm,
    fresh: bool,
    copies: Vec<Vec<P>>,
) -> Result<VolumeLog<P>, LogRefused<P>>
    requires { AreLogCopies (slot_of form.now.shape.geometry) (copies_seen P.seen copies.items) }
    ensures log { IfOk result (λ log. IsLogOf P.seen fresh form.now.shape (copies_seen P.seen copies.items) log) }
    ensures cut { IfOk result (λ log. CutCopiesGo KeepsPiece (copies_seen P.seen copies.items) (log_copies P.seen log)) }
    ensures goes { IfOk result (λ log. GoTogether (copy_pieces (copies_seen P.seen copies.items)) (log_pieces P.seen log)) }
    ensures refused { IfErr result (λ refused. IsNoLog fresh (log_header form.now.shape.geometry) (copies_seen P.seen copies.items) (left_copies P.seen refused.left) refused.fault) }
    ensures back { IfErr result (λ refused. GoTogether (copy_pieces (copies_seen P.seen copies.items)) (copy_pieces (left_copies P.seen refused.left))) }
    ensures cut_back { IfErr result (λ refused. CutCopiesGo KeepsPiece (copies_seen P.seen copies.items) (left_copies P.seen refused.left)) }
    ensures nearer { IfErr result (λ refused. ComeNearer fresh form.now.shape.geometry (copies_seen P.seen copies.items) (left_copies P.seen refused.left)) }
{
    if fresh {
        new_log(alloc, form, copies)
    } else {
        old_log(alloc, form, copies)
    }
}

/// A new log, that marks all data plexes save the lowest.
fn new_log<P: Piece + Drop>(
    alloc: Global,
    form: &VolumeForm,
    copies: Vec<Vec<P>>,
) -> Result<VolumeLog<P>, LogRefused<P>>
    requires { AreLogCopies (slot_of form.now.shape.geometry) (copies_seen P.seen copies.items) }
    ensures log { IfOk result (λ log. IsFreshLog P.seen form.now.shape.geometry (maps_to_copy form.now.shape) (copies_seen P.seen copies.items) log) }
    ensures cut { IfOk result (λ log. CutCopiesGo KeepsPiece (copies_seen P.seen copies.items) (log_copies P.seen log)) }
    ensures goes { IfOk result (λ log. GoTogether (copy_pieces (copies_seen P.seen copies.items)) (log_pieces P.seen log)) }
    ensures refused { IfErr result (λ refused. IsNoLog true (log_header form.now.shape.geometry) (copies_seen P.seen copies.items) (left_copies P.seen refused.left) refused.fault) }
    ensures back { IfErr result (λ refused. GoTogether (copy_pieces (copies_seen P.seen copies.items)) (copy_pieces (left_copies P.seen refused.left))) }
    ensures cut_back { IfErr result (λ refused. CutCopiesGo KeepsPiece (copies_seen P.seen copies.items) (left_copies P.seen refused.left)) }
{
    match fresh_log(alloc, form, copies, mask_to_copy(form)) {
        Ok(log) => Ok(log),
        Err(refused) => Err(LogRefused {
            fault: left_fault(refused.fault, &refused.left),
            left: refused.left,
        }),
    }
}

/// The log that the copies have.
fn old_log<P: Piece + Drop>(
    alloc: Global,
    form: &VolumeForm,
    copies: Vec<Vec<P>>,
) -> Result<VolumeLog<P>, LogRefused<P>>
    requires { AreLogCopies (slot_of form.now.shape.geometry) (copies_seen P.seen copies.items) }
    ensures log { IfOk result (λ log. IsLoadedLog P.seen form.now.shape.geometry (copies_seen P.seen copies.items) log) }
    ensures cut { IfOk result (λ log. CutCopiesGo KeepsPiece (copies_seen P.seen copies.items) (log_copies P.seen log)) }
    ensures goes { IfOk result (λ log. GoTogether (copy_pieces (copies_seen P.seen copies.items)) (log_pieces P.seen log)) }
    ensures refused { IfErr result (λ refused. IsNoLog false (log_header form.now.shape.geometry) (copies_seen P.seen copies.items) (left_copies P.seen refused.left) refused.fault) }
    ensures back { IfErr result (λ refused. GoTogether (copy_pieces (copies_seen P.seen copies.items)) (copy_pieces (left_copies P.seen refused.left))) }
    ensures cut_back { IfErr result (λ refused. CutCopiesGo KeepsPiece (copies_seen P.seen copies.items) (left_copies P.seen refused.left)) }
    ensures nearer { IfErr result (λ refused. ComeNearer false form.now.shape.geometry (copies_seen P.seen copies.items) (left_copies P.seen refused.left)) }
{
    match load_log(alloc, form, copies) {
        Ok(log) => Ok(log),
        Err(refused) => Err(LogRefused {
            fault: start_fault(refused.fault),
            left: LogLeft::Copies(refused.copies),
        }),
    }
}

/// The fault of a store as one of a start.
fn start_fault(fault: StoreFault) -> StartFault
    ensures { result ≡ start_fault fault }
{
    match fault {
        StoreFault::OutOfMemory => StartFault::OutOfMemory,
        StoreFault::NoCopy => StartFault::NoLog,
        StoreFault::Failed { device, .. } => StartFault::Failed(device),
        StoreFault::PowerLost => StartFault::PowerLost,
    }
}

/// The fault of a new log; where there was no memory to take it apart, that.
fn left_fault<P: LocalPiece>(fault: StoreFault, left: &LogLeft<P>) -> StartFault
    ensures { result ≡ left_fault fault left.now }
{
    match left {
        LogLeft::Copies(_) => start_fault(fault),
        LogLeft::Store(_) => StartFault::OutOfMemory,
    }
}
