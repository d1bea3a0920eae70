ghost use Rattle.std.specs.Prelude.{◌<◌, length, IfOk, IfErr};
ghost use Rattle.vx_block.specs.Regions.{region_count};
ghost use Rattle.vx_pages.specs.Sector.{KeepsPiece};
ghost use Rattle.vx_maps.specs.Creating.{AllTell};
ghost use Rattle.vx_maps.specs.Going.{CutCopiesGo};
ghost use Rattle.vx_maps.specs.Loading.{IsNotLoaded};
ghost use Rattle.vx_maps.specs.Narrowing.{AreNarrowed};
ghost use Rattle.vx_maps.specs.Spares.{copies_seen};
ghost use Rattle.vx_lending.specs.Going.{GoTogether};
ghost use Rattle.vx_lending.specs.Logs.{IsLoadedLog, log_copies, log_header, log_pieces};
ghost use Rattle.vx_lending.specs.Pieces.{copy_pieces};
ghost use Rattle.vx_lending.specs.Taken.{AreLogCopies, slot_of};

use crate::VolumeForm;
use crate::copies::log_shape;
use std::alloc::Global;
use vx_maps::{MapStore, StoreRefused};
use vx_piece::Piece;
use vx_volume::VolumeLog;

/// The log of a volume, loaded from its copies; without copies there is none. After a refusal the copies come back, perhaps of
/// more pieces.
pub fn load_log<P: Piece + Drop>(
    alloc: Global,
    form: &VolumeForm,
    copies: Vec<Vec<P>>,
) -> Result<VolumeLog<P>, StoreRefused<P>>
    requires { AreLogCopies (slot_of form.now.shape.geometry) (copies_seen P.seen copies.items) }
    ensures loaded { IfOk result (λ log. IsLoadedLog P.seen form.now.shape.geometry (copies_seen P.seen copies.items) log) }
    ensures cut { IfOk result (λ log. CutCopiesGo KeepsPiece (copies_seen P.seen copies.items) (log_copies P.seen log)) }
    ensures goes { IfOk result (λ log. GoTogether (copy_pieces (copies_seen P.seen copies.items)) (log_pieces P.seen log)) }
    ensures refused { IfErr result (λ refused. IsNotLoaded (log_header form.now.shape.geometry) refused.fault (copies_seen P.seen copies.items) (copies_seen P.seen refused.copies.items)) }
    ensures back { IfErr result (λ refused. GoTogether (copy_pieces (copies_seen P.seen copies.items)) (copy_pieces (copies_seen P.seen refused.copies.items))) }
    ensures some { IfErr result (λ refused. 0 < length copies.items) }
    ensures narrowed { IfErr result (λ refused. AllTell (copies_seen P.seen copies.items) → AreNarrowed (log_header form.now.shape.geometry) (region_count form.now.shape.geometry.length form.now.shape.geometry.region) (copies_seen P.seen copies.items) (copies_seen P.seen refused.copies.items)) }
    ensures cut_back { IfErr result (λ refused. CutCopiesGo KeepsPiece (copies_seen P.seen copies.items) (copies_seen P.seen refused.copies.items)) }
{
    if copies.is_empty() {
        return Ok(VolumeLog::Absent);
    }
    match MapStore::load(alloc, log_shape(&form.shape.geometry), copies) {
        Ok(store) => Ok(VolumeLog::Maps(store)),
        Err(refused) => Err(refused),
    }
}
