ghost use Rattle.std.specs.Prelude.{◌≡◌};
ghost use Rattle.vx_script_forms.specs.Table.{items_of};

use crate::{Kind, table};
use vx_script_words::Item;

/// The parts of a form, in their order.
pub fn items_of(kind: Kind) -> &'static [Item]
    ensures { result.now ≡ items_of kind }
{
    match kind {
        Kind::MkImage => &table::MK_IMAGE,
        Kind::Bare => &table::BARE,
        Kind::DgInit => &table::DG_INIT,
        Kind::DgAddDisk => &table::DG_ADD_DISK,
        Kind::DgImport => &table::DG_IMPORT,
        Kind::DgDeport => &table::DG_DEPORT,
        Kind::DiskUnsetup => &table::DISK_UNSETUP,
        Kind::VxMake => &table::VX_MAKE,
        Kind::PrintM => &table::PRINT_M,
        Kind::PrintHt => &table::PRINT_HT,
        Kind::MakeConcat => &table::MAKE_CONCAT,
        Kind::MakeStripe => &table::MAKE_STRIPE,
        Kind::Mirror => &table::MIRROR,
        Kind::RemoveVolume => &table::REMOVE_VOLUME,
        Kind::Start => &table::START,
        Kind::Stop => &table::STOP,
        Kind::RdpolRound => &table::RDPOL_ROUND,
        Kind::RdpolSelect => &table::RDPOL_SELECT,
        Kind::RdpolPrefer => &table::RDPOL_PREFER,
        Kind::PlexDis => &table::PLEX_DIS,
        Kind::PlexDisRm => &table::PLEX_DIS_RM,
        Kind::Prepare => &table::PREPARE,
        Kind::Unprepare => &table::UNPREPARE,
        Kind::AddMir => &table::ADD_MIR,
        Kind::Dis => &table::DIS,
        Kind::Split => &table::SPLIT,
        Kind::PrintSnaps => &table::PRINT_SNAPS,
        Kind::Recover => &table::RECOVER,
        Kind::SnapMake => &table::SNAP_MAKE,
        Kind::Reattach => &table::REATTACH,
        Kind::Restore => &table::RESTORE,
        Kind::Snapback => &table::SNAPBACK,
        Kind::SnapbackFromReplica => &table::SNAPBACK_FROM_REPLICA,
        Kind::PlexDet => &table::PLEX_DET,
        Kind::PlexAtt => &table::PLEX_ATT,
        Kind::Read => &table::READ,
        Kind::Fill => &table::FILL,
        Kind::Data => &table::DATA,
        Kind::Sessions => &table::SESSIONS,
    }
}
