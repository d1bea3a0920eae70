ghost use Rattle.std.specs.Prelude.{◌≡◌};
ghost use Rattle.vx_script_forms.specs.Table.{head_key, kinds_of};

use crate::Kind;
use vx_script_words::Key;

/// The kinds of lines that begin with one word.
#[derive(Clone, Copy, Debug, PartialEq, Eq)]
pub enum Head {
    Read,
    Write,
    Sessions,
    MkImage,
    Bare,
    Dg,
    DiskUnsetup,
    Make,
    Print,
    Assist,
    Vol,
    Plex,
    Snap,
    Recover,
    SnapAct,
    AssistAct,
    PlexAct,
}

/// The heads of command lines, those of calls first, since a script may have a million of them.
pub const COMMANDS: [Head; 14] = [
    Head::Read,
    Head::Write,
    Head::Sessions,
    Head::MkImage,
    Head::Bare,
    Head::Dg,
    Head::DiskUnsetup,
    Head::Make,
    Head::Print,
    Head::Assist,
    Head::Vol,
    Head::Plex,
    Head::Snap,
    Head::Recover,
];

/// The heads of the calls of a block.
pub const CALLS: [Head; 2] = [Head::Read, Head::Write];

/// The heads of the acts of a block.
pub const ACTS: [Head; 3] = [Head::SnapAct, Head::AssistAct, Head::PlexAct];

/// The word that the lines begin with.
pub fn head_key(head: Head) -> Key
    ensures { result ≡ head_key head }
{
    match head {
        Head::Read => Key::Read,
        Head::Write => Key::Write,
        Head::Sessions => Key::Sessions,
        Head::MkImage => Key::MkImage,
        Head::Bare => Key::Bare,
        Head::Dg => Key::VxDg,
        Head::DiskUnsetup => Key::VxDiskUnsetup,
        Head::Make => Key::VxMake,
        Head::Print => Key::VxPrint,
        Head::Assist | Head::AssistAct => Key::VxAssist,
        Head::Vol => Key::VxVol,
        Head::Plex | Head::PlexAct => Key::VxPlex,
        Head::Snap | Head::SnapAct => Key::VxSnap,
        Head::Recover => Key::VxRecover,
    }
}

/// The kinds of these lines, in the order in which they are tried.
pub fn kinds_of(head: Head) -> &'static [Kind]
    ensures { result.now ≡ kinds_of head }
{
    match head {
        Head::Read => &[Kind::Read],
        Head::Write => &[Kind::Fill, Kind::Data],
        Head::Sessions => &[Kind::Sessions],
        Head::MkImage => &[Kind::MkImage],
        Head::Bare => &[Kind::Bare],
        Head::Dg => &[
            Kind::DgInit,
            Kind::DgAddDisk,
            Kind::DgImport,
            Kind::DgDeport,
        ],
        Head::DiskUnsetup => &[Kind::DiskUnsetup],
        Head::Make => &[Kind::VxMake],
        Head::Print => &[Kind::PrintM, Kind::PrintHt],
        Head::Assist => &[
            Kind::MakeConcat,
            Kind::MakeStripe,
            Kind::Mirror,
            Kind::RemoveVolume,
            Kind::Snapback,
            Kind::SnapbackFromReplica,
        ],
        Head::Vol => &[
            Kind::Start,
            Kind::Stop,
            Kind::RdpolRound,
            Kind::RdpolSelect,
            Kind::RdpolPrefer,
        ],
        Head::Plex => &[Kind::PlexDis, Kind::PlexDisRm, Kind::PlexDet, Kind::PlexAtt],
        Head::Snap => &[
            Kind::Prepare,
            Kind::Unprepare,
            Kind::AddMir,
            Kind::Dis,
            Kind::Split,
            Kind::PrintSnaps,
            Kind::SnapMake,
            Kind::Reattach,
            Kind::Restore,
        ],
        Head::Recover => &[Kind::Recover],
        Head::SnapAct => &[Kind::SnapMake, Kind::Reattach, Kind::Restore],
        Head::AssistAct => &[Kind::Snapback, Kind::SnapbackFromReplica],
        Head::PlexAct => &[Kind::PlexDet, Kind::PlexAtt],
    }
}
