use crate::{Act, Block, Boxed, Call};
use vx_names::Name;
use vx_script_words::{Bytes, DiskAt, Disks, Names};

#[derive(Clone, Copy, Debug, PartialEq, Eq)]
pub enum WordLayout {
    Concat,
    Stripe,
}

#[derive(Clone, Copy)]
pub enum WordPolicy {
    Round,
    Select,
    Prefer(Name),
}

/// The attributes of `vxassist make`; one that is left out is None. Lengths are in sectors.
#[derive(Clone, Copy)]
pub struct MakeAttrs {
    pub layout: Option<WordLayout>,
    pub ncol: Option<u32>,
    pub unit: Option<u64>,
    pub nmirror: Option<u32>,
    pub region: Option<u64>,
    pub ndcomirror: Option<u32>,
}

/// What a command says, but for the words that every command may have. Lengths are in sectors. What is larger than a
/// call is boxed, since a script may have a million calls.
#[derive(Drop)]
pub enum Form {
    MkImage {
        device: Name,
        length: u64,
    },
    Bare {
        vol: Name,
        device: Name,
    },
    DgInit {
        dg: Name,
        disks: Disks,
    },
    DgAddDisk {
        dg: Name,
        disk: Boxed<DiskAt>,
    },
    DgImport {
        dg: Name,
    },
    DgDeport {
        dg: Name,
    },
    DiskUnsetup {
        device: Name,
    },
    /// The record lines as they are.
    VxMake {
        text: Bytes,
    },
    PrintM {
        vol: Option<Name>,
    },
    PrintHt {
        vol: Option<Name>,
    },
    AssistMake {
        vol: Name,
        length: u64,
        attrs: Boxed<MakeAttrs>,
        disks: Names,
    },
    Mirror {
        vol: Name,
        disks: Names,
    },
    RemoveVolume {
        vol: Name,
    },
    Start {
        vol: Name,
    },
    Stop {
        vol: Name,
    },
    Rdpol {
        vol: Name,
        policy: WordPolicy,
    },
    PlexDis {
        plex: Name,
        rm: bool,
    },
    Prepare {
        vol: Name,
        ndcomirs: Option<u64>,
        region: Option<u64>,
    },
    Unprepare {
        vol: Name,
    },
    AddMir {
        vol: Name,
        disks: Names,
    },
    Dis {
        snap: Name,
    },
    Split {
        snap: Name,
    },
    PrintSnaps {
        vol: Option<Name>,
    },
    Recover {
        vol: Option<Name>,
    },
    Acting(Act),
    Calling(Call),
    Sessions(Block),
}
