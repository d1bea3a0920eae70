use vx_script_words::{Class, Item, Key, Sort};

const LAST: u64 = (1 << 40) - 1;

macro_rules! one {
    ($front:ident, $sort:expr) => {
        Item::One(Class {
            front: Key::$front,
            sort: $sort,
        })
    };
}

macro_rules! maybe {
    ($front:ident, $sort:expr) => {
        Item::Maybe(Class {
            front: Key::$front,
            sort: $sort,
        })
    };
}

macro_rules! word {
    ($front:ident) => {
        Item::One(Class {
            front: Key::$front,
            sort: Sort::Word,
        })
    };
}

const NAME: Item = one!(Nothing, Sort::Named);

const LENGTH: Item = one!(Nothing, Sort::Length);

const NUMBER: Item = one!(Nothing, Sort::Number { low: 0, high: LAST });

const COUNT: Item = one!(
    Nothing,
    Sort::Number {
        low: 1,
        high: 2_048
    }
);

const PAIR: Item = one!(Nothing, Sort::Pair);

const MAYBE_NAME: Item = maybe!(Nothing, Sort::Named);

const NMIRROR: Item = maybe!(Nmirror, Sort::Number { low: 1, high: 8 });

const REGION_SIZE: Item = maybe!(RegionSize, Sort::Length);

const NDCOMIRROR: Item = maybe!(Ndcomirror, Sort::Number { low: 0, high: 2 });

pub const MK_IMAGE: [Item; 4] = [word!(MkImage), Item::NoGroup, NAME, LENGTH];

pub const BARE: [Item; 4] = [word!(Bare), Item::NoGroup, NAME, NAME];

pub const DG_INIT: [Item; 5] = [word!(VxDg), Item::NoGroup, word!(Init), NAME, Item::Pairs];

pub const DG_ADD_DISK: [Item; 6] = [
    word!(VxDg),
    Item::NoGroup,
    word!(GroupOption),
    NAME,
    word!(AddDisk),
    PAIR,
];

pub const DG_IMPORT: [Item; 4] = [word!(VxDg), Item::NoGroup, word!(Import), NAME];

pub const DG_DEPORT: [Item; 4] = [word!(VxDg), Item::NoGroup, word!(Deport), NAME];

pub const DISK_UNSETUP: [Item; 3] = [word!(VxDiskUnsetup), Item::NoGroup, NAME];

pub const VX_MAKE: [Item; 3] = [word!(VxMake), Item::Group, word!(RecordsOption)];

pub const PRINT_M: [Item; 4] = [
    word!(VxPrint),
    Item::Group,
    word!(MachineOption),
    MAYBE_NAME,
];

pub const PRINT_HT: [Item; 4] = [
    word!(VxPrint),
    Item::Group,
    word!(HierarchyOption),
    MAYBE_NAME,
];

pub const MAKE_CONCAT: [Item; 10] = [
    word!(VxAssist),
    Item::Group,
    word!(Make),
    NAME,
    LENGTH,
    maybe!(LayoutConcat, Sort::Word),
    NMIRROR,
    REGION_SIZE,
    NDCOMIRROR,
    Item::Names,
];

pub const MAKE_STRIPE: [Item; 12] = [
    word!(VxAssist),
    Item::Group,
    word!(Make),
    NAME,
    LENGTH,
    word!(LayoutStripe),
    maybe!(Ncol, Sort::Number { low: 2, high: 16 }),
    maybe!(StripeUnit, Sort::Length),
    NMIRROR,
    REGION_SIZE,
    NDCOMIRROR,
    Item::Names,
];

pub const MIRROR: [Item; 5] = [
    word!(VxAssist),
    Item::Group,
    word!(Mirror),
    NAME,
    Item::Names,
];

pub const REMOVE_VOLUME: [Item; 5] = [
    word!(VxAssist),
    Item::Group,
    word!(Remove),
    word!(Volume),
    NAME,
];

pub const START: [Item; 4] = [word!(VxVol), Item::Group, word!(Start), NAME];

pub const STOP: [Item; 4] = [word!(VxVol), Item::Group, word!(Stop), NAME];

pub const RDPOL_ROUND: [Item; 5] = [word!(VxVol), Item::Group, word!(Rdpol), word!(Round), NAME];

pub const RDPOL_SELECT: [Item; 5] = [word!(VxVol), Item::Group, word!(Rdpol), word!(Select), NAME];

pub const RDPOL_PREFER: [Item; 6] = [
    word!(VxVol),
    Item::Group,
    word!(Rdpol),
    word!(Prefer),
    NAME,
    NAME,
];

pub const PLEX_DIS: [Item; 4] = [word!(VxPlex), Item::Group, word!(Dis), NAME];

pub const PLEX_DIS_RM: [Item; 6] = [
    word!(VxPlex),
    Item::Group,
    word!(OtherOption),
    word!(Rm),
    word!(Dis),
    NAME,
];

pub const PREPARE: [Item; 6] = [
    word!(VxSnap),
    Item::Group,
    word!(Prepare),
    NAME,
    maybe!(Ndcomirs, Sort::Number { low: 0, high: LAST }),
    REGION_SIZE,
];

pub const UNPREPARE: [Item; 4] = [word!(VxSnap), Item::Group, word!(Unprepare), NAME];

pub const ADD_MIR: [Item; 5] = [word!(VxSnap), Item::Group, word!(AddMir), NAME, Item::Names];

pub const DIS: [Item; 4] = [word!(VxSnap), Item::Group, word!(Dis), NAME];

pub const SPLIT: [Item; 4] = [word!(VxSnap), Item::Group, word!(Split), NAME];

pub const PRINT_SNAPS: [Item; 4] = [word!(VxSnap), Item::Group, word!(Print), MAYBE_NAME];

pub const RECOVER: [Item; 4] = [
    word!(VxRecover),
    Item::Group,
    word!(StartOption),
    MAYBE_NAME,
];

pub const SNAP_MAKE: [Item; 4] = [
    word!(VxSnap),
    Item::Group,
    word!(Make),
    one!(Source, Sort::BreakOff),
];

pub const REATTACH: [Item; 5] = [
    word!(VxSnap),
    Item::Group,
    word!(Reattach),
    NAME,
    one!(Source, Sort::Named),
];

pub const RESTORE: [Item; 5] = [
    word!(VxSnap),
    Item::Group,
    word!(Restore),
    NAME,
    one!(Source, Sort::Named),
];

pub const SNAPBACK: [Item; 4] = [word!(VxAssist), Item::Group, word!(Snapback), NAME];

pub const SNAPBACK_FROM_REPLICA: [Item; 6] = [
    word!(VxAssist),
    Item::Group,
    word!(OtherOption),
    word!(ResyncFromReplica),
    word!(Snapback),
    NAME,
];

pub const PLEX_DET: [Item; 4] = [word!(VxPlex), Item::Group, word!(Det), NAME];

pub const PLEX_ATT: [Item; 5] = [word!(VxPlex), Item::Group, word!(Att), NAME, NAME];

pub const READ: [Item; 5] = [word!(Read), Item::NoGroup, NAME, NUMBER, COUNT];

pub const FILL: [Item; 7] = [
    word!(Write),
    Item::NoGroup,
    NAME,
    NUMBER,
    COUNT,
    word!(Fill),
    one!(Nothing, Sort::Byte),
];

pub const DATA: [Item; 6] = [
    word!(Write),
    Item::NoGroup,
    NAME,
    NUMBER,
    word!(Data),
    Item::Blocks,
];

pub const SESSIONS: [Item; 3] = [
    word!(Sessions),
    Item::NoGroup,
    one!(Nothing, Sort::Number { low: 1, high: 16 }),
];
