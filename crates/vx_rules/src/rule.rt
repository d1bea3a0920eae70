/// A rule that a valid configuration keeps.
#[derive(Clone, Copy, Debug, PartialEq, Eq)]
pub enum Rule {
    OneGroup,
    NamesDiffer,
    ReferencesAreThere,
    SlotsDiffer,
    VolumesAreFew,
    NamesAreShort,
    RegionSizesAreGood,
    RegionsAreGood,
    PlexesAreGood,
    SubdisksLieInside,
    SubdisksDoNotOverlap,
    PlexesAreWhole,
    MapsAreGood,
    LogsAreGood,
    PreferredPlexIsThere,
    RelationsAreAlone,
    RelatedVolumesHaveLogs,
    RelatedVolumesHaveOneShape,
    NumbersFit,
}
