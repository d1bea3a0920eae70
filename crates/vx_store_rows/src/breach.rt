use std::fmt;

/// What a trial did that it may not.
#[derive(Clone, Copy)]
pub enum Breach {
    /// There was no memory for it, or the region could not be made.
    NoRegion,
    /// A fault without a device call that failed, or one that blames another device, or that came though some plex worked.
    Blames,
    /// Power was gone though it was not, or there were device calls after it.
    Power,
    /// A read gave a block that is not among its candidates.
    Reads,
    /// A block was written before its marks were on each copy.
    Early,
    /// A mark is claimed that some copy does not show.
    Claims,
    /// The copies show other marks than they may.
    Marks,
    /// No plex that is on is unmarked.
    Unreadable,
    /// An unmarked plex has a block that is not among its candidates.
    Holds,
    /// Unmarked plexes differ where they may not.
    Differ,
    /// A snapshot's region has changed without its mark.
    Untracked,
    /// The store could not be loaded.
    Refused,
    /// The region could not be settled, cleared and read.
    Fails,
    /// After the settling a plex holds something else than it may.
    Settled,
    /// A call made other device calls than it needs.
    Calls,
}

impl fmt::Display for Breach {
    fn fmt<W: fmt::Write>(&self, f: &mut fmt::Formatter<W>) -> fmt::Result {
        f.write_str(match self {
            Breach::NoRegion => "no region",
            Breach::Blames => "a fault without its cause",
            Breach::Power => "power gone without its cause, or calls after it",
            Breach::Reads => "a read of a block that may not be there",
            Breach::Early => "a write before its marks",
            Breach::Claims => "a mark that a copy does not show",
            Breach::Marks => "other marks on a copy",
            Breach::Unreadable => "no plex to read",
            Breach::Holds => "a block that may not be there",
            Breach::Differ => "plexes that differ",
            Breach::Untracked => "a change that is not tracked",
            Breach::Refused => "no store",
            Breach::Fails => "no settling",
            Breach::Settled => "another block after the settling",
            Breach::Calls => "other device calls",
        })
    }
}
