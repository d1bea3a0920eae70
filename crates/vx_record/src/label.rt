ghost use Rattle.std.specs.Prelude.{◌≡◌, codes};
ghost use Rattle.vx_record.specs.Words.{label_word};

/// The name of an attribute.
#[derive(Clone, Copy, Debug, PartialEq, Eq)]
pub enum Label {
    Version,
    Device,
    Slot,
    Publen,
    Disk,
    Off,
    Len,
    Plex,
    Col,
    At,
    Vol,
    Kind,
    Layout,
    Ncol,
    Unit,
    State,
    Map,
    Region,
    Rdpol,
    Prefer,
    Dco,
    Maps,
    Of,
    Ofmap,
}

impl Label {
    /// The word before the `=`.
    pub fn word(self) -> &'static [u8]
        ensures { result.now ≡ label_word self }
    {
        match self {
            Label::Version => b"version",
            Label::Device => b"device",
            Label::Slot => b"slot",
            Label::Publen => b"publen",
            Label::Disk => b"disk",
            Label::Off => b"off",
            Label::Len => b"len",
            Label::Plex => b"plex",
            Label::Col => b"col",
            Label::At => b"at",
            Label::Vol => b"vol",
            Label::Kind => b"kind",
            Label::Layout => b"layout",
            Label::Ncol => b"ncol",
            Label::Unit => b"unit",
            Label::State => b"state",
            Label::Map => b"map",
            Label::Region => b"region",
            Label::Rdpol => b"rdpol",
            Label::Prefer => b"prefer",
            Label::Dco => b"dco",
            Label::Maps => b"maps",
            Label::Of => b"of",
            Label::Ofmap => b"ofmap",
        }
    }
}
