ghost use Rattle.std.specs.Prelude.{◌≡◌, codes};
ghost use Rattle.vx_record.specs.Words.{kind_word};

/// What a record tells of: a disk group, a disk, a subdisk, a plex, a volume, a data change object, a relation of a snapshot.
#[derive(Clone, Copy, Debug, PartialEq, Eq)]
pub enum Kind {
    Dg,
    Dm,
    Sd,
    Plex,
    Vol,
    Dco,
    Snap,
}

impl Kind {
    /// The word that begins a record of the kind.
    pub fn word(self) -> &'static [u8]
        ensures { result.now ≡ kind_word self }
    {
        match self {
            Kind::Dg => b"dg",
            Kind::Dm => b"dm",
            Kind::Sd => b"sd",
            Kind::Plex => b"plex",
            Kind::Vol => b"vol",
            Kind::Dco => b"dco",
            Kind::Snap => b"snap",
        }
    }
}
