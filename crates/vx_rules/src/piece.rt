ghost use Rattle.std.specs.Prelude.{◌≡◌, ◌++◌, [], OnOk, IfOk};
ghost use Rattle.std.specs.List.{list_all};
ghost use Rattle.vx_rules.specs.Pieces.{piece_before, pieces, is_filled};

use std::alloc::Global;
use vx_base::OutOfMemory;
use vx_config_parts::{Object, Subdisk};
use vx_names::Name;

/// A subdisk as a piece of a plex's column.
#[derive(Clone, Copy)]
pub(crate) struct Piece {
    pub(crate) plex: Name,
    pub(crate) col: u32,
    pub(crate) at: u64,
    pub(crate) len: u64,
}

/// The pieces among the records.
pub(crate) fn pieces_of(alloc: Global, all: &[Object]) -> Result<Vec<Piece>, OutOfMemory>
    ensures { IfOk result (λ found. found.items ≡ pieces all.now) }
{
    let mut found = Vec::new(alloc);
    for object in all {
        if let Object::SubdiskRecord(subdisk) = object {
            put_piece(&mut found, subdisk)?;
        }
    }
    Ok(found)
}

fn put_piece(found: &mut Vec<Piece>, subdisk: &Subdisk) -> Result<(), OutOfMemory>
    ensures { OnOk result (found.new.items ≡ found.old.items ++ piece_before subdisk.now.plex subdisk.now []) }
{
    if let Some(plex) = &subdisk.plex {
        found.push(Piece {
            plex: *plex,
            col: subdisk.col,
            at: subdisk.at,
            len: subdisk.len,
        })?;
    }
    Ok(())
}

/// Each piece has a sector.
pub(crate) fn all_filled(pieces: &[Piece]) -> bool
    ensures { result ≡ list_all is_filled pieces.now }
{
    pieces.iter().all(|piece| piece.len > 0)
}
