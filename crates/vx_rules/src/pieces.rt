ghost use Rattle.std.specs.Prelude.{◌≡◌, IfOk, IfSome};
ghost use Rattle.vx_rules.specs.Columns.{columns_are_good, plex_length};
ghost use Rattle.vx_rules.specs.Indexed.{IsIndexed};

use crate::columns::Columns;
use crate::piece::{all_filled, pieces_of};
use crate::scans;
use std::alloc::Global;
use std::marker::Model;
use vx_base::OutOfMemory;
use vx_config_parts::{Object, Plex};

/// The columns of the plexes of a configuration, found in one walk over the pieces.
#[derive(Drop)]
pub struct Pieces<'a> {
    all: &'a [Object],
    /// Where a piece is empty, which the rule on where subdisks lie refuses, each plex is looked at by scans.
    columns: Option<Columns>,
}

impl<'a> Model for Pieces<'a> {
    ghost use Rattle.std.specs.Prelude.{List, IfSome};
    ghost use Rattle.vx_config_parts.specs.declared.object.Object.{Object};
    ghost use Rattle.vx_rules.specs.Indexed.{IsIndexed};

    ghost Value = { List Object };

    ghost view = { λ p. p.all.now };

    ghost invariant = { λ p. IfSome p.columns (λ c. IsIndexed p.all.now c.map) };
}

impl<'a> Pieces<'a> {
    /// The columns of these records.
    pub fn of(alloc: Global, all: &'a [Object]) -> Result<Pieces<'a>, OutOfMemory>
        ensures { IfOk result (λ pieces. pieces ≡ all.now) }
    {
        let columns = columns_of(alloc, all)?;
        Ok(Pieces { all, columns })
    }

    /// The plex has the columns that its layout wants, of one length, and its pieces lie in them without holes.
    pub fn are_good(&self, plex: &Plex) -> bool
        ensures { result ≡ columns_are_good self.now plex.now }
    {
        match &self.columns {
            Some(columns) => columns.are_good(plex),
            None => scans::columns_are_good(self.all, plex),
        }
    }

    /// The sectors of the plex.
    pub fn plex_length(&self, plex: &Plex) -> u128
        ensures { result ≡ plex_length self.now plex.now }
    {
        match &self.columns {
            Some(columns) => columns.plex_length(plex),
            None => scans::plex_length(self.all, plex),
        }
    }
}

fn columns_of(alloc: Global, all: &[Object]) -> Result<Option<Columns>, OutOfMemory>
    ensures { IfOk result (λ columns. IfSome columns (λ c. IsIndexed all.now c.map)) }
{
    let mut pieces = pieces_of(alloc, all)?;
    if !all_filled(&pieces) {
        return Ok(None);
    }
    pieces.sort_by_key(|piece| piece.at)?;
    let columns = Columns::of(alloc, &pieces)?;
    Ok(Some(columns))
}
