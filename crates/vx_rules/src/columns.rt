ghost use Rattle.std.specs.Prelude.{◌≡◌, ◌==◌, ◌&&◌, ◌<◌, List, IfOk};
ghost use Rattle.std.specs.BTreeMap.{get};
ghost use Rattle.vx_config_parts.specs.declared.object.Object.{Object};
ghost use Rattle.vx_rules.specs.Below.{all_below};
ghost use Rattle.vx_rules.specs.Keys.{Key, key_cmp};
ghost use Rattle.vx_rules.specs.Columns.{column_length, columns_are_good, plex_length};
ghost use Rattle.vx_rules.specs.Pieces.{grow, or_new, column_of, end_of};
ghost use Rattle.vx_rules.specs.Indexed.{IsIndexed, column_is_whole, has_piece_from};

use crate::column::Column;
use crate::layout::layout_fits;
use crate::piece::Piece;
use std::alloc::Global;
use std::collections::BTreeMap;
use vx_base::OutOfMemory;
use vx_config_parts::{Plex, same};
use vx_names::Name;

/// The columns that have pieces, by their plexes and their numbers.
#[derive(Drop)]
pub(crate) struct Columns {
    map: BTreeMap<(Name, u32), Column>,
}

impl Columns {
    /// What is found of each column when the pieces are taken in turn.
    pub(crate) fn of(alloc: Global, pieces: &[Piece]) -> Result<Columns, OutOfMemory>
        ensures columns { IfOk result (λ columns. (q : Key) → get key_cmp columns.map q ≡ column_of q pieces.now) }
        ensures small { IfOk result (λ columns. (q : Key) → end_of (get key_cmp columns.map q) < 36893488147419103232) }
    {
        let mut map = BTreeMap::new(alloc);
        for piece in pieces {
            let column = column_with(&map, piece);
            map.insert((piece.plex, piece.col), column)?;
        }
        Ok(Columns { map })
    }

    /// The plex has the columns that its layout wants, of one length, and its pieces lie in them without holes.
    pub(crate) fn are_good(&self, plex: &Plex) -> bool
        ensures { (all : List Object) → IsIndexed all self.now.map → result ≡ columns_are_good all plex.now }
    {
        let length = self.length(&plex.name, 0);
        if !layout_fits(plex, length) {
            return false;
        }
        if !self.all_are(plex, length) {
            return false;
        }
        !self.has_piece_from(&plex.name, plex.ncol)
    }

    /// The sectors of the plex.
    pub(crate) fn plex_length(&self, plex: &Plex) -> u128
        requires small { (q : Key) → end_of (get key_cmp self.now.map q) < 36893488147419103232 }
        ensures { (all : List Object) → IsIndexed all self.now.map → result ≡ plex_length all plex.now }
    {
        plex.ncol as u128 * self.length(&plex.name, 0)
    }

    fn length(&self, plex: &Name, col: u32) -> u128
        ensures length { (all : List Object) → IsIndexed all self.now.map → result ≡ column_length all plex.now col }
        ensures small { ((q : Key) → end_of (get key_cmp self.now.map q) < 36893488147419103232) → result < 36893488147419103232 }
    {
        match self.map.get(&(*plex, col)) {
            Some(column) => column.end,
            None => 0,
        }
    }

    /// Each column is whole and so long.
    fn all_are(&self, plex: &Plex, length: u128) -> bool
        ensures { (all : List Object) → IsIndexed all self.now.map → result ≡ all_below plex.now.ncol (λ c. column_is_whole all plex.now.name c && column_length all plex.now.name c == length) }
    {
        for col in 0..plex.ncol {
            if !self.is_whole(&plex.name, col, length) {
                return false;
            }
        }
        true
    }

    fn is_whole(&self, plex: &Name, col: u32, length: u128) -> bool
        ensures { (all : List Object) → IsIndexed all self.now.map → result ≡ (column_is_whole all plex.now col && column_length all plex.now col == length) }
    {
        match self.map.get(&(*plex, col)) {
            Some(column) => column.whole && column.end == length,
            None => false,
        }
    }

    /// The plex has a piece in that column or behind it.
    fn has_piece_from(&self, plex: &Name, col: u32) -> bool
        ensures { (all : List Object) → IsIndexed all self.now.map → result ≡ has_piece_from all plex.now col }
    {
        match self.map.range((*plex, col)..).next() {
            Some((place, _)) => same(&place.0, plex),
            None => false,
        }
    }
}

fn column_with(columns: &BTreeMap<(Name, u32), Column>, piece: &Piece) -> Column
    requires { (q : Key) → end_of (get key_cmp columns.now q) < 36893488147419103232 }
    ensures column { result ≡ grow (or_new (get key_cmp columns.now (piece.now.plex, piece.now.col))) piece.now }
    ensures small { result.end < 36893488147419103232 }
{
    match columns.get(&(piece.plex, piece.col)) {
        Some(column) => column.with(piece),
        None => Column::new().with(piece),
    }
}
