ghost use Rattle.std.specs.Prelude.{◌≡◌, ◌&&◌, ◌||◌, ◌==◌, ◌+◌, ℕ, ◌<◌};
ghost use Rattle.std.specs.List.{list_any, list_all, count_by};
ghost use Rattle.vx_config_parts.specs.Objects.{is_subdisk};
ghost use Rattle.vx_rules.specs.Columns.{is_in_column, column_begins, piece_follows, all_pieces_good, end_with, column_length, columns_are_equal, columns_are_good, plex_length};

use crate::layout::layout_fits;
use vx_config_parts::{Object, Plex, Subdisk, refers};
use vx_names::Name;

/// The plex has the columns that its layout wants, of one length, and its pieces lie in them without holes.
pub(crate) fn columns_are_good(all: &[Object], plex: &Plex) -> bool
    ensures { result ≡ columns_are_good all.now plex.now }
{
    layout_fits(plex, column_length(all, &plex.name, 0))
        && columns_are_equal(all, plex)
        && pieces_are_good(all, plex)
}

fn columns_are_equal(all: &[Object], plex: &Plex) -> bool
    ensures { result ≡ columns_are_equal all.now plex.now }
{
    let length = column_length(all, &plex.name, 0);
    for col in 0..plex.ncol {
        if !column_is(all, &plex.name, col, length) {
            return false;
        }
    }
    true
}

fn column_is(all: &[Object], plex: &Name, col: u32, length: u128) -> bool
    ensures { result ≡ (column_begins all.now plex.now col && column_length all.now plex.now col == length) }
{
    column_begins(all, plex, col) && column_length(all, plex, col) == length
}

fn column_begins(all: &[Object], plex: &Name, col: u32) -> bool
    ensures { result ≡ column_begins all.now plex.now col }
{
    all.iter().any(|object| is_first_piece(object, plex, col))
}

fn is_first_piece(object: &Object, plex: &Name, col: u32) -> bool
    ensures { result ≡ is_subdisk (λ s. is_in_column plex.now col s && s.at == 0) object.now }
{
    match object {
        Object::SubdiskRecord(subdisk) => is_in_column(subdisk, plex, col) && subdisk.at == 0,
        _ => false,
    }
}

fn is_in_column(subdisk: &Subdisk, plex: &Name, col: u32) -> bool
    ensures { result ≡ is_in_column plex.now col subdisk.now }
{
    refers(&subdisk.plex, plex) && subdisk.col == col
}

fn column_length(all: &[Object], plex: &Name, col: u32) -> u128
    ensures length { result ≡ column_length all.now plex.now col }
    ensures bound { result < 36893488147419103232 }
{
    let mut end = 0;
    for object in all {
        end = end_with(object, plex, col, end);
    }
    end
}

fn end_with(object: &Object, plex: &Name, col: u32, end: u128) -> u128
    requires { end < 36893488147419103232 }
    ensures end { result ≡ end_with plex.now col end object.now }
    ensures bound { result < 36893488147419103232 }
{
    match object {
        Object::SubdiskRecord(subdisk) if is_in_column(subdisk, plex, col) => {
            let piece_end = subdisk.at as u128 + subdisk.len as u128;
            if end < piece_end { piece_end } else { end }
        }
        _ => end,
    }
}

fn pieces_are_good(all: &[Object], plex: &Plex) -> bool
    ensures { result ≡ list_all (λ o. all_pieces_good all.now plex.now o) all.now }
{
    all.iter().all(|object| all_pieces_good(all, plex, object))
}

fn all_pieces_good(all: &[Object], plex: &Plex, object: &Object) -> bool
    ensures { result ≡ all_pieces_good all.now plex.now object.now }
{
    match object {
        Object::SubdiskRecord(subdisk) => {
            !refers(&subdisk.plex, &plex.name)
                || (subdisk.col < plex.ncol && piece_follows(all, &plex.name, subdisk))
        }
        _ => true,
    }
}

fn piece_follows(all: &[Object], plex: &Name, piece: &Subdisk) -> bool
    ensures { result ≡ piece_follows all.now plex.now piece.now }
{
    (piece.at == 0 || some_ends(all, plex, piece.col, piece.at))
        && begin_count(all, plex, piece.col, piece.at) <= 1
}

fn some_ends(all: &[Object], plex: &Name, col: u32, at: u64) -> bool
    ensures { result ≡ list_any (λ o. is_subdisk (λ t. is_in_column plex.now col t && t.at + t.len == at) o) all.now }
{
    all.iter().any(|object| is_piece_to(object, plex, col, at))
}

fn is_piece_to(object: &Object, plex: &Name, col: u32, end: u64) -> bool
    ensures { result ≡ is_subdisk (λ t. is_in_column plex.now col t && t.at + t.len == end) object.now }
{
    match object {
        Object::SubdiskRecord(subdisk) => {
            is_in_column(subdisk, plex, col)
                && subdisk.at as u128 + subdisk.len as u128 == end as u128
        }
        _ => false,
    }
}

fn begin_count(all: &[Object], plex: &Name, col: u32, at: u64) -> usize
    ensures { result ≡ count_by (λ o. is_subdisk (λ t. is_in_column plex.now col t && t.at == at) o) all.now }
{
    all.iter()
        .filter(|object| is_piece_from(object, plex, col, at))
        .count()
}

fn is_piece_from(object: &Object, plex: &Name, col: u32, at: u64) -> bool
    ensures { result ≡ is_subdisk (λ t. is_in_column plex.now col t && t.at == at) object.now }
{
    match object {
        Object::SubdiskRecord(subdisk) => is_in_column(subdisk, plex, col) && subdisk.at == at,
        _ => false,
    }
}

/// The sectors of the plex.
pub(crate) fn plex_length(all: &[Object], plex: &Plex) -> u128
    ensures { result ≡ plex_length all.now plex.now }
{
    plex.ncol as u128 * column_length(all, &plex.name, 0)
}
