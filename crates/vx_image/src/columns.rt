ghost use Rattle.std.specs.Prelude.{◌≡◌, ◌<◌, ◌^◌, IfOk, length};
ghost use Rattle.vx_layout.specs.Columns.{column_length};
ghost use Rattle.vx_image.specs.Lies.{strips_from, columns_of, IsPlexOf};

use crate::strips::{pieces_of, strips_of};
use std::alloc::Global;
use vx_base::OutOfMemory;
use vx_layout::{Column, Columns};
use vx_names::Name;
use vx_objects::{Config, Plex};

/// The columns of a plex.
pub(crate) fn columns_of(
    alloc: Global,
    config: &Config,
    plex: &Plex,
) -> Result<Columns, OutOfMemory>
    requires { IsPlexOf config.now plex.now }
    ensures { IfOk result (λ columns. columns ≡ columns_of config.now plex.now) }
{
    let mut columns = Vec::new(alloc);
    for col in 0..plex.ncol {
        let column = column_of(alloc, config, plex, col)?;
        columns.push(column)?;
    }
    Ok(Columns::from_vec(columns))
}

/// A column of a plex.
fn column_of(alloc: Global, config: &Config, plex: &Plex, col: u32) -> Result<Column, OutOfMemory>
    requires plex { IsPlexOf config.now plex.now }
    requires col { col < plex.now.ncol }
    ensures { IfOk result (λ column. column ≡ strips_from (length config.now.subdisks) config.now plex.now.name col 0) }
{
    let pieces = pieces_of(alloc, config.subdisks.as_slice(), &plex.name, col)?;
    let strips = strips_of(alloc, config, &pieces)?;
    Column::from_vec(alloc, strips)
}
