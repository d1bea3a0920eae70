ghost use Rattle.std.specs.Prelude.{◌≡◌, true};
ghost use Rattle.vx_rules.specs.Sizes.{log_length};
ghost use Rattle.vx_new_volumes.specs.Rule.{is_request, column_length};

use crate::request::Request;
use vx_block::Geometry;
use vx_mapfmt::DcoShape;

/// The sectors of a column of a stripe: whole units, as many as it takes.
pub(crate) fn column_length(request: &Request) -> u64
    requires { is_request request.now ≡ true }
    ensures { result ≡ column_length request.now }
{
    let row = request.ncol as u64 * request.unit;
    let rows = (request.length + (row - 1)) / row;
    request.unit * rows
}

/// The sectors of a log, which holds 32 change maps.
pub(crate) fn log_length(request: &Request) -> u64
    requires { is_request request.now ≡ true }
    ensures { result ≡ log_length request.now.length request.now.region }
{
    let geometry = Geometry::new(request.length, request.region).unwrap();
    DcoShape::of(&geometry, 32).unwrap().plex_bytes / 512
}
