//! The tests of the command.
ghost use Rattle.std.specs.Prelude.{◌≡◌, IfOk};
ghost use Rattle.vx_house.specs.Plain.{plain};
ghost use Rattle.vx_recovery.specs.Going.{refusal_of, volume_refusal};

use std::alloc::Global;
use vx_answers::Refusal;
use vx_base::OutOfMemory;
use vx_house::House;
use vx_names::Name;
use vx_piece::Piece;
use vx_stage_gates::failing;
use vx_stages::Test;

/// The first test that refuses the command: the group is another, or it has no volume of the name that is given.
pub(crate) fn refusal_of<P: Piece>(
    alloc: Global,
    house: &House<P>,
    dg: Option<Name>,
    vol: &Option<Name>,
) -> Result<Option<Refusal>, OutOfMemory>
    ensures { IfOk result (λ refusal. refusal ≡ refusal_of dg vol.now (plain P.seen house.now)) }
{
    match failing(alloc, house, Test::GroupIs(dg), &[])? {
        Some(refusal) => Ok(Some(refusal)),
        None => volume_refusal(alloc, house, vol),
    }
}

/// The group has no volume of the name that is given.
fn volume_refusal<P: Piece>(
    alloc: Global,
    house: &House<P>,
    vol: &Option<Name>,
) -> Result<Option<Refusal>, OutOfMemory>
    ensures { IfOk result (λ refusal. refusal ≡ volume_refusal vol.now (plain P.seen house.now)) }
{
    match vol {
        None => Ok(None),
        Some(name) => failing(alloc, house, Test::HasVolume(*name), &[]),
    }
}
