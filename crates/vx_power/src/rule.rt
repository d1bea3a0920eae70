//! The rule of a board, and the steps on it.
ghost use Rattle.std.specs.Prelude.{◌≡◌, ℕ};

use crate::views::View;
use atomic_table::{Play, Split, TableRule};
use std::marker::{Brand, PhantomData};

/// The first word is the sum of all draws.
pub struct Sum;

impl TableRule<(), View, ()> for Sum {
    ghost use Rattle.vx_power.specs.Drawn.{IsSum, nothing};

    ghost holds = { λ _. IsSum };

    ghost first = { λ _. nothing };
}

/// One draw more.
pub struct Draws;

impl Play<(), View> for Draws {
    ghost use Rattle.vx_power.specs.Drawn.{drawn_once};

    ghost then = { λ s v n w. w ≡ (drawn_once v.0, v.1) };
}

/// The view stays.
pub struct Looks;

impl Play<(), View> for Looks {
    ghost then = { λ s v n w. w ≡ v };
}

/// How many sectors were handed over as the power went.
pub trait Handed {
    ghost writes: { ℕ };

    ghost reads: { ℕ };
}

impl Handed for Brand {
    ghost writes = { 0 };

    ghost reads = { 0 };
}

/// These sectors are noted in the view.
pub struct Notes<C> {
    of: PhantomData<C>,
}

impl<C: Handed> Play<(), View> for Notes<C> {
    ghost use Rattle.vx_power.specs.Drawn.{noted};

    ghost then = { λ s v n w. w ≡ (noted C.writes C.reads v.0, v.1) };
}

/// A seat that has drawn nothing.
pub struct NewSeat;

impl Split<View> for NewSeat {
    ghost use Rattle.vx_power.specs.Drawn.{nothing};

    ghost left = { λ v. v };

    ghost right = { λ v. nothing };
}
