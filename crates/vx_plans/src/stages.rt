ghost use Rattle.std.specs.Prelude.{◌≡◌};

use std::marker::Model;
use vx_names::Name;
use vx_stages::Stage;

/// Stages, in order.
#[derive(Drop)]
pub struct Stages {
    items: Vec<Stage>,
}

impl Model for Stages {
    ghost use Rattle.std.specs.Prelude.{List};
    ghost use Rattle.vx_stages.specs.declared.stage.Stage.{Stage};

    ghost Value = { List Stage };

    ghost view = { λ x. x.items.items };
}

impl Stages {
    pub fn from_vec(items: Vec<Stage>) -> Stages
        ensures { result ≡ items.items }
    {
        Stages { items }
    }

    pub fn as_slice(&self) -> &[Stage]
        ensures { result.now ≡ self.now }
    {
        self.items.as_slice()
    }
}

/// What a command shows once all its stages are done.
#[derive(Clone, Copy)]
pub enum Finish {
    Nothing,
    /// The records of the group, or of one of its volumes.
    Records(Option<Name>),
    /// The volumes of the group with their plexes, subdisks and kernel states, or one of them.
    Hierarchy(Option<Name>),
}

/// The plan of a command.
#[derive(Drop)]
pub struct Plan {
    pub stages: Stages,
    pub finish: Finish,
}
