use std::marker::Model;
use vx_base::OutOfMemory;
use vx_names::Name;
use vx_script_forms::{Boxed, Form};

/// A command line.
#[derive(Drop)]
pub struct Command {
    /// The word after `-g`, where the form may have one.
    pub group: Option<Boxed<Name>>,
    pub form: Form,
    /// The N of `cut=N`.
    pub cut: Option<u64>,
}

/// Commands in the order of their lines.
#[derive(Drop)]
pub struct Commands {
    items: Vec<Command>,
}

impl Model for Commands {
    ghost use Rattle.std.specs.Prelude.{List};
    ghost use Rattle.vx_script.specs.declared.command.Command.{Command};

    ghost Value = { List Command };

    ghost view = { λ c. c.items.items };
}

impl Commands {
    ghost use Rattle.std.specs.Prelude.{◌≡◌, ◌++◌, ◌∷◌, [], OnOk};

    pub fn from_vec(items: Vec<Command>) -> Commands
        ensures { result ≡ items.items }
    {
        Commands { items }
    }

    pub fn into_vec(self) -> Vec<Command>
        ensures { result.items ≡ self }
    {
        self.items
    }

    pub fn as_slice(&self) -> &[Command]
        ensures { result.now ≡ self.now }
    {
        self.items.as_slice()
    }

    /// Appends a command.
    pub fn push(&mut self, command: Command) -> Result<(), OutOfMemory>
        ensures { OnOk result (self.new ≡ self.old ++ command ∷ []) }
    {
        self.items.push(command)?;
        Ok(())
    }
}
