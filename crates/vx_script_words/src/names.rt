ghost use Rattle.std.specs.Prelude.{◌≡◌, ◌++◌, ◌∷◌, [], IfOk};
ghost use Rattle.vx_script_words.specs.Packed.{names_in, ArePacked};

use crate::words::{past, up_to};
use std::alloc::Global;
use std::marker::Model;
use vx_base::OutOfMemory;
use vx_names::Name;

/// Names in the order of their words, kept one behind the other with a byte 0 behind each. Contracts see the list.
#[derive(Drop)]
pub struct Names {
    bytes: Vec<u8>,
}

impl Model for Names {
    ghost use Rattle.std.specs.Prelude.{List, ℕ};
    ghost use Rattle.vx_script_words.specs.Packed.{names_in, ArePacked};

    ghost Value = { List (List ℕ) };

    ghost view = { λ n. names_in n.bytes.items };

    ghost invariant = { λ n. ArePacked n.bytes.items };
}

impl Names {
    pub fn new(alloc: Global) -> Names
        ensures { result ≡ [] }
    {
        let bytes = Vec::new(alloc);
        Names { bytes }
    }

    /// The names with one more behind them.
    pub fn with(self, name: Name) -> Result<Names, OutOfMemory>
        ensures { IfOk result (λ names. names ≡ self ++ name ∷ []) }
    {
        let Names { mut bytes } = self;
        name.put(&mut bytes)?;
        bytes.push(0)?;
        Ok(Names { bytes })
    }

    /// The same names in as little memory as they take.
    pub fn copy(&self, alloc: Global) -> Result<Names, OutOfMemory>
        ensures { IfOk result (λ names. names ≡ self.now) }
    {
        let bytes = Vec::from_slice(alloc, self.bytes.as_slice())?;
        Ok(Names { bytes })
    }

    pub fn to_vec(&self, alloc: Global) -> Result<Vec<Name>, OutOfMemory>
        ensures { IfOk result (λ names. names.items ≡ self.now) }
    {
        names_of(alloc, self.bytes.as_slice())
    }
}

/// The names of bytes that have a byte 0 behind each.
fn names_of(alloc: Global, bytes: &[u8]) -> Result<Vec<Name>, OutOfMemory>
    requires { ArePacked bytes.now }
    ensures { IfOk result (λ names. names.items ≡ names_in bytes.now) }
{
    let mut names = Vec::new(alloc);
    let mut rest = bytes;
    while rest.len() > 0 {
        let Ok(name) = Name::read(up_to(0, rest)) else {
            return Ok(names);
        };
        names.push(name)?;
        rest = past(0, rest);
    }
    Ok(names)
}
