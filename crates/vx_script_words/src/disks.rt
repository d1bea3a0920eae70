ghost use Rattle.std.specs.Prelude.{◌≡◌, ◌++◌, ◌∷◌, [], IfOk};
ghost use Rattle.vx_script_words.specs.Packed.{paired};

use crate::{DiskAt, Names};
use std::alloc::Global;
use std::marker::Model;
use vx_base::OutOfMemory;
use vx_names::Name;

/// Disks and their devices in the order of their words, kept as names. Contracts see the list of both.
#[derive(Drop)]
pub struct Disks {
    names: Names,
}

impl Model for Disks {
    ghost use Rattle.std.specs.Prelude.{List};
    ghost use Rattle.vx_script_words.specs.Packed.{paired, ArePaired};
    ghost use Rattle.vx_script_words.specs.declared.value.DiskAt.{DiskAt};

    ghost Value = { List DiskAt };

    ghost view = { λ d. paired d.names };

    ghost invariant = { λ d. ArePaired d.names };
}

impl Disks {
    pub fn new(alloc: Global) -> Disks
        ensures { result ≡ [] }
    {
        let names = Names::new(alloc);
        Disks { names }
    }

    /// The disks with one more behind them.
    pub fn with(self, pair: DiskAt) -> Result<Disks, OutOfMemory>
        ensures { IfOk result (λ disks. disks ≡ self ++ pair ∷ []) }
    {
        let Disks { names } = self;
        let names = names.with(pair.disk)?;
        let names = names.with(pair.device)?;
        Ok(Disks { names })
    }

    /// The same disks in as little memory as they take.
    pub fn copy(&self, alloc: Global) -> Result<Disks, OutOfMemory>
        ensures { IfOk result (λ disks. disks ≡ self.now) }
    {
        let names = self.names.copy(alloc)?;
        Ok(Disks { names })
    }

    pub fn to_vec(&self, alloc: Global) -> Result<Vec<DiskAt>, OutOfMemory>
        ensures { IfOk result (λ disks. disks.items ≡ self.now) }
    {
        let names = self.names.to_vec(alloc)?;
        pairs_of(alloc, names.as_slice())
    }
}

/// Each name with the one behind it.
fn pairs_of(alloc: Global, names: &[Name]) -> Result<Vec<DiskAt>, OutOfMemory>
    ensures { IfOk result (λ disks. disks.items ≡ paired names.now) }
{
    let mut disks = Vec::with_capacity(alloc, names.len() / 2)?;
    let mut rest = names;
    while let [disk, device, more @ ..] = rest {
        disks.push(DiskAt {
            disk: *disk,
            device: *device,
        })?;
        rest = more;
    }
    Ok(disks)
}
