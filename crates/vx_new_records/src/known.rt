ghost use Rattle.std.specs.Prelude.{◌≡◌, ◌++◌, List, ℕ, is_some, IfOk};
ghost use Rattle.std.specs.BTreeMap.{get};
ghost use Rattle.std.specs.Cmp.Lexicographic.{slice_cmp};
ghost use Rattle.std.specs.Ordering.{nat_cmp};
ghost use Rattle.vx_new_volumes.specs.Naming.{is_known};

use std::alloc::Global;
use std::collections::BTreeMap;
use vx_base::OutOfMemory;
use vx_names::Name;

/// Names that are taken, in their order and to be looked up.
#[derive(Drop)]
pub(crate) struct Known {
    pub(crate) names: Vec<Name>,
    found: BTreeMap<Name, ()>,
    ghost finds: { (name : List ℕ) → is_some (get (slice_cmp nat_cmp) found name) ≡ is_known names.items name },
}

impl Known {
    pub(crate) fn of(alloc: Global, names: Vec<Name>) -> Result<Known, OutOfMemory>
        ensures { IfOk result (λ known. known.names.items ≡ names.items) }
    {
        let mut found = BTreeMap::new(alloc);
        for name in &names {
            let Ok(_) = found.insert(*name, ()) else {
                return Err(OutOfMemory);
            };
        }
        Ok(Known { names, found })
    }

    /// With these names behind.
    pub(crate) fn and(
        self,
        alloc: Global,
        first: &[Name],
        second: &[Name],
    ) -> Result<Known, OutOfMemory>
        ensures { IfOk result (λ known. known.names.items ≡ self.names.items ++ first.now ++ second.now) }
    {
        let mut names = self.names;
        names.extend_from_slice(first)?;
        names.extend_from_slice(second)?;
        Known::of(alloc, names)
    }

    pub(crate) fn has(&self, name: &Name) -> bool
        ensures { result ≡ is_known self.now.names.items name.now }
    {
        self.found.contains_key(name)
    }
}
