ghost use Rattle.std.specs.Prelude.{◌≡◌, ◌+◌, List, [], ◌∷◌, ◌++◌, OnOk, false, true};
ghost use Rattle.std.specs.List.{list_any};
ghost use Rattle.vx_rules.specs.Extents.{has_sector, meets};
ghost use Rattle.vx_rules.specs.Laid.{IsLaid};

use crate::extent::Extent;
use std::alloc::Global;
use std::collections::BTreeMap;
use vx_base::OutOfMemory;
use vx_config_parts::same;
use vx_names::Name;

/// Extents of which none meets another.
#[derive(Drop)]
pub(crate) struct Laid {
    /// Where each ends, by its disk and its first sector.
    ends: BTreeMap<(Name, u128), u128>,
}

impl Laid {
    pub(crate) fn new(alloc: Global) -> Laid
        ensures { IsLaid result.ends [] }
    {
        Laid {
            ends: BTreeMap::new(alloc),
        }
    }

    /// The extent meets one of those that are laid: it can only be the last that begins before its end.
    pub(crate) fn meets(&self, extent: &Extent) -> bool
        ensures { (done : List Extent) → IsLaid self.now.ends done → result ≡ list_any (meets extent.now) done }
    {
        let off = extent.off as u128;
        let end = off + extent.len as u128;
        match self.ends.range(..(extent.disk, end)).next_back() {
            Some((place, last)) => same(&place.0, &extent.disk) && off < *last,
            None => false,
        }
    }

    /// Lays an extent that meets none.
    pub(crate) fn lay(&mut self, extent: &Extent) -> Result<(), OutOfMemory>
        ensures { OnOk result ((done : List Extent) → IsLaid self.old.ends done → has_sector extent.now ≡ true → list_any (meets extent.now) done ≡ false → IsLaid self.new.ends (done ++ extent.now ∷ [])) }
    {
        let off = extent.off as u128;
        self.ends
            .insert((extent.disk, off), off + extent.len as u128)?;
        Ok(())
    }
}
