ghost use Rattle.std.specs.Prelude.{◌≡◌, None, Some, [], IfOk, MatchResult, List, ℕ};
ghost use Rattle.std.specs.BTreeMap.{get};
ghost use Rattle.std.specs.Cmp.Lexicographic.{slice_cmp};
ghost use Rattle.std.specs.Ordering.{nat_cmp};
ghost use Rattle.std.specs.Option.{option_copied};
ghost use Rattle.vx_rules.specs.Named.{first_named, as_disk, as_plex, as_vol, as_dco};
ghost use Rattle.vx_rules.specs.References.{repeated_after};

use crate::Pieces;
use std::alloc::Global;
use std::collections::BTreeMap;
use vx_base::OutOfMemory;
use vx_config_parts::{Dco, Disk, Object, ObjectFault, Plex, Vol};
use vx_names::Name;

/// The records of a configuration whose names differ: each is found by its name, and the columns of a plex by its own.
#[derive(Drop)]
pub(crate) struct Index<'a> {
    pub(crate) all: &'a [Object],
    pub(crate) pieces: Pieces<'a>,
    by_name: BTreeMap<Name, &'a Object>,
    ghost same: { pieces ≡ all.now },
    ghost names_differ: { repeated_after [] all.now ≡ None },
    ghost finds: { (name : List ℕ) → option_copied (get (slice_cmp nat_cmp) by_name name) ≡ first_named name all.now },
}

impl<'a> Index<'a> {
    /// The records by their names, or the fault of the first whose name an earlier one has.
    pub(crate) fn new(
        alloc: Global,
        all: &'a [Object],
    ) -> Result<Result<Index<'a>, ObjectFault>, OutOfMemory>
        ensures { IfOk result (λ made. MatchResult made (λ index. index.all.now ≡ all.now) (λ fault. repeated_after [] all.now ≡ Some fault)) }
    {
        let mut by_name = BTreeMap::new(alloc);
        for object in all {
            let Ok(earlier) = by_name.insert(*object.name(), object) else {
                return Err(OutOfMemory);
            };
            if earlier.is_some() {
                return Ok(Err(ObjectFault::Exists(*object.name())));
            }
        }
        let pieces = Pieces::of(alloc, all)?;
        Ok(Ok(Index {
            all,
            pieces,
            by_name,
        }))
    }

    /// The disk of that name.
    pub(crate) fn disk(&self, name: &Name) -> Option<&'a Disk>
        ensures { option_copied result ≡ as_disk (first_named name.now self.now.all.now) }
    {
        match self.find(name) {
            Some(Object::DiskRecord(disk)) => Some(disk),
            _ => None,
        }
    }

    /// The plex of that name.
    pub(crate) fn plex(&self, name: &Name) -> Option<&'a Plex>
        ensures { option_copied result ≡ as_plex (first_named name.now self.now.all.now) }
    {
        match self.find(name) {
            Some(Object::PlexRecord(plex)) => Some(plex),
            _ => None,
        }
    }

    /// The volume of that name.
    pub(crate) fn vol(&self, name: &Name) -> Option<&'a Vol>
        ensures { option_copied result ≡ as_vol (first_named name.now self.now.all.now) }
    {
        match self.find(name) {
            Some(Object::VolRecord(vol)) => Some(vol),
            _ => None,
        }
    }

    /// The DCO of that name.
    pub(crate) fn dco(&self, name: &Name) -> Option<&'a Dco>
        ensures { option_copied result ≡ as_dco (first_named name.now self.now.all.now) }
    {
        match self.find(name) {
            Some(Object::DcoRecord(dco)) => Some(dco),
            _ => None,
        }
    }

    /// The record of that name.
    fn find(&self, name: &Name) -> Option<&'a Object>
        ensures { option_copied result ≡ first_named name.now self.now.all.now }
    {
        self.by_name.get(name).copied()
    }
}
