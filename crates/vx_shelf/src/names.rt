ghost use Rattle.std.specs.Prelude.{◌≡◌, IfOk};
ghost use Rattle.std.specs.BTreeSet.{IsFromIterResult};
ghost use Rattle.std.specs.Cmp.Lexicographic.{slice_cmp};
ghost use Rattle.std.specs.Ordering.{nat_cmp};
ghost use Rattle.vx_base.specs.Named.{Word};
ghost use Rattle.vx_shelf.specs.Listed.{IsRising, is_listed};

use std::alloc::{AllocError, Global};
use std::collections::BTreeSet;
use vx_base::OutOfMemory;
use vx_names::Name;

/// The names in the order of their bytes, each once.
pub fn in_order(alloc: Global, names: Vec<Name>) -> Result<Vec<Name>, OutOfMemory>
    ensures sorted { IfOk result (λ v. IsRising v.items) }
    ensures same { IfOk result (λ v. (name : Word) → is_listed name v.items ≡ is_listed name names.items) }
{
    let set = set_of(alloc, names)?;
    Ok(items_of(alloc, set)?)
}

fn set_of(alloc: Global, names: Vec<Name>) -> Result<BTreeSet<Name>, AllocError>
    ensures { IfOk result (λ s. IsFromIterResult (slice_cmp nat_cmp) names.items s) }
{
    names.into_iter().collect(alloc)
}

fn items_of(alloc: Global, set: BTreeSet<Name>) -> Result<Vec<Name>, AllocError>
    ensures { IfOk result (λ v. v.items ≡ set.keys) }
{
    set.into_iter().collect(alloc)
}
