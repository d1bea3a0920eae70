ghost use Rattle.std.specs.Prelude.{◌≡◌, IfOk};

use std::alloc::Global;
use std::marker::Model;
use vx_base::OutOfMemory;
use vx_names::Name;

/// A value in a place of its own, so that what holds it stays small. Contracts see the value.
#[derive(Drop)]
pub struct Boxed<T> {
    item: Box<T>,
}

impl<T> Model for Boxed<T> {
    ghost Value = { T };

    ghost coded = { T.code };

    ghost view = { λ b. b.item.value };
}

impl<T> Boxed<T> {
    pub fn new(alloc: Global, value: T) -> Result<Boxed<T>, OutOfMemory>
    where
        T: Drop,
        ensures { IfOk result (λ boxed. boxed ≡ value) }
    {
        let item = Box::new(alloc, value)?;
        Ok(Boxed { item })
    }

    pub fn get(&self) -> &T
        ensures { result.now ≡ self.now }
    {
        self.item.as_ref()
    }
}

/// The name boxed, where there is one.
pub fn maybe_boxed(alloc: Global, name: Option<Name>) -> Result<Option<Boxed<Name>>, OutOfMemory>
    ensures { IfOk result (λ boxed. boxed ≡ name) }
{
    match name {
        None => Ok(None),
        Some(name) => Ok(Some(Boxed::new(alloc, name)?)),
    }
}

/// The name that is boxed, where there is one.
pub fn name_in(name: &Option<Boxed<Name>>) -> Option<Name>
    ensures { result ≡ name.now }
{
    match name {
        None => None,
        Some(boxed) => Some(*boxed.get()),
    }
}
