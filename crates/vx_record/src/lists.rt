ghost use Rattle.std.specs.Prelude.{◌≡◌};

use crate::record::Record;
use std::marker::Model;
use vx_names::Attr;

/// The attributes of a record, in order.
#[derive(Debug, Drop)]
pub struct Attrs {
    items: Vec<Attr>,
}

impl Model for Attrs {
    ghost use Rattle.std.specs.Prelude.{List};
    ghost use Rattle.vx_names.specs.declared.attr.Attr.{Attr};

    ghost Value = { List Attr };

    ghost view = { λ a. a.items.items };
}

impl Attrs {
    pub fn from_vec(items: Vec<Attr>) -> Attrs
        ensures { result ≡ items.items }
    {
        Attrs { items }
    }

    pub fn into_vec(self) -> Vec<Attr>
        ensures { result.items ≡ self }
    {
        self.items
    }

    pub fn as_slice(&self) -> &[Attr]
        ensures { result.now ≡ self.now }
    {
        &self.items
    }
}

/// Records, in the order of their text.
#[derive(Debug, Drop)]
pub struct Records {
    items: Vec<Record>,
}

impl Model for Records {
    ghost use Rattle.std.specs.Prelude.{List};
    ghost use Rattle.vx_record.specs.Content.{Content};

    ghost Value = { List Content };

    ghost view = { λ a. a.items.items };
}

impl Records {
    pub fn from_vec(items: Vec<Record>) -> Records
        ensures { result ≡ items.items }
    {
        Records { items }
    }

    pub fn into_vec(self) -> Vec<Record>
        ensures { result.items ≡ self }
    {
        self.items
    }

    pub fn as_slice(&self) -> &[Record]
        ensures { result.now ≡ self.now }
    {
        &self.items
    }
}
