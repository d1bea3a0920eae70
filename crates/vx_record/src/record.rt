use crate::kind::Kind;
use crate::lists::Attrs;
use std::marker::Model;
use vx_names::Name;

/// A record: a kind, a name, and the attributes of the kind in their order.
#[derive(Debug, Drop)]
pub struct Record {
    pub kind: Kind,
    pub name: Name,
    pub attrs: Attrs,
}

impl Model for Record {
    ghost use Rattle.vx_record.specs.Content.{Content, HasForm};

    ghost Value = { Content };

    ghost view = { λ r. record { kind = r.kind; name = r.name; attrs = r.attrs } };

    ghost invariant = { λ r. HasForm r.kind r.attrs };
}
