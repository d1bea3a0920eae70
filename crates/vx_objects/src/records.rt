//! A configuration from its records, and back.
ghost use Rattle.std.specs.Prelude.{◌≡◌, map, IfOk, IfErr, IsTrue};
ghost use Rattle.std.specs.List.{list_all};
ghost use Rattle.vx_objects.specs.Printed.{AreReadAs, IsReadOf, IsUnreadOf, has_record, record_of, records_in};

use crate::parts::join;
use crate::printed::record_of;
use crate::said::object_of;
use crate::{Config, Object, ObjectFault};
use std::alloc::Global;
use vx_base::OutOfMemory;
use vx_record::{Record, Records};

impl Config {
    /// The configuration that the records say. A number that its field cannot hold breaks a rule. The first rule that
    /// is broken is the refusal, and within a rule the first record that breaks it is named, kind by kind in the order
    /// in which they are printed.
    pub fn read(alloc: Global, records: &[Record]) -> Result<Config, ObjectFault>
        ensures made { IfOk result (IsReadOf records.now) }
        ensures refused { IfErr result (IsUnreadOf records.now) }
    {
        let Ok(all) = objects_of(alloc, records) else {
            return Err(ObjectFault::OutOfMemory);
        };
        Config::from_objects(alloc, &all)
    }

    /// The records, kind by kind.
    pub fn records(&self, alloc: Global) -> Result<Records, OutOfMemory>
        ensures records { IfOk result (λ records. records ≡ records_in self.now) }
        ensures back { IfOk result (λ records. IsReadOf records self.now) }
    {
        let all = self.objects(alloc)?;
        records_of(alloc, &all)
    }
}

/// The objects that the records say; a number that its field cannot hold is the field's greatest.
pub fn objects_of(alloc: Global, records: &[Record]) -> Result<Vec<Object>, OutOfMemory>
    ensures { IfOk result (λ all. AreReadAs records.now all.items) }
{
    let mut all = Vec::new(alloc);
    for entry in records {
        join(&[object_of(entry)], &mut all)?;
    }
    Ok(all)
}

/// The records that the objects are printed as.
pub fn records_of(alloc: Global, all: &[Object]) -> Result<Records, OutOfMemory>
    requires { IsTrue (list_all has_record all.now) }
    ensures { IfOk result (λ records. records ≡ map record_of all.now) }
{
    let mut records = Vec::new(alloc);
    for object in all {
        records.push(record_of(alloc, object)?)?;
    }
    Ok(Records::from_vec(records))
}
