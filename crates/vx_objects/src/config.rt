ghost use Rattle.std.specs.Prelude.{◌≡◌, ◌⊎◌, ◌++◌, ◌∷◌, [], length, None, Some, IfOk, IfErr, OnOk, OnErr, IsTrue, map};
ghost use Rattle.std.specs.List.{filter_map};
ghost use Rattle.vx_rules.specs.Rules.{first_broken, is_valid};
ghost use Rattle.vx_objects.specs.Edits.{edited_by, refusal_of};
ghost use Rattle.vx_objects.specs.Parts.{as_group, records_below, records_of, in_kinds, sorted_below};

use crate::change::{edited, target_fault};
use crate::edit::Edit;
use crate::{
    Dco, Disk, Group, Listed, Object, ObjectFault, Plex, Snap, Subdisk, Vol, first_broken, parts,
};
use std::alloc::Global;
use vx_base::OutOfMemory;
use vx_names::Name;

/// The configuration of a disk group. It is valid: no rule is broken.
#[derive(Drop)]
pub struct Config {
    pub group: Name,
    pub version: u32,
    pub disks: Listed<Disk>,
    pub subdisks: Listed<Subdisk>,
    pub plexes: Listed<Plex>,
    pub volumes: Listed<Vol>,
    pub dcos: Listed<Dco>,
    pub snaps: Listed<Snap>,
    ghost valid: { IsTrue (is_valid (records_of group version disks subdisks plexes volumes dcos snaps)) },
}

/// The records behind the group's, by kind.
#[derive(Drop)]
struct Kinds {
    disks: Listed<Disk>,
    subdisks: Listed<Subdisk>,
    plexes: Listed<Plex>,
    volumes: Listed<Vol>,
    dcos: Listed<Dco>,
    snaps: Listed<Snap>,
}

/// The same, lent.
#[derive(Clone, Copy)]
struct View<'a> {
    disks: &'a [Disk],
    subdisks: &'a [Subdisk],
    plexes: &'a [Plex],
    volumes: &'a [Vol],
    dcos: &'a [Dco],
    snaps: &'a [Snap],
}

fn groups(alloc: Global, all: &[Object]) -> Result<Vec<Group>, OutOfMemory>
    ensures { IfOk result (λ found. found.items ≡ filter_map as_group all.now) }
{
    let found = parts::groups(alloc, all)?;
    Ok(found)
}

fn by_kind(alloc: Global, all: &[Object]) -> Result<Kinds, OutOfMemory>
    ensures { IfOk result (λ b. records_below b.disks b.subdisks b.plexes b.volumes b.dcos b.snaps ≡ sorted_below all.now) }
{
    let disks = Listed::from_vec(parts::disks(alloc, all)?);
    let subdisks = Listed::from_vec(parts::subdisks(alloc, all)?);
    let plexes = Listed::from_vec(parts::plexes(alloc, all)?);
    let volumes = Listed::from_vec(parts::volumes(alloc, all)?);
    let dcos = Listed::from_vec(parts::dcos(alloc, all)?);
    let snaps = Listed::from_vec(parts::snaps(alloc, all)?);
    Ok(Kinds {
        disks,
        subdisks,
        plexes,
        volumes,
        dcos,
        snaps,
    })
}

/// The records of the group and those below it.
fn with_groups(alloc: Global, groups: &[Group], below: &Kinds) -> Result<Vec<Object>, OutOfMemory>
    ensures { IfOk result (λ v. v.items ≡ map Object.GroupRecord groups.now ++ records_below below.now.disks below.now.subdisks below.now.plexes below.now.volumes below.now.dcos below.now.snaps) }
{
    let mut out = parts::group_records(alloc, groups)?;
    let view = View {
        disks: below.disks.as_slice(),
        subdisks: below.subdisks.as_slice(),
        plexes: below.plexes.as_slice(),
        volumes: below.volumes.as_slice(),
        dcos: below.dcos.as_slice(),
        snaps: below.snaps.as_slice(),
    };
    put_disks(alloc, &view, &mut out)?;
    Ok(out)
}

fn put_disks(alloc: Global, below: &View, out: &mut Vec<Object>) -> Result<(), OutOfMemory>
    ensures { OnOk result (out.new.items ≡ out.old.items ++ (map Object.DiskRecord below.now.disks.now ++ (map Object.SubdiskRecord below.now.subdisks.now ++ (map Object.PlexRecord below.now.plexes.now ++ (map Object.VolRecord below.now.volumes.now ++ (map Object.DcoRecord below.now.dcos.now ++ map Object.SnapRecord below.now.snaps.now)))))) }
{
    let records = parts::disk_records(alloc, below.disks)?;
    parts::join(&records, out)?;
    put_subdisks(alloc, below, out)
}

fn put_subdisks(alloc: Global, below: &View, out: &mut Vec<Object>) -> Result<(), OutOfMemory>
    ensures { OnOk result (out.new.items ≡ out.old.items ++ (map Object.SubdiskRecord below.now.subdisks.now ++ (map Object.PlexRecord below.now.plexes.now ++ (map Object.VolRecord below.now.volumes.now ++ (map Object.DcoRecord below.now.dcos.now ++ map Object.SnapRecord below.now.snaps.now))))) }
{
    let records = parts::subdisk_records(alloc, below.subdisks)?;
    parts::join(&records, out)?;
    put_plexes(alloc, below, out)
}

fn put_plexes(alloc: Global, below: &View, out: &mut Vec<Object>) -> Result<(), OutOfMemory>
    ensures { OnOk result (out.new.items ≡ out.old.items ++ (map Object.PlexRecord below.now.plexes.now ++ (map Object.VolRecord below.now.volumes.now ++ (map Object.DcoRecord below.now.dcos.now ++ map Object.SnapRecord below.now.snaps.now)))) }
{
    let records = parts::plex_records(alloc, below.plexes)?;
    parts::join(&records, out)?;
    put_volumes(alloc, below, out)
}

fn put_volumes(alloc: Global, below: &View, out: &mut Vec<Object>) -> Result<(), OutOfMemory>
    ensures { OnOk result (out.new.items ≡ out.old.items ++ (map Object.VolRecord below.now.volumes.now ++ (map Object.DcoRecord below.now.dcos.now ++ map Object.SnapRecord below.now.snaps.now))) }
{
    let records = parts::vol_records(alloc, below.volumes)?;
    parts::join(&records, out)?;
    put_dcos(alloc, below, out)
}

fn put_dcos(alloc: Global, below: &View, out: &mut Vec<Object>) -> Result<(), OutOfMemory>
    ensures { OnOk result (out.new.items ≡ out.old.items ++ (map Object.DcoRecord below.now.dcos.now ++ map Object.SnapRecord below.now.snaps.now)) }
{
    let records = parts::dco_records(alloc, below.dcos)?;
    parts::join(&records, out)?;
    put_snaps(alloc, below, out)
}

fn put_snaps(alloc: Global, below: &View, out: &mut Vec<Object>) -> Result<(), OutOfMemory>
    ensures { OnOk result (out.new.items ≡ out.old.items ++ (map Object.SnapRecord below.now.snaps.now)) }
{
    let records = parts::snap_records(alloc, below.snaps)?;
    parts::join(&records, out)?;
    Ok(())
}

impl Config {
    ghost use Rattle.vx_objects.specs.Applied.{IsEdited, IsRefusedBy};
    ghost use Rattle.vx_objects.specs.Config.{objects_of, IsMadeOf, IsRefusedOf};

    /// The configuration with these records, of which each kind keeps its order. The records are judged kind by kind, in
    /// the order in which they are printed, and within a kind in the order given.
    pub fn from_objects(alloc: Global, all: &[Object]) -> Result<Config, ObjectFault>
        ensures made { IfOk result (λ config. IsMadeOf all.now config) }
        ensures refused { IfErr result (IsRefusedOf all.now) }
    {
        let Ok(groups) = groups(alloc, all) else {
            return Err(ObjectFault::OutOfMemory);
        };
        let Ok(below) = by_kind(alloc, all) else {
            return Err(ObjectFault::OutOfMemory);
        };
        let Ok(records) = with_groups(alloc, &groups, &below) else {
            return Err(ObjectFault::OutOfMemory);
        };
        match first_broken(alloc, &records) {
            Err(OutOfMemory) => Err(ObjectFault::OutOfMemory),
            Ok(Some(fault)) => Err(fault),
            Ok(None) => Ok(config_of(&groups, below)),
        }
    }

    /// The records, kind by kind.
    pub fn objects(&self, alloc: Global) -> Result<Vec<Object>, OutOfMemory>
        ensures { IfOk result (λ v. v.items ≡ objects_of self.now) }
    {
        let group = Group {
            name: self.group,
            version: self.version,
        };
        let mut out = parts::group_records(alloc, &[group])?;
        let view = View {
            disks: self.disks.as_slice(),
            subdisks: self.subdisks.as_slice(),
            plexes: self.plexes.as_slice(),
            volumes: self.volumes.as_slice(),
            dcos: self.dcos.as_slice(),
            snaps: self.snaps.as_slice(),
        };
        put_disks(alloc, &view, &mut out)?;
        Ok(out)
    }

    /// Makes all the edits, one after the other, or none of them.
    pub fn apply(&mut self, alloc: Global, edits: &[Edit]) -> Result<(), ObjectFault>
        ensures ok { OnOk result (IsEdited edits.now self.old self.new) }
        ensures same { OnErr result (self.new ≡ self.old) }
        ensures refused { IfErr result (IsRefusedBy edits.now self.old) }
    {
        let Ok(all) = self.objects(alloc) else {
            return Err(ObjectFault::OutOfMemory);
        };
        *self = applied(alloc, edits, all)?;
        Ok(())
    }
}

fn applied(alloc: Global, edits: &[Edit], mut all: Vec<Object>) -> Result<Config, ObjectFault>
    ensures made { IfOk result (λ c. records_of c.group c.version c.disks c.subdisks c.plexes c.volumes c.dcos c.snaps ≡ in_kinds (edited_by edits.now all.items)) }
    ensures refused { IfErr result (λ fault. (fault ≡ ObjectFault.OutOfMemory) ⊎ (refusal_of edits.now all.items ≡ Some fault)) }
{
    for edit in edits {
        if let Some(fault) = target_fault(edit, &all) {
            return Err(fault);
        }
        let Ok(next) = edited(alloc, edit, &all) else {
            return Err(ObjectFault::OutOfMemory);
        };
        all = next;
    }
    Config::from_objects(alloc, &all)
}

fn config_of(groups: &[Group], below: Kinds) -> Config
    requires { first_broken (map Object.GroupRecord groups.now ++ records_below below.disks below.subdisks below.plexes below.volumes below.dcos below.snaps) ≡ None }
    ensures { records_of result.group result.version result.disks result.subdisks result.plexes result.volumes result.dcos result.snaps ≡ map Object.GroupRecord groups.now ++ records_below below.disks below.subdisks below.plexes below.volumes below.dcos below.snaps }
{
    let group = sole(groups);
    Config {
        group: group.name,
        version: group.version,
        disks: below.disks,
        subdisks: below.subdisks,
        plexes: below.plexes,
        volumes: below.volumes,
        dcos: below.dcos,
        snaps: below.snaps,
    }
}

fn sole(groups: &[Group]) -> Group
    requires { length groups.now ≡ 1 }
    ensures { groups.now ≡ result ∷ [] }
{
    groups[0]
}
