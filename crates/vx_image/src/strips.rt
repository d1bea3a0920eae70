ghost use Rattle.std.specs.Prelude.{◌≡◌, ◌==◌, ◌&&◌, ◌<◌, ◌+◌, ◌^◌, ℕ, [], ◌∷◌, length, Some, IfOk, OnOk};
ghost use Rattle.std.specs.BTreeMap.{get};
ghost use Rattle.std.specs.List.{find};
ghost use Rattle.std.specs.Option.{option_or};
ghost use Rattle.std.specs.Ordering.{nat_cmp};
ghost use Rattle.vx_config_parts.specs.declared.subdisk.Subdisk.{Subdisk};
ghost use Rattle.vx_base.specs.Named.{Word};
ghost use Rattle.vx_rules.specs.Columns.{is_in_column};
ghost use Rattle.vx_image.specs.Lies.{slot_of, strip_of, strips_from};

use std::alloc::Global;
use std::collections::BTreeMap;
use vx_base::OutOfMemory;
use vx_config_parts::{refers, same};
use vx_layout::Strip;
use vx_names::Name;
use vx_objects::{Config, Disk, Subdisk};

/// The pieces of a column of a plex, by their first sectors in it.
pub(crate) fn pieces_of(
    alloc: Global,
    subdisks: &[Subdisk],
    plex: &Name,
    col: u32,
) -> Result<BTreeMap<u64, Subdisk>, OutOfMemory>
    ensures { IfOk result (λ pieces. (at : ℕ) → get nat_cmp pieces at ≡ find (λ s. is_in_column plex.now col s && s.at == at) subdisks.now) }
{
    let mut pieces = BTreeMap::new(alloc);
    for subdisk in subdisks {
        put_piece(&mut pieces, subdisk, plex, col)?;
    }
    Ok(pieces)
}

/// Puts the subdisk beside those that are there, if it is a piece of the column and none begins with it.
fn put_piece(
    pieces: &mut BTreeMap<u64, Subdisk>,
    subdisk: &Subdisk,
    plex: &Name,
    col: u32,
) -> Result<(), OutOfMemory>
    ensures { OnOk result ((at : ℕ) → get nat_cmp pieces.new at ≡ option_or (get nat_cmp pieces.old at) (find (λ s. is_in_column plex.now col s && s.at == at) (subdisk.now ∷ []))) }
{
    if is_in_column(subdisk, plex, col) && !pieces.contains_key(&subdisk.at) {
        pieces.insert(subdisk.at, *subdisk)?;
    }
    Ok(())
}

fn is_in_column(subdisk: &Subdisk, plex: &Name, col: u32) -> bool
    ensures { result ≡ is_in_column plex.now col subdisk.now }
{
    refers(&subdisk.plex, plex) && subdisk.col == col
}

/// The strips of a column, from the piece that begins it on.
pub(crate) fn strips_of(
    alloc: Global,
    config: &Config,
    pieces: &BTreeMap<u64, Subdisk>,
) -> Result<Vec<Strip>, OutOfMemory>
    requires { (at : ℕ) (s : Subdisk) → get nat_cmp pieces.now at ≡ Some s → s.at + s.len < 2 ^ 64 }
    ensures { IfOk result (λ strips. (name : Word) (col : ℕ) → ((at : ℕ) → get nat_cmp pieces.now at ≡ find (λ s. is_in_column name col s && s.at == at) config.now.subdisks) → strips.items ≡ strips_from (length config.now.subdisks) config.now name col 0) }
{
    let mut strips = Vec::new(alloc);
    let mut at = 0;
    for _ in 0..config.subdisks.as_slice().len() {
        match pieces.get(&at) {
            Some(piece) => {
                strips.push(strip_of(config.disks.as_slice(), piece))?;
                at = piece.at + piece.len;
            }
            None => return Ok(strips),
        }
    }
    Ok(strips)
}

fn strip_of(disks: &[Disk], piece: &Subdisk) -> Strip
    ensures { result ≡ strip_of disks.now piece.now }
{
    Strip {
        disk: slot_of(disks, &piece.disk),
        start: piece.off,
        count: piece.len,
    }
}

/// The slot of a disk, by its name; where there is none, a slot that no disk has.
pub fn slot_of(disks: &[Disk], name: &Name) -> u8
    ensures { result ≡ slot_of disks.now name.now }
{
    for disk in disks {
        if same(&disk.name, name) {
            return disk.slot;
        }
    }
    32
}
