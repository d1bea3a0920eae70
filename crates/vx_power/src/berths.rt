//! The berths of a shelf: one for each name that a device may come back under.
ghost use Rattle.std.specs.Prelude.{◌≡◌, ◌<◌, true, false, None, OnOk, OnErr, IfOk, MatchOption, length, map};
ghost use Rattle.std.specs.List.{position};
ghost use Rattle.vx_base.specs.Named.{Word, put};
ghost use Rattle.vx_power.specs.Berths.{is_at, has_berth, gone_in, is_gone, IsFirst, empty_berth};

use crate::board::Wire;
use std::alloc::{AllocError, Global};
use vx_base::OutOfMemory;
use vx_names::Name;

/// A name, and the wire on which its device came back without power.
pub(crate) type Berth = (Name, Option<Wire>);

/// A berth for each of the names.
pub(crate) fn berths_of(alloc: Global, names: &[Name]) -> Result<Vec<Berth>, AllocError>
    ensures { IfOk result (λ berths. berths.items ≡ map empty_berth names.now) }
{
    names.iter().map(|name| (*name, None)).collect(alloc)
}

/// The first berth of the name.
fn find(berths: &[Berth], name: &Name) -> Option<usize>
    ensures { MatchOption result (has_berth berths.now name.now ≡ false) (λ i. (i < length berths.now) × IsFirst name.now berths.now i) }
{
    position(berths, name)
}

fn position(berths: &[Berth], name: &Name) -> Option<usize>
    ensures { result ≡ position (is_at name.now) berths.now }
{
    berths
        .iter()
        .position(|berth| berth.0.as_bytes() == name.as_bytes())
}

/// Whether the device of the name came back without power.
pub(crate) fn is_gone(berths: &[Berth], name: &Name) -> bool
    ensures { result ≡ is_gone berths.now name.now }
{
    match find(berths, name) {
        None => false,
        Some(i) => berths[i].1.is_some(),
    }
}

/// Makes a berth for the name, where it has none.
pub(crate) fn add(berths: &mut Vec<Berth>, name: &Name) -> Result<(), OutOfMemory>
    ensures here { OnOk result (has_berth berths.new.items name.now ≡ true) }
    ensures refused { OnErr result (has_berth berths.old.items name.now ≡ false) }
    ensures gone { (other : Word) → gone_in berths.new.items other ≡ gone_in berths.old.items other }
    ensures more { (other : Word) → has_berth berths.old.items other ≡ true → has_berth berths.new.items other ≡ true }
{
    match find(berths.as_slice(), name) {
        Some(_) => Ok(()),
        None => {
            berths.push((*name, None))?;
            Ok(())
        }
    }
}

/// Keeps the wire in the berth of the name.
pub(crate) fn keep(berths: &mut Vec<Berth>, name: &Name, wire: Option<Wire>)
    requires { has_berth berths.old.items name.now ≡ true }
    ensures gone { (other : Word) → gone_in berths.new.items other ≡ put name.now wire (gone_in berths.old.items) other }
    ensures same { (other : Word) → has_berth berths.new.items other ≡ has_berth berths.old.items other }
{
    match find(berths.as_slice(), name) {
        None => unreachable!(),
        Some(i) => {
            let berth = &mut berths[i];
            berth.1 = wire;
        }
    }
}

/// Lets all wires go.
pub(crate) fn clear(berths: &mut Vec<Berth>)
    ensures gone { (name : Word) → gone_in berths.new.items name ≡ None }
    ensures same { (name : Word) → has_berth berths.new.items name ≡ has_berth berths.old.items name }
{
    for i in 0..berths.len() {
        let berth = &mut berths[i];
        berth.1 = None;
    }
}
