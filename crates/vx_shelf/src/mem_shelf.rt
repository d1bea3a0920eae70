ghost use Rattle.std.specs.Prelude.{◌≡◌, ◌↔◌, ◌<◌, ◌≤◌, ◌^◌, ◌++◌, IsTrue, IsNone, true, IfSome, IfOk, OnOk, OnErr, MatchOption, length, map};
ghost use Rattle.std.specs.List.{list_all, list_any, position};
ghost use Rattle.vx_base.specs.Named.{Word};
ghost use Rattle.vx_piece.specs.Seen.{Seen};
ghost use Rattle.vx_piece.specs.MemPiece.{mem_seen};
ghost use Rattle.vx_shelf.specs.Shelf.{IsBlank};
ghost use Rattle.vx_shelf.specs.Listed.{IsRising, is_listed};
ghost use Rattle.vx_shelf.specs.MemShelf.{is_under, is_empty, is_whole_or_left, free_by, held_by, free_in, held_in, counted_in, is_at_rest, is_whole, are_apart, fits, are_devices, are_numbered, is_numbered_below, HasLeft, IsAppended, IsFirst, IsMissing};

use crate::names::in_order;
use crate::{Shelf, ShelfFault};
use std::alloc::{AllocError, Global};
use std::mem;
use vx_base::{BLOCK, OutOfMemory};
use vx_names::Name;
use vx_piece::{MemPiece, Piece};

/// Devices in memory. Its calls never fail by themselves.
#[derive(Drop)]
pub struct MemShelf {
    places: Vec<(Name, MemPiece)>,
    /// The number of the next device that is made.
    next: u64,
    ghost at_rest: { IsTrue (list_all is_at_rest places.items) },
    ghost below: { IsTrue (list_all (is_numbered_below next) places.items) },
    ghost numbered: { IsTrue (are_numbered places.items) },
}

impl MemShelf {
    ghost use Rattle.vx_shelf.specs.OnShelf.{device_on, free_on, held_on, counted_on};

    /// A shelf with these devices, which nobody holds. `accepts` tells whether they can stand on one.
    pub fn new(devices: Vec<(Name, MemPiece)>) -> MemShelf
        requires { IsTrue (are_devices devices.items) }
        ensures free { free_on result ≡ Some (free_in devices.items) }
        ensures held { (name : Word) → held_on result name ≡ None }
        ensures counted { counted_on result ≡ counted_in devices.items }
    {
        let next = number_above(devices.as_slice());
        MemShelf {
            places: devices,
            next,
        }
    }

    /// Whether these are whole devices with a sector at least, no two with one name or one number.
    pub fn accepts(devices: &[(Name, MemPiece)]) -> bool
        ensures { result ≡ are_devices devices.now }
    {
        let mut rest = devices;
        while let [first, behind @ ..] = rest {
            if !fits(first, behind) {
                return false;
            }
            rest = behind;
        }
        true
    }

    /// The device of that name, where nobody holds it.
    pub fn device(&self, name: &Name) -> Option<&MemPiece>
        ensures { MatchOption result (device_on self.now name.now ≡ None) (λ piece. device_on self.now name.now ≡ Some (mem_seen piece.now)) }
    {
        match find(self.places.as_slice(), name) {
            None => None,
            Some(i) => {
                let place = &self.places[i];
                if is_empty(&place.1) {
                    return None;
                }
                Some(&place.1)
            }
        }
    }
}

impl Shelf for MemShelf {
    ghost use Rattle.vx_shelf.specs.OnShelf.{free_on, held_on, counted_on, free_counted, held_numbered};

    type P = MemPiece;

    ghost free = { free_on };

    ghost held = { held_on };

    ghost faults = { λ _. 0 };

    ghost counted = { counted_on };

    ghost counts_are = { λ s name. free_counted s.places.items name };

    ghost pieces_tell = { λ p q i. true };

    ghost numbers_differ = { λ s. held_numbered s.places.items s.numbered };

    fn names(&mut self, alloc: Global) -> Result<Vec<Name>, ShelfFault> {
        match names_of(alloc, self.places.as_slice()) {
            Ok(names) => Ok(names),
            Err(_) => Err(ShelfFault::OutOfMemory),
        }
    }

    fn make(&mut self, alloc: Global, name: &Name, sectors: u64) -> Result<(), ShelfFault> {
        match find(self.places.as_slice(), name) {
            Some(_) => Err(ShelfFault::Exists),
            None => match append(&mut self.places, self.next, alloc, *name, sectors) {
                Ok(()) => {
                    self.next += 1;
                    Ok(())
                }
                Err(OutOfMemory) => Err(ShelfFault::OutOfMemory),
            },
        }
    }

    fn take(&mut self, name: &Name) -> Result<MemPiece, ShelfFault> {
        match find(self.places.as_slice(), name) {
            None => Err(ShelfFault::NoDisk),
            Some(i) => {
                let alloc = *self.places.allocator();
                let place = &mut self.places[i];
                match take_out(alloc, &mut place.1) {
                    None => Err(ShelfFault::Held),
                    Some(piece) => Ok(piece),
                }
            }
        }
    }

    fn give(&mut self, name: &Name, piece: MemPiece) {
        match find(self.places.as_slice(), name) {
            None => {}
            Some(i) => {
                let place = &mut self.places[i];
                place.1 = piece;
            }
        }
    }
}

/// The names of the devices, in the order of their bytes.
fn names_of(alloc: Global, places: &[(Name, MemPiece)]) -> Result<Vec<Name>, OutOfMemory>
    ensures sorted { IfOk result (λ names. IsRising names.items) }
    ensures all { IfOk result (λ names. (name : Word) → is_listed name names.items ≡ list_any (is_under name) places.now) }
{
    let names = all_names(alloc, places)?;
    let sorted = in_order(alloc, names)?;
    Ok(sorted)
}

fn all_names(alloc: Global, places: &[(Name, MemPiece)]) -> Result<Vec<Name>, AllocError>
    ensures { IfOk result (λ names. names.items ≡ map (λ p. p.0) places.now) }
{
    places.iter().map(|place| place.0).collect(alloc)
}

/// A number that is above those of all devices.
fn number_above(places: &[(Name, MemPiece)]) -> u64
    ensures { IsTrue (list_all (is_numbered_below result) places.now) }
{
    let mut next = 0;
    for place in places {
        next = next.max(place.1.device() as u64 + 1);
    }
    next
}

/// Appends a device of zeros with that number. Where no device can have it, there is no memory.
fn append(
    places: &mut Vec<(Name, MemPiece)>,
    number: u64,
    alloc: Global,
    name: Name,
    sectors: u64,
) -> Result<(), OutOfMemory>
    requires some { 1 ≤ sectors }
    requires few { sectors ≤ 2 ^ 40 }
    ensures more { OnOk result (IsAppended name sectors number places.old.items places.new.items) }
    ensures small { OnOk result (number < 2 ^ 32) }
    ensures stays { OnErr result (places.new.items ≡ places.old.items) }
{
    let Ok(number) = u32::try_from(number) else {
        return Err(OutOfMemory);
    };
    let piece = blank(alloc, number, sectors)?;
    places.push((name, piece))?;
    Ok(())
}

/// A device of so many sectors of zeros.
fn blank(alloc: Global, number: u32, sectors: u64) -> Result<MemPiece, OutOfMemory>
    requires some { 1 ≤ sectors }
    requires few { sectors ≤ 2 ^ 40 }
    ensures zeros { IfOk result (λ piece. IsBlank sectors (mem_seen piece)) }
    ensures numbered { IfOk result (λ piece. (mem_seen piece).device ≡ number) }
{
    let bytes = vec![in alloc; 0u8; BLOCK * sectors as usize]?;
    match MemPiece::new(number, bytes, Vec::new(alloc)) {
        Some(piece) => Ok(piece),
        None => unreachable!(),
    }
}

/// The place of the first device of that name.
fn find(places: &[(Name, MemPiece)], name: &Name) -> Option<usize>
    ensures { MatchOption result (IsMissing name.now places.now) (λ i. (i < length places.now) × IsFirst name.now places.now i) }
{
    position(places, name)
}

fn position(places: &[(Name, MemPiece)], name: &Name) -> Option<usize>
    ensures { result ≡ position (is_under name.now) places.now }
{
    places
        .iter()
        .position(|place| place.0.as_bytes() == name.as_bytes())
}

/// Takes the device, where it is there, and leaves the empty run behind its last sector.
fn take_out(alloc: Global, device: &mut MemPiece) -> Option<MemPiece>
    ensures none { IsNone result ↔ IsTrue (is_empty device.old) }
    ensures stays { IsNone result → device.new ≡ device.old }
    ensures some { IfSome result (λ piece. piece ≡ device.old) }
    ensures left { IfSome result (λ piece. HasLeft piece device.new) }
    ensures rest { IsTrue (is_whole_or_left device.old) → IsTrue (is_whole_or_left device.new) }
    ensures same { (mem_seen device.new).device ≡ (mem_seen device.old).device }
    ensures counted { (mem_seen device.new).faults ≡ (mem_seen device.old).faults }
{
    if is_empty(device) {
        return None;
    }
    let left = device.end(alloc);
    Some(mem::replace(device, left))
}

/// A whole device, whose name and number no other has.
fn fits(device: &(Name, MemPiece), others: &[(Name, MemPiece)]) -> bool
    ensures { result ≡ fits device.now others.now }
{
    is_whole(&device.1) && is_apart(device, others)
}

fn is_apart(device: &(Name, MemPiece), others: &[(Name, MemPiece)]) -> bool
    ensures { result ≡ list_all (are_apart device.now) others.now }
{
    others.iter().all(|other| are_apart(device, other))
}

fn is_empty(piece: &MemPiece) -> bool
    ensures { result ≡ is_empty piece.now }
{
    piece.sectors() == 0
}

fn is_whole(piece: &MemPiece) -> bool
    ensures { result ≡ is_whole piece.now }
{
    piece.start() == 0 && !is_empty(piece)
}

fn are_apart(one: &(Name, MemPiece), other: &(Name, MemPiece)) -> bool
    ensures { result ≡ are_apart one.now other.now }
{
    one.0.as_bytes() != other.0.as_bytes() && one.1.device() != other.1.device()
}
