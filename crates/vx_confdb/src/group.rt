ghost use Rattle.std.specs.Prelude.{◌≡◌, ◌+◌, ◌-◌, ◌<◌, ◌≤◌, ◌^◌, List, length, map, None, Some, Err, OnOk, OnErr, IfSome, is_some, ℕ, vec_len, vec_capacity, ◌++◌, ◌∷◌, []};
ghost use Rattle.vx_copies.specs.Lists.{Each};
ghost use Rattle.vx_mask.specs.Mask.{has};
ghost use Rattle.vx_copies.specs.Disks.{disk_seen, CommitGoes, good_count, is_good_slot, good_mask};
ghost use Rattle.vx_copies.specs.Config.{GivesOldOrNew};
ghost use Rattle.vx_copies.specs.Written.{Recorded, IsDone, IsQuiet, WritesJust, sectors_of};
ghost use Rattle.vx_copies.specs.Chain.{Copy, IsSound};
ghost use Rattle.vx_confdb.specs.Faults.{fault_of};
ghost use Rattle.vx_confdb.specs.Groups.{members, IsGroup, IsAlive, IsWritten, CommitGives};
ghost use Rattle.vx_confdb.specs.Prepare.{IsFresh, OffersNone};
ghost use Rattle.vx_confdb.specs.Add.{AddGives, IsJoined};
ghost use Rattle.vx_confdb.specs.Enlisted.{AddWrites};
ghost use Rattle.vx_confdb.specs.Texts.{text_of};

use crate::fault::{GroupFault, fault_of};
use crate::joining::{Prepared, join_one};
use crate::text::Text;
use crate::writing::write_all;
use std::alloc::Global;
use std::mem;
use vx_copies::{Disk, Lost, good_slots};
use vx_header::MOST_TEXT;
use vx_names::Name;
use vx_piece::Piece;

/// A disk group whose configuration copies are disk_seen.
#[derive(Drop)]
pub struct Group<P> {
    name: Name,
    disks: Vec<Disk<P>>,
    sequence: u64,
    text: Text,
    lost: Option<Lost>,
}

impl<P: Piece> Group<P> {
    /// The group of these disks, in the order of their slots, which carry the text.
    pub fn of(name: Name, disks: Vec<Disk<P>>, sequence: u64, text: Text) -> Group<P>
        ensures { result ≡ record { name = name; disks = disks; sequence = sequence; text = text; lost = None } }
    {
        Group {
            name,
            disks,
            sequence,
            text,
            lost: None,
        }
    }

    /// Writes a text as the group's configuration to all good disks. A disk that fails is not good any more, and the
    /// commit starts again on the rest. Wherever it is stopped the disks give the old text or the new one. Once no disk
    /// is good, or the power is gone, every later commit answers the same.
    pub fn commit(&mut self, alloc: Global, text: &[u8]) -> Result<(), GroupFault>
        requires group { IsGroup P.seen self.old }
        requires low { self.old.sequence < 2 ^ 64 - 64 }
        ensures group { IsGroup P.seen self.new }
        ensures ends { CommitGives P.seen result text.now self.old self.new }
        ensures too_long { 522240 < length text.now → result ≡ Err (GroupFault.TooLong (length text.now)) }
        ensures again { length text.now ≤ 522240 → IfSome self.old.lost (λ lost. result ≡ Err (fault_of lost)) }
        ensures text { OnErr result (self.new.text ≡ self.old.text) }
        ensures recorded { Recorded (self.old.sequence + 1) self.new.sequence text.now (members P.seen self.old) (members P.seen self.new) }
        ensures done { OnOk result (IsDone (length self.old.disks.items) self.new.sequence text.now (members P.seen self.new)) }
        ensures exact { OnOk result (Each IsQuiet (members P.seen self.old) (members P.seen self.new) → Each (WritesJust (sectors_of text.now)) (members P.seen self.old) (members P.seen self.new)) }
        ensures old_or_new { self.old.lost ≡ None → GivesOldOrNew self.old.name (self.old.sequence + 1) self.new.sequence text.now (members P.seen self.old) (members P.seen self.new) }
        ensures sound { (missing : ℕ) (others : List Copy) → IsSound self.old.name missing others self.old.sequence (length self.old.disks.items) (members P.seen self.old) → IsSound self.old.name missing others self.new.sequence (length self.old.disks.items) (members P.seen self.new) }
    {
        if text.len() > MOST_TEXT as usize {
            return Err(GroupFault::TooLong(text.len() as u64));
        }
        if let Some(lost) = self.lost {
            return Err(fault_of(lost));
        }
        let Ok(text) = Text::of(alloc, text) else {
            return Err(GroupFault::OutOfMemory);
        };
        let carriers = self.disks.len();
        self.write(carriers, text)
    }

    /// Takes a disk into the group, and writes the text to it and to all good disks. The new disk comes last, and it does not
    /// carry the text alone: where no other disk is good any more, the group is lost. A new disk that fails is a member, and
    /// not good. The disk is given back where it was not taken.
    pub fn add(
        &mut self,
        alloc: Global,
        disk: Disk<P>,
        text: &[u8],
    ) -> Result<(), (GroupFault, Option<Disk<P>>)>
        requires group { IsGroup P.seen self.old }
        requires low { self.old.sequence < 2 ^ 64 - 64 }
        requires room { length self.old.disks.items < 32 }
        requires fresh { IsFresh P.seen self.old.name disk }
        requires none { OffersNone self.old.name (disk_seen P.seen disk) }
        ensures group { IsGroup P.seen self.new }
        ensures ends { AddGives P.seen result text.now disk self.old self.new }
        ensures writes { AddWrites P.seen result text.now disk self.old self.new }
        ensures text { OnErr result (self.new.text ≡ self.old.text) }
        ensures too_long { 522240 < length text.now → result ≡ Err (GroupFault.TooLong (length text.now), Some disk) }
        ensures again { length text.now ≤ 522240 → IfSome self.old.lost (λ lost. result ≡ Err (fault_of lost, Some disk)) }
    {
        if text.len() > MOST_TEXT as usize {
            return Err((GroupFault::TooLong(text.len() as u64), Some(disk)));
        }
        if let Some(lost) = self.lost {
            return Err((fault_of(lost), Some(disk)));
        }
        let Ok(text) = Text::of(alloc, text) else {
            return Err((GroupFault::OutOfMemory, Some(disk)));
        };
        if self.disks.reserve(1).is_err() {
            return Err((GroupFault::OutOfMemory, Some(disk)));
        }
        let carriers = self.disks.len();
        let mut disk = disk;
        let joined = join_one(&mut disk, &self.name);
        if let Some(disk) = put_last(&mut self.disks, disk) {
            return Err((GroupFault::OutOfMemory, Some(disk)));
        }
        match self.write_joined(joined, carriers, text) {
            Ok(_) => Ok(()),
            Err(fault) => Err((fault, None)),
        }
    }

    /// Writes the text, if the last disk has joined.
    fn write_joined(
        &mut self,
        joined: Prepared,
        carriers: usize,
        text: Text,
    ) -> Result<(), GroupFault>
        requires going { self.old.lost ≡ None }
        requires alive { IsJoined P.seen joined self.old }
        requires low { self.old.sequence < 2 ^ 64 - 64 }
        requires carriers { carriers ≤ length self.old.disks.items }
        ensures group { IsGroup P.seen self.new }
        ensures written { IsWritten P.seen result carriers (text_of text) self.old self.new }
        ensures text { OnErr result (self.new.text ≡ self.old.text) }
        ensures sound { (missing : ℕ) (others : List Copy) → IsSound self.old.name missing others self.old.sequence carriers (members P.seen self.old) → IsSound self.old.name missing others self.new.sequence carriers (members P.seen self.new) }
        ensures all { OnOk result ((missing : ℕ) (others : List Copy) → IsSound self.old.name missing others self.old.sequence carriers (members P.seen self.old) → IsSound self.old.name missing others self.new.sequence (length self.old.disks.items) (members P.seen self.new)) }
        ensures cut { joined ≡ Prepared.Cut → result ≡ Err GroupFault.PowerLost }
        ensures stays { joined ≡ Prepared.Cut → self.new.disks.items ≡ self.old.disks.items }
    {
        match joined {
            Prepared::Done => self.write(carriers, text),
            Prepared::Cut => {
                self.lost = Some(Lost::PowerLost);
                Err(GroupFault::PowerLost)
            }
        }
    }

    /// Writes the text, as long as one of the first `carriers` disks is good.
    fn write(&mut self, carriers: usize, text: Text) -> Result<(), GroupFault>
        requires going { self.old.lost ≡ None }
        requires alive { IsAlive P.seen self.old }
        requires low { self.old.sequence < 2 ^ 64 - 64 }
        requires carriers { carriers ≤ length self.old.disks.items }
        ensures group { IsGroup P.seen self.new }
        ensures written { IsWritten P.seen result carriers (text_of text) self.old self.new }
        ensures text { OnErr result (self.new.text ≡ self.old.text) }
        ensures sound { (missing : ℕ) (others : List Copy) → IsSound self.old.name missing others self.old.sequence carriers (members P.seen self.old) → IsSound self.old.name missing others self.new.sequence carriers (members P.seen self.new) }
        ensures all { OnOk result ((missing : ℕ) (others : List Copy) → IsSound self.old.name missing others self.old.sequence carriers (members P.seen self.old) → IsSound self.old.name missing others self.new.sequence (length self.old.disks.items) (members P.seen self.new)) }
    {
        match write_all(&mut self.disks, carriers, &mut self.sequence, &text) {
            Ok(_) => {
                self.text = text;
                Ok(())
            }
            Err(lost) => {
                self.lost = Some(lost);
                Err(fault_of(lost))
            }
        }
    }

    pub fn name(&self) -> &Name
        ensures { result.now ≡ self.now.name }
    {
        &self.name
    }

    /// The disks, in the order in which they came.
    pub fn disks(&self) -> &[Disk<P>]
        ensures { result.now ≡ self.now.disks.items }
    {
        &self.disks
    }

    /// The slots of the good disks, as a mask: the one that each good disk's toggle has after a commit.
    pub fn good(&self) -> u32
        requires { IsGroup P.seen self.now }
        ensures names { (slot : ℕ) → has result slot ≡ is_good_slot slot (members P.seen self.now) }
        ensures just { result ≡ good_mask (members P.seen self.now) }
    {
        good_slots(&self.disks)
    }

    /// Whether a commit was lost, so that the group has to be imported again.
    pub fn is_lost(&self) -> bool
        ensures { result ≡ is_some self.now.lost }
    {
        self.lost.is_some()
    }

    /// The configuration's text.
    pub fn text(&self) -> &[u8]
        ensures { result.now ≡ text_of self.now.text }
    {
        self.text.text()
    }

    /// The number of the newest commit.
    pub fn sequence(&self) -> u64
        ensures { result ≡ self.now.sequence }
    {
        self.sequence
    }

    /// Takes other disks in the place of its own, which are given back.
    pub fn swap_disks(&mut self, disks: Vec<Disk<P>>) -> Vec<Disk<P>>
        ensures old { result ≡ self.old.disks }
        ensures new { self.new ≡ record self.old { disks = disks } }
    {
        mem::replace(&mut self.disks, disks)
    }

    /// Gives the disks back, without a device call.
    pub fn deport(self) -> Vec<Disk<P>>
        ensures { result.items ≡ self.disks.items }
    {
        self.disks
    }
}

/// Appends a disk, where there is room for it.
fn put_last<P: Piece>(disks: &mut Vec<Disk<P>>, disk: Disk<P>) -> Option<Disk<P>>
    requires { vec_len disks.old < vec_capacity disks.old }
    ensures put { disks.new.items ≡ disks.old.items ++ disk ∷ [] }
    ensures none { result ≡ None }
{
    match disks.push(disk) {
        Ok(_) => None,
        Err(failed) => Some(failed.value),
    }
}
