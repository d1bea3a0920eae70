ghost use Rattle.std.specs.Prelude.{◌≡◌, ◌≤◌, ℕ, None, false, IfOk};
ghost use Rattle.vx_base.specs.Named.{Word};
ghost use Rattle.vx_base.specs.Counts.{Rose};
ghost use Rattle.vx_files.specs.Known.{AreNumbered};

use crate::FilePiece;
use crate::folder::Folder;
use crate::known::{Known, hold, is_held, release};
use std::alloc::Global;
use std::collections::BTreeMap;
use std::io::ErrorKind;
use std::os::unix::fs::FileExt;
use std::rt::Files;
use vx_base::{BLOCK, OutOfMemory};
use vx_names::Name;
use vx_shelf::{Shelf, ShelfFault, in_order};

/// The files of a folder as devices: each whose name is one and which has at least one whole sector. Of several names of
/// one file the first is the device. Bytes behind the last whole sector are not touched. Where a file cannot be looked
/// at, neither it nor the names are told. A device that could not be made whole is removed again; where that fails too,
/// its file is left as it is.
#[derive(Drop)]
pub struct FileShelf<R> {
    rt: R,
    folder: Folder,
    known: BTreeMap<Name, Known>,
    faults: u64,
    ghost numbered: { AreNumbered known },
}

impl<R: AllocGlobal + Drop> FileShelf<R> {
    ghost use Rattle.vx_files.specs.FileShelf.{held_by_files, counted_by_files, shelf_faults};

    /// A shelf over the folder, of which nothing is held.
    pub fn new(rt: R, folder: &str) -> Result<FileShelf<R>, OutOfMemory>
        ensures held { IfOk result (λ shelf. (name : Word) → held_by_files shelf name ≡ None) }
        ensures counted { IfOk result (λ shelf. (name : Word) → counted_by_files shelf name ≡ 0) }
        ensures faults { IfOk result (λ shelf. shelf_faults shelf ≡ 0) }
    {
        let folder = Folder::new(rt.alloc(), folder)?;
        let known = BTreeMap::new(rt.alloc());
        Ok(FileShelf {
            rt,
            folder,
            known,
            faults: 0,
        })
    }
}

impl<R: Files + AllocGlobal + Clone + Drop + Send> Shelf for FileShelf<R>
where
    R::File: FileExt,
{
    ghost use Rattle.vx_files.specs.FileShelf.{held_by_files, counted_by_files, shelf_faults, held_numbered};

    type P = FilePiece<R>;

    ghost free = { λ _. None };

    ghost held = { held_by_files };

    ghost faults = { shelf_faults };

    ghost counted = { counted_by_files };

    ghost counts_are = { λ _. tt };

    ghost pieces_tell = { λ p q i. false };

    ghost numbers_differ = { λ s. held_numbered s.known s.numbered };

    fn names(&mut self, alloc: Global) -> Result<Vec<Name>, ShelfFault> {
        let Ok(names) = self.folder.names(&self.rt, alloc) else {
            return Err(failed(&mut self.faults));
        };
        match in_order(alloc, names) {
            Ok(sorted) => Ok(sorted),
            Err(_) => Err(ShelfFault::OutOfMemory),
        }
    }

    fn make(&mut self, alloc: Global, name: &Name, sectors: u64) -> Result<(), ShelfFault> {
        if is_held(&self.known, name) {
            return Err(ShelfFault::Exists);
        }
        let Ok(path) = self.folder.path_of(alloc, name) else {
            return Err(ShelfFault::OutOfMemory);
        };
        let bytes = BLOCK as u64 * sectors;
        match self.folder.create(&self.rt, name, path.as_str(), bytes) {
            Ok(()) => Ok(()),
            Err(e) if e.kind() == ErrorKind::AlreadyExists => Err(ShelfFault::Exists),
            Err(_) => Err(failed(&mut self.faults)),
        }
    }

    fn take(&mut self, name: &Name) -> Result<FilePiece<R>, ShelfFault> {
        if is_held(&self.known, name) {
            return Err(ShelfFault::Held);
        }
        let Ok(rt) = self.rt.clone() else {
            return Err(ShelfFault::OutOfMemory);
        };
        let Ok(path) = self.folder.path_of(rt.alloc(), name) else {
            return Err(ShelfFault::OutOfMemory);
        };
        match self.folder.sectors(&rt, path.as_str(), name) {
            Ok(0) => Err(ShelfFault::NoDisk),
            Ok(sectors) => match hold(&mut self.known, name, sectors) {
                Ok(one) => Ok(FilePiece::new(rt, path, one.device, sectors, one.faults)),
                Err(_) => Err(ShelfFault::OutOfMemory),
            },
            Err(_) => Err(failed(&mut self.faults)),
        }
    }

    fn give(&mut self, name: &Name, piece: FilePiece<R>) {
        release(&mut self.known, name, piece.faults());
    }
}

/// Counts a failure.
fn failed(faults: &mut u64) -> ShelfFault
    ensures rose { Rose faults.old faults.new }
    ensures later { faults.old ≤ faults.new }
    ensures answer { result ≡ ShelfFault.Failed }
{
    *faults = faults.saturating_add(1);
    ShelfFault::Failed
}
