ghost use Rattle.std.specs.Prelude.{◌≡◌, ◌+◌, ◌*◌, ◌<◌, ◌^◌};
ghost use Rattle.vx_base.specs.Counts.{later_count};

use std::alloc::Global;
use std::fs::{File, OpenFile, OpenOptions};
use std::os::unix::fs::FileExt;
use std::rt::Files;
use std::{fs, io};
use vx_base::{BLOCK, OutOfMemory};
use vx_piece::{Piece, PieceFault};

/// A run of sectors of a device that is a file. It opens the file at each call, and tells nothing of what it holds.
#[derive(Drop)]
pub struct FilePiece<R> {
    rt: R,
    path: String,
    device: u32,
    start: u64,
    sectors: u64,
    faults: u64,
    writes: u64,
    reads: u64,
    stop: Option<u64>,
    pub ghost on_device: { 512 * (start + sectors) < 2 ^ 64 },
    ghost counted: { (faults < 2 ^ 64) × (writes < 2 ^ 64) × (reads < 2 ^ 64) },
}

impl<R> FilePiece<R> {
    ghost use Rattle.vx_files.specs.FilePiece.{file_seen, new_file};

    /// The whole device: so many sectors of the file, whose calls have failed so often.
    pub fn new(rt: R, path: String, device: u32, sectors: u64, faults: u64) -> FilePiece<R>
        requires { 512 * sectors < 2 ^ 64 }
        ensures { file_seen result ≡ new_file device sectors faults }
    {
        FilePiece {
            rt,
            path,
            device,
            start: 0,
            sectors,
            faults,
            writes: 0,
            reads: 0,
            stop: None,
        }
    }

    /// How often its calls have failed.
    pub fn faults(&self) -> u64
        ensures { result ≡ (file_seen self.now).faults }
    {
        self.faults
    }
}

impl<R: Files + AllocGlobal + Clone + Drop + Send> Piece for FilePiece<R>
where
    R::File: FileExt,
{
    ghost use Rattle.vx_files.specs.FilePiece.{file_seen};

    ghost seen = { file_seen };

    ghost ends = { λ _. tt };

    ghost counts = { λ p. record { faults = p.counted.0; writes = p.counted.1; reads = p.counted.2 } };

    fn device(&self) -> u32 {
        self.device
    }

    fn start(&self) -> u64 {
        self.start
    }

    fn sectors(&self) -> u64 {
        self.sectors
    }

    fn read(&mut self, at: u64, into: &mut [u8]) -> Result<(), PieceFault> {
        let count = (into.len() / BLOCK) as u64;
        self.reads = self.reads.saturating_add(count);
        let first = BLOCK as u64 * (self.start + at);
        if read_at(&self.rt, self.path.as_str(), first, into).is_err() {
            return Err(failed(&mut self.faults));
        }
        Ok(())
    }

    fn write(&mut self, at: u64, from: &[u8]) -> Result<(), PieceFault> {
        let count = (from.len() / BLOCK) as u64;
        self.writes = self.writes.saturating_add(count);
        let first = BLOCK as u64 * (self.start + at);
        if write_at(&self.rt, self.path.as_str(), first, from).is_err() {
            return Err(failed(&mut self.faults));
        }
        Ok(())
    }

    fn split(
        mut self,
        _alloc: Global,
        at: u64,
    ) -> Result<(FilePiece<R>, FilePiece<R>), (FilePiece<R>, OutOfMemory)> {
        let Ok(rt) = self.rt.clone() else {
            return Err((self, OutOfMemory));
        };
        let Ok(path) = self.path.clone() else {
            return Err((self, OutOfMemory));
        };
        let second = FilePiece {
            rt,
            path,
            device: self.device,
            start: self.start + at,
            sectors: self.sectors - at,
            faults: 0,
            writes: 0,
            reads: 0,
            stop: self.stop,
        };
        self.sectors = at;
        Ok((self, second))
    }

    fn join(
        mut self,
        _alloc: Global,
        next: FilePiece<R>,
    ) -> Result<FilePiece<R>, (FilePiece<R>, FilePiece<R>, OutOfMemory)> {
        self.sectors += next.sectors;
        self.faults = self.faults.saturating_add(next.faults);
        self.writes = self.writes.saturating_add(next.writes);
        self.reads = self.reads.saturating_add(next.reads);
        Ok(self)
    }

    fn arm(&mut self, stop: Option<u64>) {
        self.stop = stop;
    }
}

/// Counts a failure.
fn failed(faults: &mut u64) -> PieceFault
    ensures counted { faults.new ≡ later_count faults.old 1 }
    ensures answer { result ≡ PieceFault.Failed }
{
    *faults = faults.saturating_add(1);
    PieceFault::Failed
}

/// Reads the file's bytes from there on.
fn read_at<R: Files>(rt: &R, path: &str, first: u64, into: &mut [u8]) -> io::Result<()>
where
    R::File: FileExt,
{
    open_to_read(rt, path)?.read_exact_at(into, first)
}

/// Writes the file's bytes from there on, and answers once they are on the medium.
fn write_at<R: Files>(rt: &R, path: &str, first: u64, from: &[u8]) -> io::Result<()>
where
    R::File: FileExt,
{
    let file = open(rt, path)?;
    file.write_all_at(from, first)?;
    file.sync_data()
}

/// Opens the file to read and to write. So opened, a pipe that stands in its place lets nobody wait.
fn open<R: Files>(rt: &R, path: &str) -> io::Result<R::File> {
    OpenOptions::new().read(true).write(true).open(rt, path)
}

/// The same; a file that may only be read is opened to be read.
fn open_to_read<R: Files>(rt: &R, path: &str) -> io::Result<R::File> {
    match open(rt, path) {
        Ok(file) => Ok(file),
        Err(e) => {
            if !fs::metadata(rt, path)?.is_file() {
                return Err(e);
            }
            File::open(rt, path)
        }
    }
}
