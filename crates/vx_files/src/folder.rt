ghost use Rattle.std.specs.Prelude.{◌*◌, ◌<◌, ◌^◌, IfOk};

use std::alloc::{AllocError, Global};
use std::collections::{BTreeMap, BTreeSet};
use std::fs::{DirEntry, File, Metadata, OpenFile};
use std::io::ErrorKind;
use std::os::unix::fs::MetadataExt;
use std::path::AsPath;
use std::rt::Files;
use std::{fs, io};
use vx_base::BLOCK;
use vx_names::Name;

/// A folder whose files are devices. Where several names lead to one file, the first by its bytes is the device, and the
/// others are none. The empty path is that of no folder.
#[derive(Drop)]
pub struct Folder {
    path: String,
    /// The names that are no devices since an earlier one leads to their file; None before the files were listed.
    twins: Option<BTreeSet<Name>>,
    /// The names of the devices, with those that were made since; None where a file could not be looked at.
    names: Option<BTreeSet<Name>>,
}

/// The files of a folder that are devices, by their names, each with what the system knows it by.
type Images = BTreeMap<Name, (u64, u64)>;

impl Folder {
    pub fn new(alloc: Global, path: &str) -> Result<Folder, AllocError> {
        Ok(Folder {
            path: String::from_str(alloc, path)?,
            twins: None,
            names: None,
        })
    }

    /// The path of the file of that name. In no folder it is the empty path, at which there is no file.
    pub fn path_of(&self, alloc: Global, name: &Name) -> Result<String, AllocError> {
        if self.path.is_empty() {
            return Ok(String::new(alloc));
        }
        let mut path = self.path.clone()?;
        path.push('/')?;
        for byte in name.as_bytes() {
            path.push(*byte as char)?;
        }
        Ok(path)
    }

    /// The names of the devices, in the order of their bytes. It fails where a file cannot be looked at. The files are
    /// listed once; what is made later is added.
    pub fn names<R: Files + AllocGlobal + Clone + Drop>(
        &mut self,
        rt: &R,
        alloc: Global,
    ) -> io::Result<Vec<Name>> {
        if self.names.is_none() {
            if let Some(e) = self.find(rt, alloc)? {
                return Err(e);
            }
        }
        let mut names = Vec::new(alloc);
        if let Some(listed) = &self.names {
            for name in listed {
                names.push(*name)?;
            }
        }
        Ok(names)
    }

    /// The whole sectors of the device of that name, whose file is at the path; 0 where the name is that of no device.
    pub fn sectors<R: Files + AllocGlobal + Clone + Drop>(
        &mut self,
        rt: &R,
        path: &str,
        name: &Name,
    ) -> io::Result<u64>
        ensures { IfOk result (λ sectors. 512 * sectors < 2 ^ 64) }
    {
        let sectors = match look(rt, path)? {
            Some(file) => sectors_in(&file),
            None => 0,
        };
        if sectors > 0 && self.is_twin(rt, name)? {
            return Ok(0);
        }
        Ok(sectors)
    }

    /// Whether an earlier name leads to the file of this name. Files that cannot be looked at are passed over.
    fn is_twin<R: Files + AllocGlobal + Clone + Drop>(
        &mut self,
        rt: &R,
        name: &Name,
    ) -> io::Result<bool> {
        if self.twins.is_none() {
            let _ = self.find(rt, rt.alloc())?;
        }
        match &self.twins {
            Some(twins) => Ok(twins.contains(name)),
            None => Ok(false),
        }
    }

    /// Lists the files, and keeps which names are devices and which are none. It answers why a file could not be looked at.
    fn find<R: Files + AllocGlobal + Clone + Drop>(
        &mut self,
        rt: &R,
        alloc: Global,
    ) -> io::Result<Option<io::Error>> {
        let mut images = BTreeMap::new(alloc);
        let failed = self.list(rt, &mut images)?;
        let mut names = BTreeSet::new(alloc);
        self.twins = Some(apart(alloc, &images, &mut names)?);
        self.names = if failed.is_none() { Some(names) } else { None };
        Ok(failed)
    }

    /// Puts the files that are devices into the map, and answers why one could not be looked at. Files whose names are not
    /// text are passed over.
    fn list<R: Files + AllocGlobal + Clone + Drop>(
        &self,
        rt: &R,
        images: &mut Images,
    ) -> io::Result<Option<io::Error>> {
        if self.path.is_empty() {
            return Err(io::Error::from(ErrorKind::NotFound));
        }
        let mut failed = None;
        for entry in fs::read_dir(rt, self.path.as_str())? {
            match entry {
                Ok(entry) => {
                    if let Err(e) = put_device(rt, &entry, images) {
                        failed = Some(e);
                    }
                }
                Err(e) if e.kind() == ErrorKind::InvalidFilename => {}
                Err(e) => return Err(e),
            }
        }
        Ok(failed)
    }

    /// Makes the file of the name with so many zero bytes at the path, and answers once it and its name are on the medium.
    /// Where that fails the file is removed again, if it can be.
    pub fn create<R: Files>(
        &mut self,
        rt: &R,
        name: &Name,
        path: &str,
        bytes: u64,
    ) -> io::Result<()> {
        let file = File::create_new(rt, path)?;
        match self.fill(rt, &file, bytes) {
            Ok(()) => {
                self.add(name);
                Ok(())
            }
            Err(e) => {
                let _ = fs::remove_file(rt, path);
                Err(e)
            }
        }
    }

    /// Adds a device to those that were listed; where there is no memory for it they are to be listed anew.
    fn add(&mut self, name: &Name) {
        let added = match &mut self.names {
            Some(names) => names.insert(*name).is_ok(),
            None => true,
        };
        if !added {
            self.names = None;
        }
    }

    fn fill<R: Files>(&self, rt: &R, file: &R::File, bytes: u64) -> io::Result<()> {
        file.set_len(bytes)?;
        file.sync_all()?;
        File::open(rt, self.path.as_str())?.sync_all()
    }
}

/// Puts the file into the map, where it is a device.
fn put_device<R: Files + AllocGlobal>(
    rt: &R,
    entry: &DirEntry<R, Global>,
    images: &mut Images,
) -> io::Result<()> {
    let Ok(name) = Name::read(entry.file_name().as_bytes()) else {
        return Ok(());
    };
    if let Some(file) = look(rt, entry.path())? {
        if sectors_in(&file) > 0 {
            images.insert(name, (file.dev(), file.ino()))?;
        }
    }
    Ok(())
}

/// Puts the first name of each file into `names`, and answers the others.
fn apart(alloc: Global, images: &Images, names: &mut BTreeSet<Name>) -> io::Result<BTreeSet<Name>> {
    let mut files = BTreeSet::new(alloc);
    let mut twins = BTreeSet::new(alloc);
    for (name, file) in images {
        if files.insert(*file)? {
            names.insert(*name)?;
        } else {
            twins.insert(*name)?;
        }
    }
    Ok(twins)
}

/// What the system tells of the file; None of what is no file, and where the path leads nowhere.
fn look<R: Files, P: AsPath>(rt: &R, path: P) -> io::Result<Option<Metadata>> {
    match fs::metadata(rt, path) {
        Ok(file) if file.is_file() => Ok(Some(file)),
        Ok(_) => Ok(None),
        Err(e) if leads_nowhere(e.kind()) => Ok(None),
        Err(e) => Err(e),
    }
}

fn leads_nowhere(kind: ErrorKind) -> bool {
    matches!(
        kind,
        ErrorKind::NotFound | ErrorKind::NotADirectory | ErrorKind::FilesystemLoop
    )
}

fn sectors_in(file: &Metadata) -> u64
    ensures { 512 * result < 2 ^ 64 }
{
    file.len() / BLOCK as u64
}
