// A book file that this call holds, from before it is read until the call ends: no other call posts to it meanwhile.
use crate::beside::Beside;
use crate::inode::Inode;
use crate::load::read_most;
use crate::save::{check_name, name_beside, open_folder};
use crate::save_fault::{NameFault, SaveFault};
use std::fs::{File, Metadata, OpenOptions};
use std::io::ErrorKind;
use std::os::unix::fs::MetadataExt;
use std::rt::Files;
use std::{fs, io};

// A file that is opened may have been replaced before it is held; then the one in its place is opened.
const MOST_TRIES: u32 = 10;

#[derive(Drop)]
pub(crate) struct HeldBook {
    // Where the file is, whatever links led to it.
    path: String,
    folder: File,
    file: File,
    metadata: Metadata,
}

impl HeldBook {
    // The links of the path are followed once; from then on the file is known by its descriptor, and its name only looked at. The file that is
    // read for the posting must not stand where the new bytes will.
    pub(crate) fn hold<R: Files<File = File> + AllocGlobal>(
        rt: &R,
        path: &str,
        read: &str,
    ) -> Result<HeldBook, SaveFault> {
        let path = resolve(rt, path).map_err(SaveFault::Unread)?;
        check_name(path.as_str())?;
        let folder = open_folder(rt, path.as_str())?;
        let (file, metadata) = hold_named(rt, path.as_str())?;
        let book = HeldBook {
            path,
            folder,
            file,
            metadata,
        };
        if book.is_beside(rt, read)? {
            return Err(SaveFault::ReadBeside);
        }
        book.keep_one_name(rt)?;
        Ok(book)
    }

    fn inode(&self) -> Inode {
        Inode::of(&self.metadata)
    }

    // A second name is that of a new book whose call was cut off before it took it away, or somebody's link.
    fn keep_one_name<R: Files + AllocGlobal>(&self, rt: &R) -> Result<(), SaveFault> {
        let names = self.metadata.nlink();
        if names <= 1 {
            return Ok(());
        }
        let beside = name_beside(rt, self.path.as_str())?;
        if names > 2 || !self.inode().is_named(rt, beside.as_str()) {
            return Err(SaveFault::Names(names));
        }
        match fs::remove_file(rt, beside.as_str()) {
            Ok(()) => Ok(()),
            Err(e) => Err(SaveFault::Name(beside, NameFault::Stuck(e))),
        }
    }

    // The file's bytes, as far as they matter.
    pub(crate) fn read<R: AllocGlobal>(&self, rt: &R, most: usize) -> io::Result<Vec<u8>> {
        read_most(rt, &self.file, most)
    }

    // Whether a path leads to what has the name of the file beside it.
    fn is_beside<R: Files + AllocGlobal>(&self, rt: &R, path: &str) -> Result<bool, SaveFault> {
        let beside = name_beside(rt, self.path.as_str())?;
        match fs::metadata(rt, path) {
            Ok(found) => Ok(Inode::of(&found).is_named(rt, beside.as_str())),
            Err(_) => Ok(false),
        }
    }

    // Makes the file beside it, with the same owner, group and permissions and these bytes, which are stored.
    pub(crate) fn write_beside<R: Files<File = File> + AllocGlobal>(
        &self,
        rt: &R,
        bytes: &[u8],
    ) -> Result<Beside, SaveFault> {
        let beside = Beside::create(rt, name_beside(rt, self.path.as_str())?)?;
        match self.fill(&beside, bytes) {
            Ok(()) => Ok(beside),
            Err(fault) => {
                let _ = beside.discard(rt);
                Err(fault)
            }
        }
    }

    // The permissions are asked for again, since a day may take long to work.
    fn fill(&self, beside: &Beside, bytes: &[u8]) -> Result<(), SaveFault> {
        let metadata = self.file.metadata().map_err(SaveFault::Unlike)?;
        beside.take_after(&metadata).map_err(SaveFault::Unlike)?;
        beside.fill(bytes).map_err(SaveFault::Unwritten)
    }

    // Gives the file beside it the name, where both names still lead to these two files. Whoever reads meanwhile finds all of the old bytes
    // or all of the new ones.
    pub(crate) fn replace<R: Files>(&self, rt: &R, beside: &Beside) -> Result<(), SaveFault> {
        let path = self.path.as_str();
        if !self.inode().is_named(rt, path) || !beside.is_named(rt) {
            return Err(SaveFault::Moved);
        }
        match fs::rename(rt, beside.name(), path) {
            // A system that lost only its own answer has done it all the same.
            Err(e) if !beside.inode().is_named(rt, path) => Err(SaveFault::Unplaced(e)),
            // Whoever may write in the folder can have moved the file beside it just before.
            Ok(()) if !beside.inode().is_named(rt, path) => Err(SaveFault::Moved),
            _ => Ok(()),
        }
    }

    // Has the new name stored, so that it outlasts a loss of power.
    pub(crate) fn sync_folder(&self) -> Result<(), SaveFault> {
        self.folder.sync_all().map_err(SaveFault::Unsettled)
    }
}

// Where a path leads, whatever its links. A folder above it may have a name that is no UTF-8 text, or not let the caller look at it; a path
// that is no link goes as it is then.
fn resolve<R: Files + AllocGlobal>(rt: &R, path: &str) -> io::Result<String> {
    match fs::canonicalize(rt, path) {
        Ok(real) => Ok(real.into_string()),
        Err(e) if fs::symlink_metadata(rt, path).is_ok_and(|found| found.is_symlink()) => Err(e),
        Err(_) => Ok(String::from_str(rt.alloc(), path)?),
    }
}

// The file of a path, held, with what the system says of it; the path leads to it also once it is held.
fn hold_named<R: Files<File = File>>(rt: &R, path: &str) -> Result<(File, Metadata), SaveFault> {
    for _ in 0..MOST_TRIES {
        let (file, metadata) = hold_file(rt, path)?;
        if Inode::of(&metadata).is_named(rt, path) {
            return Ok((file, metadata));
        }
    }
    Err(SaveFault::Replaced)
}

fn hold_file<R: Files<File = File>>(rt: &R, path: &str) -> Result<(File, Metadata), SaveFault> {
    let file = open_to_write(rt, path)?;
    let found = file.metadata().map_err(SaveFault::Unread)?;
    if !found.is_file() {
        return Err(SaveFault::NoFile);
    }
    file.try_lock()?;
    // Its names are counted while it is held.
    let metadata = file.metadata().map_err(SaveFault::Unread)?;
    Ok((file, metadata))
}

// Only who may write a file may post to it, although nothing is written into it. A pipe that is opened for both does not wait for others.
fn open_to_write<R: Files<File = File>>(rt: &R, path: &str) -> Result<File, SaveFault> {
    let opened = OpenOptions::new().read(true).write(true).open(rt, path);
    match opened {
        Ok(file) => Ok(file),
        Err(e) if e.kind() == ErrorKind::NotFound => Err(SaveFault::Unread(e)),
        Err(e) if e.kind() == ErrorKind::IsADirectory => Err(SaveFault::NoFile),
        Err(e) => Err(SaveFault::Unwritable(e)),
    }
}
