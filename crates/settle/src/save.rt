// Saving a new file whole or not at all, and the names that saving goes by.
use crate::beside::Beside;
use crate::save_fault::SaveFault;
use std::fs;
use std::fs::File;
use std::io::ErrorKind;
use std::path::Path;
use std::rt::Files;

// What follows the name of a book in that of the file beside it.
const BESIDE: &str = ".new";

// Saves a file where nothing is, for the caller alone to read and write. Something that comes to be there meanwhile is not replaced either: a
// second name for the written file is made, which the system does only where there is nothing.
pub(crate) fn save_new<R: Files<File = File> + AllocGlobal>(
    rt: &R,
    path: &str,
    bytes: &[u8],
) -> Result<(), SaveFault> {
    check_name(path)?;
    if fs::symlink_metadata(rt, path).is_ok() {
        return Err(SaveFault::Taken);
    }
    let folder = open_folder(rt, path)?;
    let beside = Beside::create(rt, name_beside(rt, path)?)?;
    let placed = place_new(rt, &beside, path, bytes);
    let tidied = beside.discard(rt);
    placed?;
    tidied.map_err(SaveFault::Unsettled)?;
    folder.sync_all().map_err(SaveFault::Unsettled)
}

fn place_new<R: Files>(rt: &R, beside: &Beside, path: &str, bytes: &[u8]) -> Result<(), SaveFault> {
    beside.fill(bytes).map_err(SaveFault::Unwritten)?;
    if !beside.is_named(rt) {
        return Err(SaveFault::Moved);
    }
    match fs::hard_link(rt, beside.name(), path) {
        Ok(()) => Ok(()),
        // A system that lost only its own answer has done it all the same.
        Err(_) if beside.inode().is_named(rt, path) => Ok(()),
        Err(e) if e.kind() == ErrorKind::AlreadyExists => Err(SaveFault::Taken),
        Err(e) => Err(SaveFault::Unplaced(e)),
    }
}

// What a path has to be called so that a file can stand beside it. One that itself ends in `.new` could be taken for what a call left beside
// another book, and be taken away.
pub(crate) fn check_name(path: &str) -> Result<(), SaveFault> {
    match Path::new(path).file_name() {
        None => Err(SaveFault::Nameless),
        Some(name) if name.ends_with(BESIDE) => Err(SaveFault::Reserved),
        Some(_) => Ok(()),
    }
}

pub(crate) fn name_beside<R: AllocGlobal>(rt: &R, path: &str) -> Result<String, SaveFault> {
    format!(in rt.alloc(); "{path}{BESIDE}").map_err(|e| SaveFault::Unwritten(e.into()))
}

// The folder of a path, open, so that it can be synced once the name is given.
pub(crate) fn open_folder<R: Files<File = File>>(rt: &R, path: &str) -> Result<File, SaveFault> {
    File::open(rt, folder_of(path)).map_err(SaveFault::Unwritten)
}

fn folder_of(path: &str) -> &str {
    match Path::new(path).parent() {
        Some(folder) if !folder.as_os_str().is_empty() => folder.as_os_str(),
        _ => ".",
    }
}
