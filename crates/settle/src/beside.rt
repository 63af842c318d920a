// The file beside a path: a file of its name with `.new` after it, which is written whole before it gets the path's name. Each call makes
// its own, and holds a lock on it until it ends; so a file of that name that nobody holds was left by a call that was cut off.
use crate::inode::Inode;
use crate::save_fault::{BesideFault, NameFault, SaveFault};
use std::fs::{File, Metadata, OpenOptions, Permissions};
use std::io::{ErrorKind, Write};
use std::os::unix::fs::{MetadataExt, OpenOptionsExt, PermissionsExt, fchown};
use std::rt::Files;
use std::{fs, io};

// Until it has the owner and the permissions of a book, only the caller may open it.
const PRIVATE: u32 = 0o600;

// All of a file's mode but the two bits that run it under its owner's or its group's name.
const KEPT_BITS: u32 = 0o1777;

#[derive(Drop)]
pub(crate) struct Beside {
    name: String,
    file: File,
    inode: Inode,
}

impl Beside {
    // Makes the file of that name, empty, and holds it.
    pub(crate) fn create<R: Files<File = File>>(rt: &R, name: String) -> Result<Beside, SaveFault> {
        match create_held(rt, name.as_str()) {
            Ok((file, inode)) => Ok(Beside { name, file, inode }),
            Err(fault) => Err(fault.of(name)),
        }
    }

    pub(crate) fn name(&self) -> &str {
        self.name.as_str()
    }

    pub(crate) fn inode(&self) -> Inode {
        self.inode
    }

    // Gives it the owner, the group and the permissions of another file, before it has its first byte.
    pub(crate) fn take_after(&self, other: &Metadata) -> io::Result<()> {
        fchown(&self.file, Some(other.uid()), Some(other.gid()))?;
        let mode = other.mode() & KEPT_BITS;
        self.file.set_permissions(Permissions::from_mode(mode))
    }

    // Fills it, and has its bytes stored.
    pub(crate) fn fill(&self, bytes: &[u8]) -> io::Result<()> {
        let mut file = &self.file;
        file.write_all(bytes)?;
        self.file.sync_all()
    }

    // Whether its name still leads to it.
    pub(crate) fn is_named<R: Files>(&self, rt: &R) -> bool {
        self.inode.is_named(rt, self.name.as_str())
    }

    // Takes its name away, where it still leads to it.
    pub(crate) fn discard<R: Files>(&self, rt: &R) -> io::Result<()> {
        if self.is_named(rt) {
            fs::remove_file(rt, self.name.as_str())?;
        }
        Ok(())
    }
}

// What a call that was cut off left under the name is taken away first, and never written into.
fn create_held<R: Files<File = File>>(rt: &R, name: &str) -> Result<(File, Inode), BesideFault> {
    clear(rt, name)?;
    let file = create_private(rt, name)?;
    match hold(rt, name, &file) {
        Ok(inode) => Ok((file, inode)),
        Err(fault) => {
            let _ = take_away(rt, name, &file);
            Err(fault)
        }
    }
}

// Holds the file that was just made, which the caller alone may open, whatever the mask of permissions.
fn hold<R: Files>(rt: &R, name: &str, file: &File) -> Result<Inode, BesideFault> {
    file.try_lock()?;
    file.set_permissions(Permissions::from_mode(PRIVATE))?;
    let inode = Inode::of(&file.metadata()?);
    // Until the lock was granted another call may have taken it for one that was left.
    if !inode.is_named(rt, name) {
        return Err(BesideFault::Name(NameFault::Held));
    }
    Ok(inode)
}

fn create_private<R: Files<File = File>>(rt: &R, name: &str) -> Result<File, BesideFault> {
    let made = OpenOptions::new()
        .read(true)
        .write(true)
        .create_new(true)
        .mode(PRIVATE)
        .open(rt, name);
    match made {
        Ok(file) => Ok(file),
        Err(e) if e.kind() == ErrorKind::AlreadyExists => Err(BesideFault::Name(NameFault::Held)),
        Err(e) => Err(BesideFault::Unwritten(e)),
    }
}

// Takes away a file that nobody holds, where there is one.
fn clear<R: Files<File = File>>(rt: &R, name: &str) -> Result<(), BesideFault> {
    match fs::symlink_metadata(rt, name) {
        Err(e) if e.kind() == ErrorKind::NotFound => Ok(()),
        Err(e) => Err(BesideFault::Unwritten(e)),
        Ok(found) if found.is_file() => Ok(clear_file(rt, name)?),
        Ok(_) => Err(BesideFault::Name(NameFault::NoFile)),
    }
}

fn clear_file<R: Files<File = File>>(rt: &R, name: &str) -> Result<(), NameFault> {
    let opened = OpenOptions::new().read(true).write(true).open(rt, name);
    match opened {
        Ok(left) => clear_left(rt, name, &left),
        Err(e) if e.kind() == ErrorKind::NotFound => Ok(()),
        Err(e) => Err(NameFault::Stuck(e)),
    }
}

// The name is looked at again once the lock is granted: by then another call may have taken it away and made its own.
fn clear_left<R: Files>(rt: &R, name: &str, left: &File) -> Result<(), NameFault> {
    left.try_lock()?;
    match take_away(rt, name, left) {
        Ok(true) => Ok(()),
        Ok(false) => Err(NameFault::Held),
        Err(e) => Err(NameFault::Stuck(e)),
    }
}

// Takes a name away, where it leads to this file.
fn take_away<R: Files>(rt: &R, name: &str, file: &File) -> io::Result<bool> {
    if !Inode::of(&file.metadata()?).is_named(rt, name) {
        return Ok(false);
    }
    fs::remove_file(rt, name)?;
    Ok(true)
}
