// Which file a name leads to.
use std::fs;
use std::fs::Metadata;
use std::os::unix::fs::MetadataExt;
use std::rt::Files;

// A file by its device and its number there, which stay the same whatever it is called.
#[derive(Clone, Copy, PartialEq, Eq)]
pub(crate) struct Inode {
    device: u64,
    number: u64,
}

impl Inode {
    pub(crate) fn of(metadata: &Metadata) -> Inode {
        Inode {
            device: metadata.dev(),
            number: metadata.ino(),
        }
    }

    // Whether this file has the name. A symbolic link of that name is another file, wherever it leads.
    pub(crate) fn is_named<R: Files>(self, rt: &R, name: &str) -> bool {
        fs::symlink_metadata(rt, name).is_ok_and(|found| Inode::of(&found) == self)
    }
}
