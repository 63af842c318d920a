// Why a file is not saved.
use messages::printable::Printable;
use std::fs::TryLockError;
use std::{fmt, io};

// What stood at the file's path is as it was, but for `Unsettled`.
#[derive(Drop)]
pub(crate) enum SaveFault {
    // A new file was wanted, and there is something at its path.
    Taken,
    // The path ends in no name of a file.
    Nameless,
    // The name is one that the file beside a book would have.
    Reserved,
    // The path leads to nothing that can be read.
    Unread(io::Error),
    // The path leads to a folder, a pipe or a device.
    NoFile,
    // The file may not be written.
    Unwritable(io::Error),
    // The system gives no lock on the file, or on the one beside it.
    Unlocked(io::Error),
    // Another call holds the file.
    Held,
    // Each time the file was opened another call had replaced it by then.
    Replaced,
    // The file has so many names, of which a new file could take only one.
    Names(u64),
    // The file that is read for a posting has the name of the file beside it.
    ReadBeside,
    // The name of the file beside it, and what is wrong there.
    Name(String, NameFault),
    // The file beside it could not be made or written.
    Unwritten(io::Error),
    // It could not be given the owner, the group and the permissions of the file.
    Unlike(io::Error),
    // Something that is no call moved or replaced the file, or the one beside it, meanwhile.
    Moved,
    // The file beside it could not be given the name.
    Unplaced(io::Error),
    // The file is saved, but its folder could not be tidied up or synced.
    Unsettled(io::Error),
}

// What is wrong with the name of the file beside a path.
#[derive(Drop)]
pub(crate) enum NameFault {
    // Another call holds the file of that name.
    Held,
    // What has the name is no file, so no call made it.
    NoFile,
    // What has the name cannot be taken away.
    Stuck(io::Error),
}

impl From<TryLockError> for SaveFault {
    fn from(error: TryLockError) -> SaveFault {
        match error {
            TryLockError::WouldBlock => SaveFault::Held,
            TryLockError::Error(e) => SaveFault::Unlocked(e),
        }
    }
}

// What keeps a new file from being made beside a path.
#[derive(Drop)]
pub(crate) enum BesideFault {
    Name(NameFault),
    Unlocked(io::Error),
    Unwritten(io::Error),
}

impl From<TryLockError> for BesideFault {
    fn from(error: TryLockError) -> BesideFault {
        match error {
            TryLockError::WouldBlock => BesideFault::Name(NameFault::Held),
            TryLockError::Error(e) => BesideFault::Unlocked(e),
        }
    }
}

impl From<NameFault> for BesideFault {
    fn from(fault: NameFault) -> BesideFault {
        BesideFault::Name(fault)
    }
}

impl From<io::Error> for BesideFault {
    fn from(error: io::Error) -> BesideFault {
        BesideFault::Unwritten(error)
    }
}

impl BesideFault {
    // The same, where it is known which name it is about.
    pub(crate) fn of(self, name: String) -> SaveFault {
        match self {
            BesideFault::Name(fault) => SaveFault::Name(name, fault),
            BesideFault::Unlocked(e) => SaveFault::Unlocked(e),
            BesideFault::Unwritten(e) => SaveFault::Unwritten(e),
        }
    }
}

impl From<TryLockError> for NameFault {
    fn from(error: TryLockError) -> NameFault {
        match error {
            TryLockError::WouldBlock => NameFault::Held,
            TryLockError::Error(e) => NameFault::Stuck(e),
        }
    }
}

impl fmt::Display for SaveFault {
    fn fmt<W: fmt::Write>(&self, f: &mut fmt::Formatter<W>) -> fmt::Result {
        match self {
            SaveFault::Taken => f.write_str("there is something already, and it is left as it is"),
            SaveFault::Nameless => f.write_str("this is no name of a file"),
            SaveFault::Reserved => f.write_str(
                "a name that ends in .new is that of the file beside a book; take another",
            ),
            SaveFault::Unread(e) => write!(f, "cannot be read: {e}"),
            SaveFault::NoFile => f.write_str("is no file, but a folder, a pipe or a device"),
            SaveFault::Unwritable(e) => write!(f, "cannot be opened for writing: {e}"),
            SaveFault::Unlocked(e) => write!(f, "cannot be locked: {e}"),
            SaveFault::Held => f.write_str(
                "another call is at work on it; try again once that has ended",
            ),
            SaveFault::Replaced => f.write_str("other calls replace it again and again; try again"),
            SaveFault::Names(count) => write!(
                f,
                "the file has {count} names, and only one of them would get the new bytes; take the others away first"
            ),
            SaveFault::ReadBeside => f.write_str(
                "the determinant file has this name with .new after it, where the new bytes go; give it another",
            ),
            SaveFault::Name(name, fault) => {
                let name = Printable(name.as_str());
                write!(f, "{name} {fault}")
            }
            SaveFault::Unwritten(e) => write!(f, "cannot be written: {e}"),
            SaveFault::Unlike(e) => write!(
                f,
                "a new file cannot be given its owner, group and permissions: {e}"
            ),
            SaveFault::Moved => f.write_str(
                "it or the file beside it was moved or replaced meanwhile",
            ),
            SaveFault::Unplaced(e) => write!(f, "cannot be put in place: {e}"),
            SaveFault::Unsettled(e) => write!(
                f,
                "is written, but its folder cannot be brought up to date: {e}"
            ),
        }
    }
}

impl fmt::Display for NameFault {
    fn fmt<W: fmt::Write>(&self, f: &mut fmt::Formatter<W>) -> fmt::Result {
        match self {
            NameFault::Held => {
                f.write_str(
                    "is there, and another call is at work on it; try again once that has ended",
                )
            }
            NameFault::NoFile => {
                f.write_str("is there and is no file, so no call left it; take it away first")
            }
            NameFault::Stuck(e) => write!(f, "is there and cannot be taken away: {e}"),
        }
    }
}
