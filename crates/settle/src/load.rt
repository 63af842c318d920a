// Reading a file of at most the bytes that matter.
use crate::console::Console;
use detfile::check::MOST_BYTES;
use messages::printable::Printable;
use std::fs::File;
use std::io;
use std::io::Read;
use std::rt::Files;

impl<R: Files + Print + Eprint + AllocGlobal> Console<'_, R> {
    // The bytes of a determinant file, as below.
    pub(crate) fn load(&self, path: &str) -> io::Result<Option<Vec<u8>>> {
        self.load_most(path, MOST_BYTES)
    }

    // The bytes of a file that is to have so many at most, or one more; none where it cannot be read, which is said.
    pub(crate) fn load_most(&self, path: &str, most: usize) -> io::Result<Option<Vec<u8>>> {
        match read(self.rt, path, most) {
            Ok(bytes) => Ok(Some(bytes)),
            Err(e) => {
                let path = Printable(path);
                self.complain(format_args!("{path}: cannot be read: {e}"))?;
                Ok(None)
            }
        }
    }
}

fn read<R: Files + AllocGlobal>(rt: &R, path: &str, most: usize) -> io::Result<Vec<u8>> {
    read_most(rt, File::open(rt, path)?, most)
}

// The file's bytes, or the first `most + 1`: one more than it may have tells as much as all.
pub(crate) fn read_most<R: AllocGlobal, F: Read + Drop>(
    rt: &R,
    file: F,
    most: usize,
) -> io::Result<Vec<u8>> {
    let mut bytes = Vec::new(rt.alloc());
    let enough = (most as u64).saturating_add(1);
    file.take(enough).read_to_end(&mut bytes)?;
    Ok(bytes)
}
