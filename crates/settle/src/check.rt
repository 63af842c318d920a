// `settle check FILE...`
use crate::console::Console;
use detfile::check::check_file;
use detfile::refusal::FileRefusal;
use messages::printable::Printable;
use messages::refused;
use std::io;
use std::rt::Files;

impl<R: Files + Print + Eprint + AllocGlobal> Console<'_, R> {
    // One line for each file; false where one is refused or cannot be read.
    pub(crate) fn check(&self, paths: &[&str]) -> anyhow::Result<bool> {
        let mut sound = true;
        for path in paths {
            sound &= self.check_one(path)?;
        }
        Ok(sound)
    }

    fn check_one(&self, path: &str) -> anyhow::Result<bool> {
        let Some(bytes) = self.load(path)? else {
            return Ok(false);
        };
        let verdict = check_file(&bytes);
        self.say_verdict(path, &bytes, verdict)?;
        Ok(verdict.is_ok())
    }

    // The line of a file that could be read.
    pub(crate) fn say_verdict(
        &self,
        path: &str,
        bytes: &[u8],
        verdict: Result<u32, FileRefusal>,
    ) -> io::Result<()> {
        match verdict {
            Ok(count) => {
                let path = Printable(path);
                println!(self.rt; "{path}: accepted, {count} value lines")
            }
            Err(refusal) => self.say_refused(path, bytes, refusal),
        }
    }

    pub(crate) fn say_refused(
        &self,
        path: &str,
        bytes: &[u8],
        refusal: FileRefusal,
    ) -> io::Result<()> {
        let answer = refusal.number();
        let line = refusal.line();
        let why = refused::Sentence { bytes, refusal };
        let path = Printable(path);
        println!(self.rt; "{path}: refused, answer {answer} at line {line}: {why}")
    }
}
