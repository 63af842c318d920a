// A watch that prints.
use crate::console::Console;
use intervals::warning::Warning;
use jobs::watch::Watch;
use std::io;
use std::rt::{Clock, Files};
use std::time::Instant;

// Tells the warnings of each interval, and how far a long run has come. What cannot be printed is kept until the day is through.
#[derive(Drop)]
pub(crate) struct Teller<'a, R> {
    console: Console<'a, R>,
    start: Option<Instant>,
    fault: Option<io::Error>,
}

impl<'a, R: Files + Clock + Print + Eprint + AllocGlobal> Teller<'a, R> {
    pub(crate) fn new(console: Console<'a, R>) -> Teller<'a, R> {
        Teller {
            console,
            start: Instant::now(console.rt).ok(),
            fault: None,
        }
    }

    fn tell(&self, interval: u32, rows: &[Warning], count: usize) -> io::Result<()> {
        self.console.say_warnings(rows, count)?;
        self.console.tell_hour(&self.start, interval);
        Ok(())
    }

    // What could not be printed.
    pub(crate) fn end(self) -> io::Result<()> {
        match self.fault {
            Some(fault) => Err(fault),
            None => Ok(()),
        }
    }
}

impl<R: Files + Clock + Print + Eprint + AllocGlobal> Watch for Teller<'_, R> {
    ghost State = { Unit {0} };

    ghost state = { λ w. tt };

    ghost told = { λ s i rows. s };

    fn worked(&mut self, interval: u32, rows: &[Warning], count: usize) {
        if self.fault.is_none() {
            self.fault = self.tell(interval, rows, count).err();
        }
    }
}
