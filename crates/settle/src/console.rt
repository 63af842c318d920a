// Where a command speaks.
use std::cell::Cell;
use std::fmt::Display;
use std::io;

// How a command was given.
#[derive(Clone, Copy)]
pub(crate) enum Call {
    // The one command of a call: messages go to standard error.
    Single,
    // A command of a script: a message is a line of the output, with the number of the script's line.
    Script(u64),
}

// The runtime, and how the command was given. Each command is a method, in the module of its name.
#[derive_where(Clone, Copy)]
pub(crate) struct Console<'a, R> {
    pub(crate) rt: &'a R,
    pub(crate) call: Call,
    // Whether something could not be written to standard error. The work goes on, and the status tells at the end.
    pub(crate) unheard: &'a Cell<bool>,
}

impl<R: Print + Eprint> Console<'_, R> {
    // Says what is wrong with a command.
    pub(crate) fn complain(&self, message: impl Display + Drop) -> io::Result<()> {
        match self.call {
            Call::Single => {
                self.tell(format_args!("settle: {message}"));
                Ok(())
            }
            Call::Script(line) => println!(self.rt; "script line {line}: {message}"),
        }
    }

    // The same of a command that comes to nothing by it.
    pub(crate) fn refuse(&self, message: impl Display + Drop) -> anyhow::Result<bool> {
        self.complain(message)?;
        Ok(false)
    }

    // What helps the one who gave a single command; a script's output has only results and messages.
    pub(crate) fn hint(&self, text: impl Display + Drop) {
        match self.call {
            Call::Single => self.tell(text),
            Call::Script(_) => {}
        }
    }

    // A line on standard error. Nothing stops where it cannot be written: a posting is worth more than what is said of it.
    fn tell(&self, text: impl Display + Drop) {
        if self.rt.eprintln(text).is_err() {
            self.unheard.set(true);
        }
    }
}
