// Commands by their words, and scripts of commands.
use crate::ask::Place;
use crate::console::{Call, Console};
use messages::printable::Printable;
use std::cell::Cell;
use std::fmt::Display;
use std::fs::File;
use std::io::{BufRead, BufReader, Read};
use std::rt::{Clock, Files};
use std::str::from_utf8;

const USAGE: &str = "usage: settle COMMAND
  settle check FILE...
      whether each determinant file can be read, and if not, why and at which line
  settle ask FILE NAME UNIT DAY INT
      what a file says of a determinant, as: settle ask day.txt RTSPP 3 7 12
  settle work FILE DAY [--rule away|even] [--fill] [--direct]
      the amounts of a day worked from a file, as: settle work day.txt 7; --rule even rounds half a cent to the even
      neighbour and not away from zero; --fill takes zero where VSSVARIOL, URLLAG or URLLEAD is null; --direct puts each
      question to the file, which is slow and comes to the same
  settle post BOOK DAY FILE [--fill] [--direct]
      a day worked from a file and posted to a book, as: settle post book.bin 7 day.txt; prints what was posted before and
      what each QSE is billed now, and writes the book; where anything is refused, the book is as it was
  settle book new PATH PLACES
      a new book of 0 to 32 places, as: settle book new book.bin 32; what is at PATH already is never overwritten
  settle book show PATH [DAY]
      the days that a book holds, or one of them, with their amounts, as: settle book show book.bin 7
  settle help
      this text
With no command, each line of standard input is one; blank lines and lines that begin with # are passed over.";

impl<R: Files<File = File> + Clock + Print + Eprint + AllocGlobal> Console<'_, R> {
    // One command, where there are words; false where it was refused or found something wrong.
    pub(crate) fn command(&self, words: &[&str]) -> anyhow::Result<bool> {
        match *words {
            [] => Ok(true),
            ["check"] => self.wrong("check wants one file or more"),
            ["check", ref paths @ ..] => self.check(paths),
            ["ask", path, name, unit, day, interval] => self.ask(
                path,
                Place {
                    name,
                    unit,
                    day,
                    interval,
                },
            ),
            ["ask", ..] => self.wrong("ask wants FILE NAME UNIT DAY INT"),
            ["work", path, day, ref options @ ..] => self.work(path, day, options),
            ["work", ..] => self.wrong("work wants FILE DAY and then its options"),
            ["post", book, day, path, ref options @ ..] => self.post(book, day, path, options),
            ["post", ..] => self.wrong("post wants BOOK DAY FILE and then its options"),
            ["book", ref words @ ..] => self.book(words),
            ["help" | "--help" | "-h", ..] => {
                self.rt.println(USAGE)?;
                Ok(true)
            }
            [name, ..] => {
                let name = Printable(name);
                self.wrong(format_args!("there is no command {name}"))
            }
        }
    }

    // A command on a book.
    fn book(&self, words: &[&str]) -> anyhow::Result<bool> {
        match *words {
            ["new", path, places] => self.new_book(path, places),
            ["new", ..] => self.wrong("book new wants PATH PLACES"),
            ["show", path] => self.show_book(path, None),
            ["show", path, day] => self.show_book(path, Some(day)),
            ["show", ..] => self.wrong("book show wants PATH and then DAY or nothing"),
            [] | [_, ..] => self.wrong("book wants new PATH PLACES or show PATH [DAY]"),
        }
    }

    fn wrong(&self, message: impl Display + Drop) -> anyhow::Result<bool> {
        self.complain(message)?;
        self.hint(USAGE);
        Ok(false)
    }

    // A line of a script.
    fn line(&self, line: &[u8]) -> anyhow::Result<()> {
        let Ok(text) = from_utf8(line) else {
            self.complain("the line is not UTF-8 text")?;
            return Ok(());
        };
        let words: Vec<&str> = text.split_whitespace().collect(self.rt.alloc())?;
        self.command(&words)?;
        Ok(())
    }
}

// Whether a line of a script is passed over: it is blank, or a comment. `run` asks this first, so that such a line does not pay for the frame of
// a command.
fn is_passed_over(line: &[u8]) -> bool {
    matches!(line.trim_ascii_start(), [] | [b'#', ..])
}

// Each line of the input; the usage text where there is none.
pub(crate) fn run<R: Files<File = File> + Clock + Print + Eprint + AllocGlobal, I: Read + Drop>(
    rt: &R,
    input: I,
    unheard: &Cell<bool>,
) -> anyhow::Result<()> {
    let input = BufReader::new(rt.alloc(), input)?;
    let mut empty = true;
    for (number, line) in (1..).zip(input.split(rt.alloc(), b'\n')) {
        empty = false;
        let line = line?;
        if !is_passed_over(&line) {
            let call = Call::Script(number);
            Console { rt, call, unheard }.line(&line)?;
        }
    }
    if empty {
        rt.println(USAGE)?;
    }
    Ok(())
}
