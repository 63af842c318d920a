// `settle ask FILE NAME UNIT DAY INT`
use crate::console::Console;
use crate::words::{NoNumber, number_of};
use filesource::source::FileSource;
use messages::printable::Printable;
use notation::figure::Figure;
use std::fmt;
use std::rt::Files;
use terms::answer::Answer;
use terms::determinant::Determinant;
use terms::question::{Question, Slot};
use terms::source::Source;

const EXAMPLE: &str = "settle ask day.txt RTSPP 3 7 12";

// The words of the command after FILE.
#[derive(Clone, Copy)]
pub(crate) struct Place<'a> {
    pub(crate) name: &'a str,
    pub(crate) unit: &'a str,
    pub(crate) day: &'a str,
    pub(crate) interval: &'a str,
}

// What is wrong with these words.
#[derive(Clone, Copy)]
enum PlaceFault<'a> {
    NoDeterminant(&'a str),
    NoNumber(NoNumber<'a>),
}

impl<'a> From<NoNumber<'a>> for PlaceFault<'a> {
    fn from(fault: NoNumber<'a>) -> PlaceFault<'a> {
        PlaceFault::NoNumber(fault)
    }
}

impl fmt::Display for PlaceFault<'_> {
    fn fmt<W: fmt::Write>(&self, f: &mut fmt::Formatter<W>) -> fmt::Result {
        match self {
            PlaceFault::NoDeterminant(name) => {
                let name = Printable(name);
                write!(
                    f,
                    "{name} is no determinant's name; names are written in capitals, as RTSPP"
                )
            }
            PlaceFault::NoNumber(fault) => write!(f, "{fault}"),
        }
    }
}

impl<'a> Place<'a> {
    // The determinant that is asked for, and the question.
    fn read(self) -> Result<(Determinant, Question), PlaceFault<'a>> {
        let Ok(determinant) = Determinant::try_from(self.name.as_bytes()) else {
            return Err(PlaceFault::NoDeterminant(self.name));
        };
        let unit = number_of("UNIT", self.unit, EXAMPLE)?;
        let day = number_of("DAY", self.day, EXAMPLE)?;
        let interval = number_of("INT", self.interval, EXAMPLE)?;
        let slot = Slot { day, interval };
        Ok((determinant, Question::about(determinant, unit, slot)))
    }
}

impl<R: Files + Print + Eprint + AllocGlobal> Console<'_, R> {
    // What a file says of one determinant, unit, day and interval; false where the file is refused or the command is wrong.
    pub(crate) fn ask(&self, path: &str, place: Place<'_>) -> anyhow::Result<bool> {
        let (determinant, question) = match place.read() {
            Ok(read) => read,
            Err(fault) => return self.refuse(fault),
        };
        let Some(bytes) = self.load(path)? else {
            return Ok(false);
        };
        let source = FileSource::new(&bytes);
        let verdict = source.verdict();
        if let Err(refusal) = verdict {
            self.say_refused(path, &bytes, refusal)?;
        }
        self.say_answer(determinant, source.ask(question))?;
        Ok(verdict.is_ok())
    }

    fn say_answer(&self, determinant: Determinant, answer: Answer) -> anyhow::Result<()> {
        match answer {
            Answer::NoCut => println!(self.rt; "no cut")?,
            Answer::Null => println!(self.rt; "null")?,
            Answer::Figure(stored) => {
                let figure = Figure {
                    stored,
                    determinant,
                };
                println!(self.rt; "{figure} (stored {stored})")?;
            }
        }
        Ok(())
    }
}
