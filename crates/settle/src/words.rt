// Numbers among the words of a command.
use crate::console::Console;
use messages::printable::Printable;
use std::fmt;
use terms::question::LAST_DAY;

// A word that should be a number: what it stands for, and a command that is right.
#[derive(Clone, Copy)]
pub(crate) struct NoNumber<'a> {
    what: &'static str,
    word: &'a str,
    example: &'static str,
}

impl fmt::Display for NoNumber<'_> {
    fn fmt<W: fmt::Write>(&self, f: &mut fmt::Formatter<W>) -> fmt::Result {
        let NoNumber {
            what,
            word,
            example,
        } = *self;
        let word = Printable(word);
        write!(
            f,
            "{what} is {word}, which is no whole number; as in: {example}"
        )
    }
}

// The number that digits write. One that is too large for a question lies outside every range, as does the largest that is not.
pub(crate) fn number_of<'a>(
    what: &'static str,
    word: &'a str,
    example: &'static str,
) -> Result<u32, NoNumber<'a>> {
    if word.is_empty() || !word.bytes().all(|b| b.is_ascii_digit()) {
        return Err(NoNumber {
            what,
            word,
            example,
        });
    }
    Ok(word.parse().unwrap_or(u32::MAX))
}

impl<R: Print> Console<'_, R> {
    // Of a day that lies outside its range, by the number of the answer.
    pub(crate) fn say_day_refused(&self, day: &str, answer: u32) -> anyhow::Result<bool> {
        let day = Printable(day);
        println!(self.rt;
            "day {day}: refused, answer {answer}: a day is a number from 0 to {LAST_DAY}"
        )?;
        Ok(false)
    }
}
