// The options of `settle work` and `settle post`.
use crate::words::{NoNumber, number_of};
use messages::printable::Printable;
use rounding::rules::{NoRule, Rule};
use std::fmt;

// The command that the options are for. Only `work` takes a rule: bills are rounded by one rule always.
#[derive(Clone, Copy, PartialEq, Eq)]
pub(crate) enum Command {
    Work,
    Post,
}

// How a file is read.
#[derive(Clone, Copy)]
pub(crate) struct Options {
    pub(crate) fill: bool,
    // Each question goes to the file, not to a table that was made of it.
    pub(crate) direct: bool,
}

#[derive(Clone, Copy)]
pub(crate) struct WorkOptions {
    pub(crate) rule: Rule,
    pub(crate) options: Options,
}

// What is wrong with an option, and the word at which it is seen.
#[derive(Clone, Copy)]
pub(crate) enum OptionFault<'a> {
    Unknown(&'a str, Command),
    RuleOfBills,
    NoRule(&'a str, NoRule),
    RuleMissing,
}

impl fmt::Display for OptionFault<'_> {
    fn fmt<W: fmt::Write>(&self, f: &mut fmt::Formatter<W>) -> fmt::Result {
        match self {
            OptionFault::Unknown(word, command) => {
                let word = Printable(word);
                let allowed = command.allowed();
                write!(
                    f,
                    "{word} is no option of work or post; allowed are {allowed}"
                )
            }
            OptionFault::RuleOfBills => write!(
                f,
                "--rule is no option of post, which bills with half a cent away from zero; allowed are --fill and --direct"
            ),
            OptionFault::NoRule(word, fault) => {
                let word = Printable(word);
                write!(f, "{word} is {fault}")
            }
            OptionFault::RuleMissing => write!(
                f,
                "--rule wants a rounding rule after it; allowed are away and even"
            ),
        }
    }
}

impl Command {
    fn allowed(self) -> &'static str {
        match self {
            Command::Work => "--rule away, --rule even, --fill and --direct",
            Command::Post => "--fill and --direct",
        }
    }
}

impl WorkOptions {
    // What the words after FILE and DAY ask for. Of an option that stands twice the later counts.
    fn read<'a>(command: Command, words: &[&'a str]) -> Result<WorkOptions, OptionFault<'a>> {
        let mut rule = Rule::Away;
        let mut options = Options {
            fill: false,
            direct: false,
        };
        let mut words = words.iter().copied();
        while let Some(word) = words.next() {
            match word {
                "--rule" if command == Command::Post => return Err(OptionFault::RuleOfBills),
                "--rule" => {
                    let name = words.next().ok_or(OptionFault::RuleMissing)?;
                    rule = name
                        .parse()
                        .map_err(|fault| OptionFault::NoRule(name, fault))?;
                }
                "--fill" => options.fill = true,
                "--direct" => options.direct = true,
                _ => return Err(OptionFault::Unknown(word, command)),
            }
        }
        Ok(WorkOptions { rule, options })
    }
}

// What is wrong with DAY or an option.
#[derive(Clone, Copy)]
pub(crate) enum WordsFault<'a> {
    Option(OptionFault<'a>),
    NoNumber(NoNumber<'a>),
}

impl<'a> From<OptionFault<'a>> for WordsFault<'a> {
    fn from(fault: OptionFault<'a>) -> WordsFault<'a> {
        WordsFault::Option(fault)
    }
}

impl<'a> From<NoNumber<'a>> for WordsFault<'a> {
    fn from(fault: NoNumber<'a>) -> WordsFault<'a> {
        WordsFault::NoNumber(fault)
    }
}

impl fmt::Display for WordsFault<'_> {
    fn fmt<W: fmt::Write>(&self, f: &mut fmt::Formatter<W>) -> fmt::Result {
        match self {
            WordsFault::Option(fault) => write!(f, "{fault}"),
            WordsFault::NoNumber(fault) => write!(f, "{fault}"),
        }
    }
}

// The day that is asked for, and the options, which are looked at first.
pub(crate) fn day_and_options<'a>(
    command: Command,
    day: &'a str,
    words: &[&'a str],
    example: &'static str,
) -> Result<(u32, WorkOptions), WordsFault<'a>> {
    let options = WorkOptions::read(command, words)?;
    Ok((number_of("DAY", day, example)?, options))
}
