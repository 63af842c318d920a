// `settle work FILE DAY [--rule away|even] [--fill] [--direct]`
use crate::console::Console;
use crate::options::{Command, WorkOptions, day_and_options};
use crate::teller::Teller;
use daytable::room::Room;
use intervals::warning::Warning;
use jobs::days::DayRun;
use messages::{stopped, warned};
use rounding::rules::Rule;
use runs::day::RunDay;
use runs::refusal::IntervalRefusal;
use runs::working::WARNING_ROWS;
use settlement::dayfile::DayFile;
use settlement::reading::Reading;
use settlement::refusal::Unworked;
use settlement::working::work_file;
use std::fmt::Display;
use std::io;
use std::rt::{Clock, Files};
use std::time::Instant;
use terms::source::Source;

const EXAMPLE: &str = "settle work day.txt 7 --rule even";

// Of a run that is not called as it asks to be, which does not come up here.
const OUT_OF_TURN: &str =
    "the interval is not the one that is due, or the list of warnings is too short";

impl<R: Files + Clock + Print + Eprint + AllocGlobal> Console<'_, R> {
    // A day worked from a file; false where something is refused, the run stops or the command is wrong.
    pub(crate) fn work(&self, path: &str, day: &str, words: &[&str]) -> anyhow::Result<bool> {
        let (number, options) = match day_and_options(Command::Work, day, words, EXAMPLE) {
            Ok(read) => read,
            Err(fault) => return self.refuse(fault),
        };
        match RunDay::try_from(number) {
            Ok(_) => self.work_path(path, number, options),
            Err(refusal) => self.say_day_refused(day, refusal.number()),
        }
    }

    fn work_path(&self, path: &str, day: u32, read: WorkOptions) -> anyhow::Result<bool> {
        let Some(bytes) = self.load(path)? else {
            return Ok(false);
        };
        let WorkOptions { rule, options } = read;
        let file = DayFile {
            bytes: &bytes,
            day,
            fill: options.fill,
        };
        if options.direct {
            self.work_reading(path, &Reading::direct(file), rule)
        } else {
            let room = Room::new(self.rt.alloc())?;
            self.work_reading(path, &Reading::tabled(room, file), rule)
        }
    }

    // False where the file is refused or the run stops.
    fn work_reading<S: Source>(
        &self,
        path: &str,
        reading: &Reading<'_, S>,
        rule: Rule,
    ) -> anyhow::Result<bool> {
        self.say_verdict(path, reading.file.bytes, reading.verdict())?;
        let mut rows = vec![in self.rt.alloc(); Warning::default(); WARNING_ROWS]?;
        let mut teller = Teller::new(*self);
        let worked = work_file(reading, rule, rows.as_mut_slice(), &mut teller);
        teller.end()?;
        match worked {
            Ok(run) => self.say_run(reading, rows.as_slice(), &run),
            // A refused file is said already; the day was looked at before.
            Err(Unworked::File(_) | Unworked::Day(_)) => Ok(false),
        }
    }

    // Where the run stops and why, if it does, and then the sheet of what was worked.
    fn say_run<S: Source>(
        &self,
        source: &S,
        rows: &[Warning],
        run: &DayRun,
    ) -> anyhow::Result<bool> {
        match run.ended {
            Ok(()) => {}
            Err(refusal @ IntervalRefusal::Halted(stop)) => {
                self.say_warnings(rows, stop.warnings)?;
                let why = stopped::Sentence { source, stop };
                self.say_stopped(stop.slot.interval, refusal, why)?;
            }
            Err(refusal) => {
                let due = run.sheet.intervals().saturating_add(1);
                self.say_stopped(due, refusal, OUT_OF_TURN)?;
            }
        }
        self.say_sheet(&run.sheet)?;
        Ok(run.ended.is_ok())
    }

    pub(crate) fn say_stopped(
        &self,
        interval: u32,
        refusal: IntervalRefusal,
        why: impl Display + Drop,
    ) -> io::Result<()> {
        let answer = refusal.number();
        println!(self.rt; "stopped, answer {answer} at interval {interval}: {why}")
    }

    // The first `count` rows.
    pub(crate) fn say_warnings(&self, rows: &[Warning], count: usize) -> io::Result<()> {
        for row in rows.iter().take(count) {
            let text = warned::Sentence(row);
            println!(self.rt; "warning: {text}")?;
        }
        Ok(())
    }

    // After the last interval of an hour, where the work takes long.
    pub(crate) fn tell_hour(&self, start: &Option<Instant>, interval: u32) {
        if interval % 4 == 0 && self.is_long(start) {
            let hour = interval / 4;
            self.hint(format_args!("settle: hour {hour} of 24 done"));
        }
    }

    // Whether the work has taken a second by now; not where the clock does not tell.
    fn is_long(&self, start: &Option<Instant>) -> bool {
        match start {
            Some(start) => start.elapsed(self.rt).is_ok_and(|time| time.as_secs() >= 1),
            None => false,
        }
    }
}
