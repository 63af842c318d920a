// Working a file's day.
ghost use Rattle.std.specs.Prelude.{◌≡◌, IfOk};
ghost use Rattle.terms.specs.Limits.{last_interval};
ghost use Rattle.runs.specs.Works.{WorkedBy};
ghost use Rattle.settlement.specs.Workings.{working_told, run_worked_of, worked, worked_watched};

use crate::reading::Reading;
use crate::refusal::Unworked;
use intervals::warning::Warning;
use jobs::days::{DayRun, run_day};
use jobs::watch::Watch;
use rounding::rule::Rounding;
use runs::day::RunDay;
use terms::source::Source;

// Works the intervals of the file's day in order, under a rule, until one is refused; the answer has the sheet of those that were worked, and why
// the next one was not. The list of warnings needs 256 rows, and the watch is told of each interval that is worked. Refused where the file is, and
// with 7 where the day is past 65,535; nothing is worked then.
pub fn work_file<R: Rounding + Drop, S: Source, W: Watch>(
    reading: &Reading<'_, S>,
    rule: R,
    warnings: &mut [Warning],
    watch: &mut W,
) -> Result<DayRun, Unworked>
    ensures answer { working_told result ≡ (worked reading.now.file warnings.old (R.rounded rule)).answer }
    ensures warnings { warnings.new ≡ (worked reading.now.file warnings.old (R.rounded rule)).warnings }
    ensures watch { W.state watch.new ≡ worked_watched reading.now.file warnings.old W.told (W.state watch.old) }
    ensures law { IfOk result (λ r. WorkedBy (run_worked_of reading.now.file warnings.old (R.rounded rule)) r.sheet.work) }
    ensures whole { IfOk result (λ r. IfOk r.ended (λ e. r.sheet.work.intervals ≡ last_interval)) }
{
    match reading.verdict() {
        Ok(_) => match RunDay::try_from(reading.file.day) {
            Ok(day) => Ok(run_day(day, rule, reading, warnings, watch)),
            Err(refusal) => Err(Unworked::Day(refusal)),
        },
        Err(refusal) => Err(Unworked::File(refusal)),
    }
}
