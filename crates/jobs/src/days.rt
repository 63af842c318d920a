// Working all intervals of a day over one source.
ghost use Rattle.std.specs.Prelude.{◌≡◌, false, []};
ghost use Rattle.terms.specs.Limits.{last_interval};
ghost use Rattle.runs.specs.Sheets.{said, said_of};
ghost use Rattle.runs.specs.Works.{WorkedBy, traced};
ghost use Rattle.jobs.specs.Days.{walked, watched, run_through, day_told};

use crate::watch::Watch;
use intervals::warning::Warning;
use rounding::rule::Rounding;
use runs::day::RunDay;
use runs::refusal::IntervalRefusal;
use runs::run::Run;
use runs::sheet::Sheet;
use terms::question::LAST_INTERVAL;
use terms::source::Source;

// A day that was run: the sheet of the intervals that were worked, and why the next one was not, where they are not all.
#[derive(Drop)]
pub struct DayRun {
    pub sheet: Sheet,
    pub ended: Result<(), IntervalRefusal>,
}

// Works the intervals of an open run in order, until one is refused.
fn work_intervals<R: Rounding, S: Source, W: Watch>(
    run: &mut Run<R>,
    source: &S,
    warnings: &mut [Warning],
    watch: &mut W,
) -> Result<(), IntervalRefusal>
    requires going { run.old.stopped ≡ false }
    requires law { WorkedBy (traced run.old.work.day (R.rounded run.old.rule) []) run.old.work }
    ensures told { day_told result ≡ (walked (S.table source.now) run.old.work.day warnings.old last_interval).told }
    ensures warnings { warnings.new ≡ (walked (S.table source.now) run.old.work.day warnings.old last_interval).warnings }
    ensures watch { W.state watch.new ≡ watched W.told (S.table source.now) run.old.work.day warnings.old (W.state watch.old) last_interval }
    ensures law { WorkedBy (run_through run.old.work.day (R.rounded run.old.rule) (S.table source.now) warnings.old) run.new.work }
{
    for worked in 0..LAST_INTERVAL {
        match run.interval(source, worked + 1, warnings) {
            Ok(done) => watch.worked(worked + 1, warnings, done.warnings),
            Err(refusal) => return Err(refusal),
        }
    }
    Ok(())
}

// Opens a run of a day under a rule, works its intervals over a source in order until one is refused, and closes it. The list of warnings needs
// 256 rows; the watch is told of each interval that is worked.
pub fn run_day<R: Rounding + Drop, S: Source, W: Watch>(
    day: RunDay,
    rule: R,
    source: &S,
    warnings: &mut [Warning],
    watch: &mut W,
) -> DayRun
    ensures told { day_told result.ended ≡ (walked (S.table source.now) day.day warnings.old last_interval).told }
    ensures warnings { warnings.new ≡ (walked (S.table source.now) day.day warnings.old last_interval).warnings }
    ensures watch { W.state watch.new ≡ watched W.told (S.table source.now) day.day warnings.old (W.state watch.old) last_interval }
    ensures sheet { said result.sheet.work ≡ said_of (run_through day.day (R.rounded rule) (S.table source.now) warnings.old) }
    ensures law { WorkedBy (run_through day.day (R.rounded rule) (S.table source.now) warnings.old) result.sheet.work }
{
    let mut run = Run::open(day, rule);
    let ended = work_intervals(&mut run, source, warnings, watch);
    DayRun {
        sheet: run.close(),
        ended,
    }
}
