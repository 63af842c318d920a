// Opening a run, working its intervals, closing it.
ghost use Rattle.std.specs.Prelude.{◌≡◌, ℕ, ◌*◌, ◌≤◌, true, false, List, [], length, slice_index_or, unsigned_abs};
ghost use Rattle.terms.specs.Sources.{Table};
ghost use Rattle.amounts.specs.Sums.{sum_to};
ghost use Rattle.amounts.specs.Triples.{none, net};
ghost use Rattle.amounts.specs.Traces.{Trace};
ghost use Rattle.runs.specs.declared.refusal.IntervalRefusal.TheVariants.{Halted};
ghost use Rattle.runs.specs.Works.{WorkedBy, traced};
ghost use Rattle.runs.specs.Words.{Turn};
ghost use Rattle.runs.specs.Sheets.{said, said_of};
ghost use Rattle.runs.specs.Turns.{told, answering, warned, stopping, Moves, extended};

use crate::day::RunDay;
use crate::refusal::IntervalRefusal;
use crate::run::Run;
use crate::sheet::Sheet;
use crate::work::Work;
use intervals::fault::Stop;
pub use intervals::interval::Worked;
use intervals::interval::work_interval;
pub use intervals::warning::WARNING_ROWS;
use intervals::warning::Warning;
use rounding::rule::Rounding;
use terms::question::Slot;
use terms::source::Source;

impl<R: Rounding> Run<R> {
    // Opens a run of a day under a rule: nothing is worked yet.
    pub fn open(day: RunDay, rule: R) -> Run<R>
        ensures rule { result.rule ≡ rule }
        ensures stopped { result.stopped ≡ false }
        ensures law { WorkedBy (traced day.day (R.Rounding.rounded rule) []) result.work }
    {
        let work = Work::start(day);
        Run {
            rule,
            work,
            stopped: false,
        }
    }

    // Stops the run for good.
    fn halt(&mut self, stop: Stop) -> IntervalRefusal
        ensures refusal { result ≡ Halted stop }
        ensures stopped { self.new.stopped ≡ true }
        ensures rule { self.new.rule ≡ self.old.rule }
        ensures work { self.new.work ≡ self.old.work }
    {
        self.stopped = true;
        IntervalRefusal::Halted(stop)
    }

    // Works an interval over a source. Refused, in this order, where the run has stopped, where the interval is not the next one, and where
    // the list of warnings has fewer than `WARNING_ROWS` rows; else the rows that are written stand at its front. An accepted interval is added
    // to the totals; a refused one leaves them and the interval due, and where something asked for is missing or out of range, or the shares do
    // not come to the whole, it stops the run.
    #[tactic(auto, using(crate::proofs::Turning::stop_told, crate::proofs::Turning::rows_told))]
    pub fn interval<S: Source>(
        &mut self,
        source: &S,
        interval: u32,
        warnings: &mut [Warning],
    ) -> Result<Worked, IntervalRefusal>
        ensures words { Turn (S.Source.table source.now) self.old.stopped self.old.work interval warnings.old warnings.new result }
        ensures answer { told result ≡ answering (R.Rounding.rounded self.old.rule) (S.Source.table source.now) self.old.stopped self.old.work interval (length warnings.old) }
        ensures warnings { warnings.new ≡ warned (S.Source.table source.now) self.old.stopped self.old.work interval warnings.old }
        ensures rule { self.new.rule ≡ self.old.rule }
        ensures stopped { self.new.stopped ≡ stopping (S.Source.table source.now) self.old.stopped self.old.work interval (length warnings.old) }
        ensures work { Moves (R.Rounding.rounded self.old.rule) (S.Source.table source.now) result self.old.work self.new.work }
        ensures law { (y : ℕ) (ts : List Table) → WorkedBy (traced y (R.Rounding.rounded self.old.rule) ts) self.old.work → WorkedBy (traced y (R.Rounding.rounded self.new.rule) (extended result (S.Source.table source.now) ts)) self.new.work }
    {
        if self.stopped {
            return Err(IntervalRefusal::Stopped);
        }
        if !self.work.is_due(interval) {
            return Err(IntervalRefusal::NotDue);
        }
        let Some(rows) = warnings.first_chunk_mut::<WARNING_ROWS>() else {
            return Err(IntervalRefusal::FewRows);
        };
        let slot = Slot {
            day: self.work.day,
            interval,
        };
        match work_interval(&self.rule, source, slot, rows) {
            Ok(settled) => {
                self.work.enter(&settled);
                Ok(settled.worked)
            }
            Err(stop) => Err(self.halt(stop)),
        }
    }
}

impl<R: Rounding + Drop> Run<R> {
    // Closes the run: what it has worked is the sheet's.
    pub fn close(self) -> Sheet
        ensures work { result.work ≡ self.work }
        ensures law { (t : Trace) → WorkedBy t self.work → WorkedBy t result.work }
        ensures said { (t : Trace) → WorkedBy t self.work → said result.work ≡ said_of t }
        ensures balanced { 2 * unsigned_abs (sum_to 64 (λ q. net (slice_index_or result.work.totals q none))) ≤ result.work.charged }
    {
        let Run {
            rule: _,
            work,
            stopped: _,
        } = self;
        Sheet { work }
    }
}
