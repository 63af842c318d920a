// Why a run stops, in words. The cause and its place are the run's; this only asks the source again to say what it answered there.
use crate::place::Place;
use amounts::formulas::WHOLE_LOAD;
use intervals::fault::{Cause, Stop};
use notation::figure::Figure;
use std::fmt;
use terms::answer::Answer;
use terms::determinant::Determinant;
use terms::question::{ENTITIES, Question, Slot};
use terms::source::Source;

// The source of a run and where the run stopped.
#[derive_where(Clone, Copy)]
pub struct Sentence<'a, S> {
    pub source: &'a S,
    pub stop: Stop,
}

impl<S: Source> fmt::Display for Sentence<'_, S> {
    fn fmt<W: fmt::Write>(&self, f: &mut fmt::Formatter<W>) -> fmt::Result {
        match self.stop.fault.cause {
            Cause::Missing => self.write_missing(f),
            Cause::OutOfRange => self.write_range(f),
            Cause::Shares => self.write_shares(f),
        }
    }
}

impl<S: Source> Sentence<'_, S> {
    // What the source answers of a determinant and unit in the interval.
    fn ask(&self, determinant: Determinant, unit: u32) -> Answer {
        self.source
            .ask(Question::about(determinant, unit, self.stop.slot))
    }

    fn write_missing<W: fmt::Write>(&self, f: &mut fmt::Formatter<W>) -> fmt::Result {
        let place = Place::from(self.stop.fault);
        let Slot { day, interval } = self.stop.slot;
        let lack = match self.ask(place.determinant, place.unit) {
            Answer::Null => "only for other intervals of that day",
            _ => "for no interval of that day",
        };
        write!(
            f,
            "{place} is missing on day {day} in interval {interval}; the source has it {lack}"
        )
    }

    fn write_range<W: fmt::Write>(&self, f: &mut fmt::Formatter<W>) -> fmt::Result {
        let place = Place::from(self.stop.fault);
        let Slot { day, interval } = self.stop.slot;
        write!(f, "{place} on day {day} in interval {interval} is ")?;
        match self.ask(place.determinant, place.unit) {
            Answer::Figure(stored) => {
                let figure = Figure {
                    stored,
                    determinant: place.determinant,
                };
                write!(f, "{figure} (stored {stored})")?;
            }
            _ => f.write_str("missing")?,
        }
        write_expected(f, place.determinant)
    }

    fn write_shares<W: fmt::Write>(&self, f: &mut fmt::Formatter<W>) -> fmt::Result {
        let Slot { day, interval } = self.stop.slot;
        let shares = Determinant::Lrs;
        let sum = self.sum_of_shares();
        write!(
            f,
            "the {ENTITIES} shares {shares} of the QSEs on day {day} in interval {interval} add up to {sum} instead of {WHOLE_LOAD}, as stored numbers"
        )
    }

    // The stored shares of all entities added up; one that is missing counts as zero.
    fn sum_of_shares(&self) -> i64 {
        let mut sum: i64 = 0;
        for entity in 0..ENTITIES as u32 {
            if let Answer::Figure(share) = self.ask(Determinant::Lrs, entity) {
                sum = sum.saturating_add(share);
            }
        }
        sum
    }
}

// The range of a determinant, as a figure and as it is stored.
fn write_expected<W: fmt::Write>(
    f: &mut fmt::Formatter<W>,
    determinant: Determinant,
) -> fmt::Result {
    let low = determinant.low();
    let high = determinant.high();
    let from = Figure {
        stored: low,
        determinant,
    };
    let to = Figure {
        stored: high,
        determinant,
    };
    write!(
        f,
        "; expected from {from} to {to} (stored from {low} to {high})"
    )
}
