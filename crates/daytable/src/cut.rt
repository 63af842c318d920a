// The cut of one determinant and unit.
ghost use Rattle.std.specs.Prelude.{◌≡◌, ℕ, ◌-◌, ◌≤◌, cond, Some, None, length, slice_index_or};
ghost use Rattle.terms.specs.Limits.{last_interval};
ghost use Rattle.terms.specs.Answers.{later};
ghost use Rattle.terms.specs.declared.answer.Answer.TheVariants.{Null, Figure};
ghost use Rattle.detfile.specs.Keys.{covers_of};
ghost use Rattle.daytable.specs.Cuts.{InDay, cut_says};

use crate::place::INTERVALS;
use detfile::key::Interval;
use terms::answer::Answer;

// Nothing where no line of the day gives a number; else the numbers of the intervals that have one.
#[derive(Clone, Copy)]
pub(crate) enum Cut {
    Nothing,
    Given([Option<i32>; INTERVALS]),
}

// Writes a number at each interval that is covered.
fn write(figures: &mut [Option<i32>; INTERVALS], interval: Interval, number: i32)
    requires { InDay interval }
    ensures { (i : ℕ) → 1 ≤ i → i ≤ last_interval → slice_index_or figures.new (i - 1) None ≡ cond (covers_of interval i) (Some number) (slice_index_or figures.old (i - 1) None) }
{
    match interval {
        Interval::Every => figures.fill(Some(number)),
        Interval::At(n) => figures[n as usize - 1] = Some(number),
    }
}

impl Cut {
    // Takes in a number that a line gives.
    pub(crate) fn put(&mut self, interval: Interval, number: i32)
        requires { InDay interval }
        ensures { (i : ℕ) → 1 ≤ i → i ≤ last_interval → cut_says self.new i ≡ later (cut_says self.old i) (cond (covers_of interval i) (Figure number) Null) }
    {
        match self {
            Cut::Given(figures) => write(figures, interval, number),
            Cut::Nothing => {
                let mut figures = [None; INTERVALS];
                write(&mut figures, interval, number);
                *self = Cut::Given(figures);
            }
        }
    }

    // The answer at an interval.
    pub(crate) fn at(&self, interval: u32) -> Answer
        requires first { 1 ≤ interval }
        requires last { interval ≤ last_interval }
        ensures { result ≡ cut_says self.now interval }
    {
        match self {
            Cut::Nothing => Answer::NoCut,
            Cut::Given(figures) => match figures[interval as usize - 1] {
                None => Answer::Null,
                Some(number) => Answer::Figure(number.into()),
            },
        }
    }
}
