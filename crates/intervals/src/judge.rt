// What an answer means for the interval.
ghost use Rattle.std.specs.Prelude.{◌≡◌};
ghost use Rattle.intervals.specs.Judgements.{judged};

use crate::fault::Cause;
use terms::answer::Answer;
use terms::determinant::{Determinant, Missing};

#[derive(Clone, Copy, Debug, PartialEq, Eq)]
pub enum Judgement {
    // The number to work with; zero for a missing one that counts as zero.
    Taken(i64),
    // Missing; the amount that it enters is zero, and a warning row may say so.
    Warned,
    // Missing; the Resource is passed over.
    Skipped,
    // The interval stops.
    Stopped(Cause),
}

// Judges the answer to a question about a determinant.
pub fn judge(determinant: Determinant, answer: Answer) -> Judgement
    ensures { result ≡ judged determinant answer }
{
    let missing = determinant.missing();
    match (u32::from(determinant), answer) {
        (_, Answer::Figure(x)) if !determinant.admits(x) => Judgement::Stopped(Cause::OutOfRange),
        (_, Answer::Figure(x)) => Judgement::Taken(x),
        (1..=2, _) => Judgement::Skipped,
        (3..=13, _) if missing == Missing::Zero => Judgement::Taken(0),
        (3..=13, _) if missing == Missing::Warning => Judgement::Warned,
        (3..=13, _) if missing == Missing::Stop => Judgement::Stopped(Cause::Missing),
        _ => unreachable(),
    }
}
