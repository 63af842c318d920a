// Why a job ends without a posting.
ghost use Rattle.std.specs.Prelude.{◌≡◌};
ghost use Rattle.jobs.specs.Refusals.{number_of};

use accounts::refusal::PostRefusal;
use books::refusal::BookRefusal;
use runs::refusal::IntervalRefusal;

#[derive(Clone, Copy, Debug, PartialEq, Eq)]
pub enum JobRefusal {
    // The day is not reserved for the job.
    Reservation(BookRefusal),
    // An interval is not worked; the reservation is withdrawn.
    Interval(IntervalRefusal),
    // The sheet is not posted.
    Posting(PostRefusal),
}

impl JobRefusal {
    // The number of the answer.
    pub fn number(self) -> u32
        ensures { result ≡ number_of self }
    {
        match self {
            JobRefusal::Reservation(refusal) => refusal.number(),
            JobRefusal::Interval(refusal) => refusal.number(),
            JobRefusal::Posting(refusal) => refusal.number(),
        }
    }
}
