// Why a call on a run is refused.
ghost use Rattle.std.specs.Prelude.{◌≡◌};
ghost use Rattle.runs.specs.Refusals.{day_number, interval_number};

use intervals::fault::Stop;

#[derive(Clone, Copy, Debug, PartialEq, Eq)]
pub enum DayRefusal {
    // There is no such day.
    OutOfRange,
}

impl DayRefusal {
    // The number of the answer.
    pub fn number(self) -> u32
        ensures { result ≡ day_number self }
    {
        match self {
            DayRefusal::OutOfRange => 7,
        }
    }
}

#[derive(Clone, Copy, Debug, PartialEq, Eq)]
pub enum IntervalRefusal {
    // The run has stopped.
    Stopped,
    // Another interval is due, or, after the last, none.
    NotDue,
    // The list of warnings has too few rows.
    FewRows,
    // Something asked for is missing or out of range, and the run has stopped.
    Halted(Stop),
}

impl IntervalRefusal {
    // The number of the answer.
    pub fn number(self) -> u32
        ensures { result ≡ interval_number self }
    {
        match self {
            IntervalRefusal::Stopped => 11,
            IntervalRefusal::NotDue => 12,
            IntervalRefusal::FewRows => 13,
            IntervalRefusal::Halted(stop) => stop.fault.cause.number(),
        }
    }
}
