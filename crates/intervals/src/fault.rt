// Why an interval stops.
ghost use Rattle.std.specs.Prelude.{◌≡◌};
ghost use Rattle.intervals.specs.Stops.{cause_number, stop_at};
ghost use Rattle.intervals.specs.Courses.{fault_at};

use terms::determinant::Determinant;
use terms::question::Slot;

#[derive(Clone, Copy, Debug, PartialEq, Eq)]
pub enum Cause {
    // A determinant is missing that the run cannot do without.
    Missing,
    // A number lies outside its determinant's range.
    OutOfRange,
    // The shares of the load are not all of it together.
    Shares,
}

impl Cause {
    // The number of the answer.
    pub fn number(self) -> u32
        ensures { result ≡ cause_number self }
    {
        match self {
            Cause::Missing => 14,
            Cause::OutOfRange => 15,
            Cause::Shares => 16,
        }
    }
}

// The question at which the asking ends.
#[derive(Clone, Copy, Debug, PartialEq, Eq)]
pub struct Fault {
    pub cause: Cause,
    pub determinant: Determinant,
    pub unit: u32,
}

// A fault with the interval in which it was found, and how many warning rows came up before it.
#[derive(Clone, Copy, Debug, PartialEq, Eq)]
pub struct Stop {
    pub fault: Fault,
    pub slot: Slot,
    pub warnings: usize,
}

impl Fault {
    // The cause, and the question whose answer it lies in.
    pub fn new(cause: Cause, determinant: Determinant, unit: u32) -> Fault
        ensures { result ≡ fault_at cause determinant unit }
    {
        Fault {
            cause,
            determinant,
            unit,
        }
    }

    // The stop that a fault in an interval makes.
    pub fn at(self, slot: Slot, warnings: usize) -> Stop
        ensures { result ≡ stop_at slot.day slot.interval warnings self }
    {
        Stop {
            fault: self,
            slot,
            warnings,
        }
    }
}
