// What a source is asked.
ghost use Rattle.std.specs.Prelude.{◌≡◌};
ghost use Rattle.terms.specs.Determinants.{number_of};
ghost use Rattle.terms.specs.Limits.{inside};

use crate::determinant::Determinant;

// How many scheduling entities there are: their codes are below this, and the shares of the load are theirs.
pub const ENTITIES: usize = 64;

// How many Resources there are.
pub const RESOURCES: usize = 128;

pub const LAST_DETERMINANT: u32 = 13;

pub const LAST_UNIT: u32 = 127;

pub const LAST_DAY: u32 = 65_535;

pub const LAST_INTERVAL: u32 = 96;

// The most that a stored number may lie away from zero.
pub const MOST_STORED: u64 = 1_000_000_000;

// An interval of a day.
#[derive(Clone, Copy, Debug, PartialEq, Eq)]
pub struct Slot {
    pub day: u32,
    pub interval: u32,
}

// Any numbers may be asked; those outside the ranges have no cut.
#[derive(Clone, Copy, Debug, PartialEq, Eq)]
pub struct Question {
    pub determinant: u32,
    pub unit: u32,
    pub day: u32,
    pub interval: u32,
}

impl Question {
    // The question about a determinant of a unit in an interval.
    pub fn about(determinant: Determinant, unit: u32, slot: Slot) -> Question
        ensures determinant { result.determinant ≡ number_of determinant }
        ensures unit { result.unit ≡ unit }
        ensures day { result.day ≡ slot.day }
        ensures interval { result.interval ≡ slot.interval }
    {
        Question {
            determinant: determinant.into(),
            unit,
            day: slot.day,
            interval: slot.interval,
        }
    }

    // Whether each of the four numbers lies in its range.
    pub fn is_inside(self) -> bool
        ensures { result ≡ inside self.determinant self.unit self.day self.interval }
    {
        (1..=LAST_DETERMINANT).contains(&self.determinant)
            && self.unit <= LAST_UNIT
            && self.day <= LAST_DAY
            && (1..=LAST_INTERVAL).contains(&self.interval)
    }
}
