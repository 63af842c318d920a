// Where things stand in the table of a day.
ghost use Rattle.std.specs.Prelude.{◌≡◌, ◌<◌, ◌≤◌};
ghost use Rattle.terms.specs.Limits.{last_determinant, last_unit};
ghost use Rattle.daytable.specs.Cuts.{cut_count, place};

use terms::question::{LAST_DETERMINANT, LAST_INTERVAL, LAST_UNIT};

pub(crate) const INTERVALS: usize = LAST_INTERVAL as usize;

const UNITS: usize = LAST_UNIT as usize + 1;

// One cut for each determinant and unit.
pub(crate) const CUTS: usize = LAST_DETERMINANT as usize * UNITS;

// Where the cut of a determinant and unit stands.
pub(crate) fn place_of(determinant: u32, unit: u32) -> usize
    requires first { 1 ≤ determinant }
    requires last { determinant ≤ last_determinant }
    requires unit { unit ≤ last_unit }
    ensures value { result ≡ place determinant unit }
    ensures bound { result < cut_count }
{
    (determinant as usize - 1) * UNITS + unit as usize
}
