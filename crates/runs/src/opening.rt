// Checking a run's day.
ghost use Rattle.std.specs.Prelude.{◌≡◌};
ghost use Rattle.runs.specs.Days.{day_told, checking};

use crate::day::RunDay;
use crate::refusal::DayRefusal;
use terms::question::LAST_DAY;

// The day, where there is such a day.
impl TryFrom<u32> for RunDay {
    type Error = DayRefusal;

    ghost try_from_gives = { λ day r. day_told r ≡ checking day };

    fn try_from(day: u32) -> Result<RunDay, DayRefusal> {
        if day > LAST_DAY {
            return Err(DayRefusal::OutOfRange);
        }
        Ok(RunDay { day })
    }
}
