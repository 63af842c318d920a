// The fields of a line.
ghost use Rattle.std.specs.Prelude.{◌≡◌};
ghost use Rattle.figures.specs.Cuts.{first_field, past_field};
ghost use Rattle.detfile.specs.Keys.{values_part};

use figures::cutting::cut_field;

// The first three fields, and what stands after them.
#[derive(Clone, Copy, Debug, PartialEq, Eq)]
pub struct Fields<'a> {
    pub day: &'a [u8],
    pub unit: &'a [u8],
    pub interval: &'a [u8],
    pub values: &'a [u8],
}

impl<'a> Fields<'a> {
    pub fn cut(line: &'a [u8]) -> Fields<'a>
        ensures day { result.day.now ≡ first_field line.now }
        ensures unit { result.unit.now ≡ first_field (past_field line.now) }
        ensures interval { result.interval.now ≡ first_field (past_field (past_field line.now)) }
        ensures values { result.values.now ≡ values_part line.now }
    {
        let (day, rest) = cut_field(line);
        let (unit, rest) = cut_field(rest);
        let (interval, values) = cut_field(rest);
        Fields {
            day,
            unit,
            interval,
            values,
        }
    }
}
