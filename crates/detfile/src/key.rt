// The day, the unit and the interval of a value line.
ghost use Rattle.std.specs.Prelude.{◌≡◌};
ghost use Rattle.figures.specs.Tokens.{seen, token_of};
ghost use Rattle.detfile.specs.Keys.{ranged, interval_by, key_by, covers_of};

use crate::fields::Fields;
use figures::numbers::{Fault, short_number};
use figures::tokens::Token;
use terms::question::{LAST_DAY, LAST_INTERVAL, LAST_UNIT};

#[derive(Clone, Copy, Debug, PartialEq, Eq)]
pub enum Interval {
    Every,
    At(u32),
}

impl Interval {
    pub fn covers(self, interval: u32) -> bool
        ensures { result ≡ covers_of self interval }
    {
        match self {
            Interval::Every => true,
            Interval::At(n) => n == interval,
        }
    }
}

// A star, or an interval's number.
impl TryFrom<Token<'_>> for Interval {
    type Error = Fault;

    ghost try_from_gives = { λ token r. r ≡ interval_by (seen token) };

    fn try_from(token: Token<'_>) -> Result<Interval, Fault> {
        match token {
            Token::Nothing => Err(Fault::Form),
            Token::Every => Ok(Interval::Every),
            Token::Number(part) => ranged_number(part, 1, LAST_INTERVAL).map(Interval::At),
        }
    }
}

#[derive(Clone, Copy, Debug, PartialEq, Eq)]
pub struct Key {
    pub day: u32,
    pub unit: u32,
    pub interval: Interval,
}

// What the first three fields of a value line say, or the fault of the first that is at fault.
impl TryFrom<Fields<'_>> for Key {
    type Error = Fault;

    ghost try_from_gives = { λ fields r. r ≡ key_by fields.day.now fields.unit.now (token_of fields.interval.now) };

    fn try_from(fields: Fields<'_>) -> Result<Key, Fault> {
        Ok(Key {
            day: ranged_number(fields.day, 0, LAST_DAY)?,
            unit: ranged_number(fields.unit, 0, LAST_UNIT)?,
            interval: Interval::try_from(Token::from(fields.interval))?,
        })
    }
}

// The number from `low` to `high` that one to five digits write.
pub fn ranged_number(field: &[u8], low: u32, high: u32) -> Result<u32, Fault>
    ensures { result ≡ ranged low high field.now }
{
    let n = short_number(field).ok_or(Fault::Form)?;
    if (low..=high).contains(&n) {
        Ok(n)
    } else {
        Err(Fault::Form)
    }
}
