// A place of a book: one day.
ghost use Rattle.std.specs.Prelude.{◌≡◌};
ghost use Rattle.books.specs.Places.{blank, marked, replaced, in_range};
ghost use Rattle.books.specs.Calls.{account};

use crate::account::Account;
use amounts::row::Amounts;
use terms::question::ENTITIES;

// The most that an amount in a book may lie away from zero.
pub const MOST_AMOUNT: u64 = 1_000_000_000_000_000;

// A day with its two marks and the amounts that were last put there for each entity. A place that no day has is all zero.
#[derive(Clone, Copy, Debug, PartialEq, Eq)]
pub struct Place {
    pub day: u16,
    pub reserved: bool,
    pub billed: bool,
    pub amounts: [Amounts; ENTITIES],
}

impl Place {
    // What is kept of a day that is not held: no mark, and no amounts.
    pub fn blank(day: u16) -> Place
        ensures { result ≡ blank day }
    {
        Place {
            day,
            reserved: false,
            billed: false,
            amounts: [Amounts::default(); ENTITIES],
        }
    }

    // The same day with other marks.
    pub fn marked(self, reserved: bool, billed: bool) -> Place
        ensures { result ≡ marked self reserved billed }
    {
        Place {
            reserved,
            billed,
            ..self
        }
    }

    // The same day with another entity's amounts; past the last entity, the same.
    pub fn replaced(self, entity: usize, amounts: Amounts) -> Place
        ensures { result ≡ replaced self entity amounts }
    {
        let mut place = self;
        if entity < ENTITIES {
            place.amounts[entity] = amounts;
        }
        place
    }

    // What is told of an entity; past the last one, no amounts.
    pub fn account(&self, entity: usize) -> Account
        ensures { result ≡ account self.now entity }
    {
        Account {
            reserved: self.reserved,
            billed: self.billed,
            amounts: self.amounts.get(entity).copied().unwrap_or_default(),
        }
    }
}

// Whether a book may keep these amounts.
pub fn is_in_range(amounts: Amounts) -> bool
    ensures { result ≡ in_range amounts }
{
    let Amounts {
        reactive,
        held,
        load,
    } = amounts;
    reactive.unsigned_abs() <= MOST_AMOUNT
        && held.unsigned_abs() <= MOST_AMOUNT
        && load.unsigned_abs() <= MOST_AMOUNT
}
