// What a book is.
ghost use Rattle.std.specs.Prelude.{◌≡◌, ◌++◌, List};
ghost use Rattle.books.specs.Kept.{Kept};
ghost use Rattle.books.specs.Calls.{reserving, reading, replacing, lifting};
ghost use Rattle.books.specs.Lifts.{as_billed};
ghost use Rattle.books.specs.Refusals.{told};
ghost use Rattle.books.specs.Laws.{Sound};
ghost use Rattle.books.specs.Stores.{joined, laid};

use crate::account::Account;
use crate::refusal::BookRefusal;
use amounts::row::Amounts;

// How a reservation is lifted.
#[derive(Clone, Copy, Debug, PartialEq, Eq)]
pub enum Lift {
    AsBilled,
    AsUnbilled,
}

pub trait Book {
    ghost use Rattle.books.specs.declared.place.Place.{Place};

    // What a book means: how many places it has, and what it keeps of the held days.
    ghost kept: { Self → Kept };

    // What it is stored in: bytes, or records.
    ghost Cell: { Type 0 };

    ghost written: { Place → List Cell };

    // What is stored behind the places. No call changes it.
    ghost beside: { Self → List Cell };

    // All that is stored.
    ghost stored: { Self → List Cell };

    // Reserves a day: one that is not held takes a place.
    fn reserve(&mut self, day: u32) -> Result<(), BookRefusal>
        ensures answer { told result ≡ told (reserving (kept self.old) day).answer }
        ensures value { result ≡ (reserving (kept self.old) day).answer }
        ensures kept { kept self.new ≡ (reserving (kept self.old) day).after }
        ensures beside { beside self.new ≡ beside self.old };

    // What is kept of a day and an entity.
    fn read(&self, day: u32, entity: u32) -> Result<Account, BookRefusal>
        ensures answer { told result ≡ told (reading (kept self.now) day entity) }
        ensures value { result ≡ reading (kept self.now) day entity };

    // Replaces an entity's amounts on a reserved day.
    fn replace(&mut self, day: u32, entity: u32, amounts: Amounts) -> Result<(), BookRefusal>
        ensures answer { told result ≡ told (replacing (kept self.old) day entity amounts).answer }
        ensures value { result ≡ (replacing (kept self.old) day entity amounts).answer }
        ensures kept { kept self.new ≡ (replacing (kept self.old) day entity amounts).after }
        ensures beside { beside self.new ≡ beside self.old };

    // Ends a reservation.
    fn lift(&mut self, day: u32, how: Lift) -> Result<(), BookRefusal>
        ensures answer { told result ≡ told (lifting (kept self.old) day (as_billed how)).answer }
        ensures value { result ≡ (lifting (kept self.old) day (as_billed how)).answer }
        ensures kept { kept self.new ≡ (lifting (kept self.old) day (as_billed how)).after }
        ensures beside { beside self.new ≡ beside self.old };

    // What is kept is what a book can keep.
    ghost sound: { (b : Self) → Sound (kept b) };

    // What is stored follows from what is kept, to the last byte or record: the held days in front, then free places, then what is beside.
    ghost pinned: { (b : Self) → stored b ≡ joined written (laid (kept b)) ++ beside b };
}
