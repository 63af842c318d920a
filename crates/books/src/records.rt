// A store in a list of records.
ghost use Rattle.std.specs.Prelude.{◌≡◌, [], ◌∷◌, ◌++◌, length, take, drop};
ghost use Rattle.books.specs.Lists.{new_kept};
ghost use Rattle.books.specs.Stores.{kept_of, laid};
ghost use Rattle.books.specs.declared.place.Place.{Place};
ghost use Rattle.books.specs.RecordsKept.{few_records, pinned_records};

use crate::place::Place;
use crate::shelf::Shelf;
use crate::store::Store;

// The most places that a book has.
pub const MOST_PLACES: usize = 32;

// The first 32 records are the places, or all where there are fewer.
#[derive(Drop)]
pub struct Records {
    pub(crate) records: Vec<Place>,
}

impl Store for Records {
    ghost slots = { λ s. take 32 s.records.items };

    ghost Cell = { Place };

    ghost written = { λ x. x ∷ [] };

    ghost beside = { λ s. drop 32 s.records.items };

    ghost stored = { λ s. s.records.items };

    ghost few = { λ s. few_records s.records.items };

    ghost pinned = { λ s. pinned_records s.records.items };

    fn count(&self) -> usize {
        self.records.len().min(MOST_PLACES)
    }

    fn place(&self, i: usize) -> Place {
        if i >= MOST_PLACES {
            return Place::blank(0);
        }
        self.records.get(i).copied().unwrap_or(Place::blank(0))
    }

    fn put(&mut self, i: usize, place: Place) {
        if i < self.count() {
            self.records[i] = place;
        }
    }
}

// A book in a list of records.
impl Shelf<Records> {
    // Opens a new book: the places are cleared, and no day is held.
    pub fn open(records: Vec<Place>) -> Shelf<Records>
        ensures kept { kept_of (take 32 result.store.records.items) result.used ≡ new_kept (length (take 32 records.items)) }
        ensures beside { drop 32 result.store.records.items ≡ drop 32 records.items }
    {
        Shelf::cleared(Records { records })
    }

    // Hands the records back: the held days, free places, and what stood behind them.
    pub fn close(self) -> Vec<Place>
        ensures { result.items ≡ laid (kept_of (take 32 self.store.records.items) self.used) ++ drop 32 self.store.records.items }
    {
        let Records { records } = self.into_store();
        records
    }
}
