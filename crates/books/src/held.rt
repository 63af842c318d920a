// Looking through the held days of a book.
ghost use Rattle.std.specs.Prelude.{◌≡◌, length};
ghost use Rattle.books.specs.Kept.{held_at};
ghost use Rattle.books.specs.Stores.{kept_of};

use crate::place::Place;
use crate::shelf::Shelf;
use crate::store::Store;

impl<S: Store> Shelf<S> {
    // How many places there are, free ones too.
    pub fn places(&self) -> usize
        ensures { result ≡ (kept_of (S.Store.slots self.now.store) self.now.used).places }
    {
        self.store.count()
    }

    // The held day at an index, from the lowest day on.
    pub fn held(&self, index: usize) -> Option<Place>
        ensures { result ≡ held_at (kept_of (S.Store.slots self.now.store) self.now.used) index }
    {
        if index < self.used {
            Some(self.store.place(index))
        } else {
            None
        }
    }
}
