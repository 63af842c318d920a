// Places that a book can stand on.
ghost use Rattle.std.specs.Prelude.{◌≡◌, ℕ, ◌<◌, ◌≤◌, ◌++◌, List, length, slice_set};
ghost use Rattle.books.specs.Places.{at};
ghost use Rattle.books.specs.Stores.{joined};

use crate::place::Place;

pub trait Store {
    ghost use Rattle.books.specs.declared.place.Place.{Place};

    // The places, in their order.
    ghost slots: { Self → List Place };

    // What a place is written with: bytes, or a record.
    ghost Cell: { Type 0 };

    // How a place is written.
    ghost written: { Place → List Cell };

    // What is stored behind the places. Nothing changes it.
    ghost beside: { Self → List Cell };

    // All that is stored.
    ghost stored: { Self → List Cell };

    fn count(&self) -> usize
        ensures { result ≡ length (slots self.now) };

    // A place; past the last, a free one.
    fn place(&self, i: usize) -> Place
        ensures { result ≡ at (slots self.now) i };

    // Writes a place; past the last, nothing.
    fn put(&mut self, i: usize, place: Place)
        ensures slots { slots self.new ≡ slice_set (slots self.old) i place }
        ensures beside { beside self.new ≡ beside self.old };

    ghost few: { (s : Self) → length (slots s) ≤ 32 };

    // The places are written one after the other, and nothing else is stored but what is beside them.
    ghost pinned: { (s : Self) → stored s ≡ joined written (slots s) ++ beside s };
}
