// Putting what is kept of a day, and cutting a day.
ghost use Rattle.std.specs.Prelude.{◌≡◌, ◌<◌, true, false, length, take};
ghost use Rattle.books.specs.Kept.{put, cut};
ghost use Rattle.books.specs.Seats.{SeatOf};
ghost use Rattle.books.specs.Stores.{kept_of};
ghost use Rattle.books.specs.Tests.{is_sound};

use crate::moves::{close_gap, open_gap};
use crate::place::Place;
use crate::seats::Seat;
use crate::shelf::Shelf;
use crate::store::Store;

impl<S: Store> Shelf<S> {
    // Puts what is now kept of a day, at the day's seat.
    pub(crate) fn settle(&mut self, seat: Seat, place: Place)
        requires seat { SeatOf place.day (take self.old.used (S.Store.slots self.old.store)) seat }
        requires sound { is_sound place ≡ true }
        requires room { seat.is_held ≡ false → self.old.used < length (S.Store.slots self.old.store) }
        ensures kept { kept_of (S.Store.slots self.new.store) self.new.used ≡ put (kept_of (S.Store.slots self.old.store) self.old.used) place }
        ensures beside { S.Store.beside self.new.store ≡ S.Store.beside self.old.store }
    {
        if seat.is_held {
            self.store.put(seat.index, place);
        } else {
            open_gap(&mut self.store, seat.index, self.used, place);
            self.used += 1;
        }
    }
    // Cuts a held day, which gives its place back.
    pub(crate) fn remove(&mut self, seat: Seat)
        requires seat { SeatOf seat.place.day (take self.old.used (S.Store.slots self.old.store)) seat }
        requires held { seat.is_held ≡ true }
        ensures kept { kept_of (S.Store.slots self.new.store) self.new.used ≡ cut (kept_of (S.Store.slots self.old.store) self.old.used) seat.place.day }
        ensures beside { S.Store.beside self.new.store ≡ S.Store.beside self.old.store }
    {
        close_gap(&mut self.store, seat.index, self.used);
        self.used -= 1;
    }
}
