// Where a day stands.
ghost use Rattle.std.specs.Prelude.{◌≤◌, take};
ghost use Rattle.books.specs.Seats.{SeatOf};

use crate::place::Place;
use crate::shelf::Shelf;
use crate::store::Store;

// The place at which a day stands, or would stand, and what is kept of it.
#[derive(Clone, Copy)]
pub(crate) struct Seat {
    pub(crate) index: usize,
    pub(crate) is_held: bool,
    pub(crate) place: Place,
}

impl<S: Store> Shelf<S> {
    pub(crate) fn seek(&self, day: u16) -> Seat
        ensures seat { SeatOf day (take self.now.used (S.Store.slots self.now.store)) result }
        ensures within { result.index ≤ self.now.used }
    {
        for index in 0..self.used {
            let place = self.store.place(index);
            if place.day == day {
                return Seat {
                    index,
                    is_held: true,
                    place,
                };
            }
            if place.day > day {
                return Seat {
                    index,
                    is_held: false,
                    place: Place::blank(day),
                };
            }
        }
        Seat {
            index: self.used,
            is_held: false,
            place: Place::blank(day),
        }
    }
}
