// The calls of a book, on any store.
ghost use Rattle.std.specs.Prelude.{◌≡◌, cond, Ok, Err, nat_le, nat_lt};
ghost use Rattle.terms.specs.Limits.{last_day};
ghost use Rattle.books.specs.declared.refusal.BookRefusal.TheVariants.{OutOfRange};
ghost use Rattle.books.specs.Stores.{kept_of};
ghost use Rattle.books.specs.ShelvesKept.{sound_of, pinned_of};

use crate::account::Account;
use crate::book::{Book, Lift};
use crate::place::is_in_range;
use crate::refusal::BookRefusal;
use crate::shelf::Shelf;
use crate::store::Store;
use amounts::row::Amounts;
use terms::question::ENTITIES;

fn book_day(day: u32) -> Result<u16, BookRefusal>
    ensures { result ≡ cond (nat_lt last_day day) (Err OutOfRange) (Ok day) }
{
    u16::try_from(day).map_err(|_| BookRefusal::OutOfRange)
}

fn book_entity(entity: u32) -> Result<usize, BookRefusal>
    ensures { result ≡ cond (nat_le 64 entity) (Err OutOfRange) (Ok entity) }
{
    let entity = entity as usize;
    if entity >= ENTITIES {
        return Err(BookRefusal::OutOfRange);
    }
    Ok(entity)
}

impl<S: Store> Book for Shelf<S> {
    ghost kept = { λ b. kept_of (S.Store.slots b.store) b.used };

    ghost Cell = { S.Store.Cell };

    ghost written = { S.Store.written };

    ghost beside = { λ b. S.Store.beside b.store };

    ghost stored = { λ b. S.Store.stored b.store };

    ghost sound = { λ b. sound_of (S.Store.slots b.store) b.used (S.Store.few b.store) b.within b.rising b.each };

    ghost pinned = { λ b. pinned_of S.Store.written (S.Store.beside b.store) (S.Store.stored b.store) (S.Store.slots b.store) b.used (S.Store.pinned b.store) b.within b.free };

    #[tactic(auto, unfolding(crate::specs::Calls::reserving))]
    fn reserve(&mut self, day: u32) -> Result<(), BookRefusal> {
        let day = book_day(day)?;
        let seat = self.seek(day);
        if seat.place.reserved {
            return Err(BookRefusal::Reserved);
        }
        if !seat.is_held && self.used == self.store.count() {
            return Err(BookRefusal::Full);
        }
        self.settle(seat, seat.place.marked(true, seat.place.billed));
        Ok(())
    }

    #[tactic(auto, unfolding(crate::specs::Calls::reading))]
    fn read(&self, day: u32, entity: u32) -> Result<Account, BookRefusal> {
        let day = book_day(day)?;
        let entity = book_entity(entity)?;
        Ok(self.seek(day).place.account(entity))
    }

    #[tactic(auto, unfolding(crate::specs::Calls::replacing))]
    fn replace(&mut self, day: u32, entity: u32, amounts: Amounts) -> Result<(), BookRefusal> {
        let day = book_day(day)?;
        let entity = book_entity(entity)?;
        if !is_in_range(amounts) {
            return Err(BookRefusal::OutOfRange);
        }
        let seat = self.seek(day);
        if !seat.place.reserved {
            return Err(BookRefusal::NotReserved);
        }
        self.settle(seat, seat.place.replaced(entity, amounts));
        Ok(())
    }

    #[tactic(auto, unfolding(crate::specs::Calls::lifting))]
    fn lift(&mut self, day: u32, how: Lift) -> Result<(), BookRefusal> {
        let day = book_day(day)?;
        let seat = self.seek(day);
        if !seat.place.reserved {
            return Err(BookRefusal::NotReserved);
        }
        if how == Lift::AsBilled || seat.place.billed {
            self.settle(seat, seat.place.marked(false, true));
        } else {
            self.remove(seat);
        }
        Ok(())
    }
}
