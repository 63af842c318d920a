// Opening a book on a store, and handing the store back.
ghost use Rattle.std.specs.Prelude.{◌≡◌, Ok, Err, IfOk, IfErr, length};
ghost use Rattle.books.specs.Lists.{new_kept};
ghost use Rattle.books.specs.Stores.{kept_of, laid};
ghost use Rattle.books.specs.Surveys.{surveyed};

use crate::flaw::Flaw;
use crate::moves::clear;
use crate::shelf::Shelf;
use crate::store::Store;
use crate::survey::survey;

// A store whose places are not those of a book, and what is wrong with them.
pub struct Unfit<S: Store> {
    pub store: S,
    pub flaw: Flaw,
}

impl<S: Store> Shelf<S> {
    // A new book: all places are cleared, and no day is held.
    pub fn cleared(mut store: S) -> Shelf<S>
        ensures kept { kept_of (S.Store.slots result.store) result.used ≡ new_kept (length (S.Store.slots store)) }
        ensures beside { S.Store.beside result.store ≡ S.Store.beside store }
    {
        clear(&mut store);
        Shelf { store, used: 0 }
    }

    // The book that the places say as they stand. Nothing is written.
    pub fn standing(store: S) -> Result<Shelf<S>, Unfit<S>>
        ensures fit { IfOk result (λ b. (b.store ≡ store) × (surveyed (S.Store.slots store) ≡ Ok b.used)) }
        ensures unfit { IfErr result (λ u. (u.store ≡ store) × (surveyed (S.Store.slots store) ≡ Err u.flaw)) }
    {
        match survey(&store) {
            Ok(used) => Ok(Shelf { store, used }),
            Err(flaw) => Err(Unfit { store, flaw }),
        }
    }

    // Hands the store back: the held days stand in front, and free places behind them.
    pub fn into_store(self) -> S
        ensures store { result ≡ self.store }
        ensures slots { S.Store.slots result ≡ laid (kept_of (S.Store.slots self.store) self.used) }
    {
        let Shelf { store, used: _ } = self;
        store
    }
}
