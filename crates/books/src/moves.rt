// Making room among places, and closing a gap.
ghost use Rattle.std.specs.Prelude.{◌≡◌, ◌+◌, ◌≤◌, ◌<◌, length};
ghost use Rattle.std.proofs.Math.ListN.{replicate};
ghost use Rattle.books.specs.Places.{free};
ghost use Rattle.books.specs.Stores.{Opened, Closed};

use crate::place::Place;
use crate::store::Store;

// Puts a place at `i`; those from there on, up to `used`, move up by one.
pub(crate) fn open_gap<S: Store>(store: &mut S, i: usize, used: usize, place: Place)
    requires within { i ≤ used }
    requires room { used < length (S.Store.slots store.old) }
    ensures opened { Opened (S.Store.slots store.old) (S.Store.slots store.new) i (used + 1) place }
    ensures beside { S.Store.beside store.new ≡ S.Store.beside store.old }
{
    let mut carried = place;
    for j in i..=used {
        let next = store.place(j);
        store.put(j, carried);
        carried = next;
    }
}

// Frees place `i`: those behind it, up to `used`, move down by one.
pub(crate) fn close_gap<S: Store>(store: &mut S, i: usize, used: usize)
    requires within { i < used }
    requires held { used ≤ length (S.Store.slots store.old) }
    ensures closed { Closed (S.Store.slots store.old) (S.Store.slots store.new) i used }
    ensures beside { S.Store.beside store.new ≡ S.Store.beside store.old }
{
    for j in i + 1..used {
        let place = store.place(j);
        store.put(j - 1, place);
    }
    store.put(used - 1, Place::blank(0));
}

// Frees all places.
pub(crate) fn clear<S: Store>(store: &mut S)
    ensures slots { S.Store.slots store.new ≡ replicate (length (S.Store.slots store.old)) free }
    ensures beside { S.Store.beside store.new ≡ S.Store.beside store.old }
{
    for i in 0..store.count() {
        store.put(i, Place::blank(0));
    }
}
